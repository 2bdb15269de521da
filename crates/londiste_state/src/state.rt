ghost use Rattle.std.specs.Prelude.{◌≡◌, ◌↔◌, ◌<◌, ◌^◌, ◌++◌, ℕ, false, Ok, Err, IfOk, OnOk, OnErr, MatchOption};
ghost use Rattle.std.specs.Fmt.{decimal};
ghost use Rattle.londiste_state.specs.StateText.{state_text, has_tick};
ghost use Rattle.londiste_state.specs.declared.state.TableState.{TableState};

use itoa::Buffer;
use sky_val::{NoMemory, number_of};
use thiserror::Error;

/// What is written before the tick of a state.
const WANNA_SYNC: &[u8] = b"wanna-sync:";

const DO_SYNC: &[u8] = b"do-sync:";

/// Why a text is no state.
#[derive(Clone, Copy, Debug, PartialEq, Eq, Error)]
pub enum StateFault {
    /// No state is written so.
    #[error("not the state of a table")]
    BadState,
}

/// How far a table of a leaf has come, from joining until its leaf's replay applies its events.
#[derive(Clone, Copy, Debug, PartialEq, Eq)]
pub enum TableState {
    /// Its copy hasn't begun.
    Absent,
    /// Its rows are being copied.
    InCopy,
    /// Its copy has the rows, and applies the events that came after them.
    CatchingUp,
    /// Its copy has reached this tick, and waits to be handed over.
    WannaSync(u64),
    /// Its copy is handed over as soon as it has reached this tick.
    DoSync(u64),
    /// Its leaf's replay applies its events.
    Synced,
}

impl TableState {
    ghost use Rattle.londiste_state.specs.StateText.{IsState, IsStateText};
    ghost use Rattle.londiste_state.specs.Moves.{is_allowed};

    /// Appends the state as it is written.
    pub fn print(&self, into: &mut Vec<u8>) -> Result<(), NoMemory>
        ensures ok { OnOk result (into.new.items ≡ into.old.items ++ state_text self.now) }
        ensures err { OnErr result (into.new.items ≡ into.old.items) }
        ensures sound { IsState self.now }
    {
        match self {
            TableState::Absent => into.extend_from_slice(b"none"),
            TableState::InCopy => into.extend_from_slice(b"in-copy"),
            TableState::CatchingUp => into.extend_from_slice(b"catching-up"),
            TableState::WannaSync(tick) => append_with_tick(WANNA_SYNC, *tick, into),
            TableState::DoSync(tick) => append_with_tick(DO_SYNC, *tick, into),
            TableState::Synced => into.extend_from_slice(b"ok"),
        }
    }

    /// The state that is written so. It takes no memory.
    pub fn parse(bytes: &[u8]) -> Result<TableState, StateFault>
        ensures ok { IfOk result (λ state. state_text state ≡ bytes.now) }

        // No two states are written alike.
        ensures read_back { (state : TableState) → IsState state → state_text state ≡ bytes.now → result ≡ Ok state }
        ensures bad { (result ≡ Err StateFault.BadState) ↔ ¬ (IsStateText bytes.now) }
    {
        if let Some(tick) = tick_after(WANNA_SYNC, bytes) {
            return Ok(TableState::WannaSync(tick));
        }
        if let Some(tick) = tick_after(DO_SYNC, bytes) {
            return Ok(TableState::DoSync(tick));
        }
        plain_state(bytes).ok_or(StateFault::BadState)
    }

    /// Whether a table may go from one state to another, which it then has.
    pub fn allowed(from: &TableState, to: &TableState) -> bool
        ensures { result ≡ is_allowed from.now to.now }
    {
        match (from, to) {
            (TableState::Absent, TableState::InCopy) => true,
            (TableState::InCopy, TableState::CatchingUp) => true,
            (TableState::CatchingUp, TableState::WannaSync(_)) => true,
            (TableState::WannaSync(reached), TableState::DoSync(tick)) => reached <= tick,
            (TableState::DoSync(_), TableState::Synced) => true,
            _ => false,
        }
    }
}

/// Appends what is written before a tick, and the tick in decimal; at `Err`, nothing.
fn append_with_tick(word: &[u8], tick: u64, into: &mut Vec<u8>) -> Result<(), NoMemory>
    ensures ok { OnOk result (into.new.items ≡ into.old.items ++ (word.now ++ decimal tick)) }
    ensures err { OnErr result (into.new.items ≡ into.old.items) }
{
    let start = into.len();
    into.extend_from_slice(word)?;
    let printed = into.extend_from_slice(Buffer::new().format(tick).as_bytes());
    if printed.is_err() {
        into.truncate(start);
    }
    printed
}

/// The state without a tick that is written so.
fn plain_state(text: &[u8]) -> Option<TableState>
    ensures { MatchOption result ((state : TableState) → has_tick state ≡ false → ¬ (state_text state ≡ text.now)) (λ state. (has_tick state ≡ false) × (state_text state ≡ text.now)) }
{
    if text == b"none".as_slice() {
        return Some(TableState::Absent);
    }
    if text == b"in-copy".as_slice() {
        return Some(TableState::InCopy);
    }
    if text == b"catching-up".as_slice() {
        return Some(TableState::CatchingUp);
    }
    if text == b"ok".as_slice() {
        return Some(TableState::Synced);
    }
    None
}

/// The tick that is written after a word, as the whole rest of a text.
fn tick_after(word: &[u8], text: &[u8]) -> Option<u64>
    ensures { MatchOption result ((tick : ℕ) → tick < 2 ^ 64 → ¬ (word.now ++ decimal tick ≡ text.now)) (λ tick. word.now ++ decimal tick ≡ text.now) }
{
    number_of(text.strip_prefix(word)?, u64::MAX)
}
