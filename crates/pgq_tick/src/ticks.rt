ghost use Rattle.std.specs.Prelude.{◌≡◌, ◌↔◌, ◌+◌, ◌^◌, ◌<◌, ◌≤◌, ◌*ℤ◌, ◌-ℤ◌, ◌||◌, ◌&&◌, not, int_lt, pos, [], ◌∷◌, ◌++◌, Some, None, Err, IfOk, OnOk, OnErr, IfSome, option_map, option_copied, option_and_then, length, slice_get};
ghost use Rattle.sky_model.specs.Queues.{tick, newest_tick};
ghost use Rattle.sky_model.specs.StepQueue.{due_of, is_due_after, last_two};
ghost use Rattle.sky_model.specs.Queues.{id_of};
ghost use Rattle.sky_model.specs.Moment.{IsTime};
ghost use Rattle.sky_model.specs.Queues.{is_above, ticks_above};
ghost use Rattle.pgq_tick.specs.Ticks.{IsSpan, AreTicks, least_above};

use crate::config::QueueConfig;
use sky_model::{Refusal, Stop};
use sky_txid::Snapshot;
use sky_val::NoMemory;
use std::alloc::Global;
use std::marker::Model;
use thiserror::Error;

/// Why there is no further tick.
#[derive(Clone, Copy, Debug, PartialEq, Eq, Error)]
pub enum TickFault {
    #[error("the last tick id was given")]
    IdsSpent,
    #[error("out of memory")]
    NoMemory,
}

impl From<TickFault> for Stop {
    ghost use Rattle.std.specs.Prelude.{◌≡◌};
    ghost use Rattle.pgq_tick.specs.Faults.{stop_of};

    ghost from_gives = { λ fault stop. stop ≡ stop_of fault };

    fn from(fault: TickFault) -> Stop {
        match fault {
            TickFault::IdsSpent => Stop::Refused(Refusal::IdsSpent),
            TickFault::NoMemory => Stop::NoMemory,
        }
    }
}

/// A tick: a moment of a queue, in microseconds since the clock's start, with the snapshot and the
/// value of the sequence at it.
#[derive(Debug, Drop)]
pub struct Tick {
    pub id: u64,
    pub time: i64,
    pub snapshot: Snapshot,
    pub seq: u64,
}

impl Model for Tick {
    ghost use Rattle.sky_model.specs.Queues as model;

    ghost Value = { model.Tick };

    ghost view = { λ t. record { id = t.id; time = t.time; snapshot = t.snapshot; seq = t.seq } };
}

impl Tick {
    /// Its number, which is above those of the ticks before it.
    pub fn id(&self) -> u64
        ensures { result ≡ self.now.id }
    {
        self.id
    }

    /// The snapshot at it.
    pub fn snapshot(&self) -> &Snapshot
        ensures { result.now ≡ self.now.snapshot }
    {
        &self.snapshot
    }

    /// The lower bound of its snapshot: every transaction below it had ended.
    pub fn xmin(&self) -> u64
        ensures { result ≡ self.now.snapshot.xmin }
    {
        self.snapshot.xmin()
    }

    /// Whether the lower bound of its snapshot is above this transaction id.
    pub fn is_above(&self, txid: u64) -> bool
        ensures { result ≡ is_above txid self.now }
    {
        txid < self.snapshot.xmin()
    }
}

/// The ticks of a queue that are kept, at least one. Ids rise, starting at 1; those of dropped ticks are missing.
#[derive(Debug, Drop)]
pub struct Ticks {
    ticks: Vec<Tick>,
}

impl Model for Ticks {
    ghost use Rattle.std.specs.Prelude.{List, ◌<◌, length};
    ghost use Rattle.sky_model.specs.Queues as model;
    ghost use Rattle.pgq_tick.specs.Ticks.{AreTicks};

    ghost Value = { List model.Tick };

    ghost view = { λ t. t.ticks.items };

    ghost invariant = { λ t. (0 < length t.ticks.items) × AreTicks 1 t.ticks.items };
}

impl Ticks {
    /// The ticks of a new queue, whose first tick is this one.
    pub fn new(alloc: Global, first: Tick) -> Result<Ticks, NoMemory>
        requires first { first.id ≡ 1 }
        requires time { IsTime first.time }
        ensures { IfOk result (λ ticks. ticks ≡ first ∷ []) }
    {
        let mut ticks = Vec::new(alloc);
        ticks.push(first)?;
        Ok(Ticks { ticks })
    }

    /// The newest tick.
    pub fn newest(&self) -> &Tick
        ensures newest { newest_tick self.now ≡ Some result.now }
        ensures time { IsTime result.now.time }
        ensures ticks { AreTicks 1 self.now }
    {
        let ticks = self.ticks.as_slice();
        &ticks[ticks.len() - 1]
    }

    /// The tick with this id, if there is one.
    pub fn get(&self, id: u64) -> Option<&Tick>
        ensures { option_copied result ≡ tick id self.now }
    {
        self.at(self.place(id)?)
    }

    fn place(&self, id: u64) -> Option<usize>
        ensures { option_and_then (slice_get self.now) result ≡ tick id self.now }
    {
        self.ticks.binary_search_by_key(&id, |tick| tick.id).ok()
    }

    /// The tick with the id after this one, if there is one.
    pub fn next_after(&self, id: u64) -> Option<&Tick>
        ensures { option_copied result ≡ tick (id + 1) self.now }
    {
        if self.newest().id() <= id {
            return None;
        }
        self.get(id + 1)
    }

    /// The least id of a tick whose snapshot's lower bound is above this transaction id, if there is one.
    pub fn least(&self, above: u64) -> Option<u64>
        ensures { result ≡ least_above above self.now }
    {
        // No contract says that the bounds rise along the ticks, so this is no binary search.
        let tick = self.ticks.iter().find(|tick| tick.is_above(above))?;
        Some(tick.id)
    }

    /// Drops the ticks whose snapshot's lower bound is at or below this transaction id, but never the newest one.
    pub fn drop_below(&mut self, txid: u64)
        ensures { self.new ≡ ticks_above txid self.old }
    {
        let newest = self.newest().id();
        self.ticks
            .retain(|tick| tick.is_above(txid) || tick.id == newest);
    }

    /// Appends a tick with the next id, and answers that id.
    pub fn add(&mut self, now: i64, snapshot: Snapshot, seq: u64) -> Result<u64, TickFault>
        requires { IsTime now }
        ensures id { IfOk result (λ id. id ≡ id_of (newest_tick self.old) + 1) }
        ensures ok { IfOk result (λ id. self.new ≡ self.old ++ record { id = id; time = now; snapshot = snapshot; seq = seq } ∷ []) }
        ensures spent { (result ≡ Err TickFault.IdsSpent) ↔ (2 ^ 64 ≤ id_of (newest_tick self.old) + 1) }
        ensures err { OnErr result (self.new ≡ self.old) }
    {
        let newest = self.newest().id();
        if newest == u64::MAX {
            return Err(TickFault::IdsSpent);
        }
        let id = newest + 1;
        let tick = Tick {
            id,
            time: now,
            snapshot,
            seq,
        };
        match self.push(tick) {
            Ok(()) => Ok(id),
            Err(_) => Err(TickFault::NoMemory),
        }
    }

    fn push(&mut self, tick: Tick) -> Result<(), NoMemory>
        requires next { tick.id ≡ id_of (newest_tick self.old) + 1 }
        requires time { IsTime tick.time }
        ensures ok { OnOk result (self.new ≡ self.old ++ tick ∷ []) }
        ensures err { OnErr result (self.new ≡ self.old) }
    {
        self.ticks.push(tick)?;
        Ok(())
    }

    /// Whether a tick is due at this time and this value of the sequence. A paused queue gets none.
    pub fn due(&self, cfg: &QueueConfig, now: i64, seq: u64) -> bool
        requires { IsTime now }
        ensures { result ≡ due_of cfg.now now seq (last_two None self.now) }
    {
        !cfg.ticker_paused() && is_due_after(cfg, self.newest(), self.before_newest(), now, seq)
    }

    fn before_newest(&self) -> Option<&Tick>
        ensures last { last_two None self.now ≡ option_map (λ t. (t, option_copied result)) (newest_tick self.now) }
        ensures time { IfSome result (λ t. IsTime t.now.time) }
    {
        let len = self.len();
        if len < 2 {
            return None;
        }
        self.at(len - 2)
    }

    fn at(&self, place: usize) -> Option<&Tick>
        ensures { option_copied result ≡ slice_get self.now place }
    {
        self.ticks.get(place)
    }

    fn len(&self) -> usize
        ensures len { result ≡ length self.now }
        ensures some { 0 < result }
        ensures ticks { AreTicks 1 self.now }
    {
        self.ticks.len()
    }
}

/// Whether a tick is due after the last one. With new events, it is due at `ticker_max_count` of them or at
/// `ticker_max_lag`, whichever comes first. Without any, it is due at once if no tick is kept before the last one, and
/// else by `is_idle`.
fn is_due_after(cfg: &QueueConfig, last: &Tick, before: Option<&Tick>, now: i64, seq: u64) -> bool
    requires now { IsTime now }
    requires last { IsTime last.now.time }
    requires before { IfSome before (λ t. IsTime t.now.time) }
    ensures { result ≡ is_due_after cfg.now now seq last.now (option_copied before.entry) }
{
    let lag = time_between(last.time, now);
    if last.seq < seq {
        return !(seq - last.seq < cfg.ticker_max_count() && lag < cfg.ticker_max_lag());
    }
    match before {
        None => true,
        Some(before) => is_idle_due(cfg, lag, time_between(before.time, last.time)),
    }
}

/// Whether a tick is due without new events, by the time since the last tick and the time between the last two. It is
/// apart from `is_idle` for the prover alone, which proves the rule of four plain numbers by itself.
fn is_idle_due(cfg: &QueueConfig, lag: i64, gap: i64) -> bool
    requires lag { IsSpan lag }
    requires gap { IsSpan gap }
    ensures { result ≡ not (int_lt (pos 2 *ℤ lag) cfg.now.max_lag || (int_lt lag (pos 2 *ℤ gap) && int_lt lag cfg.now.idle_period)) }
{
    is_idle(lag, gap, cfg.ticker_max_lag(), cfg.ticker_idle_period())
}

/// Whether a tick is due without new events: at twice the gap between the last two ticks or at the idle period,
/// whichever comes first, but never before half of `max_lag`. So an idle queue gets ticks less and less often, down to
/// one in each idle period.
fn is_idle(lag: i64, gap: i64, max_lag: i64, idle_period: i64) -> bool
    requires lag { IsSpan lag }
    requires gap { IsSpan gap }
    ensures { result ≡ not (int_lt (pos 2 *ℤ lag) max_lag || (int_lt lag (pos 2 *ℤ gap) && int_lt lag idle_period)) }
{
    let is_early = twice(lag) < max_lag;
    let is_steady = lag < twice(gap);
    !(is_early || (is_steady && lag < idle_period))
}

fn twice(span: i64) -> i64
    requires { IsSpan span }
    ensures { result ≡ pos 2 *ℤ span }
{
    2 * span
}

fn time_between(earlier: i64, later: i64) -> i64
    requires earlier { IsTime earlier }
    requires later { IsTime later }
    ensures time { result ≡ later -ℤ earlier }
    ensures span { IsSpan result }
{
    later - earlier
}
