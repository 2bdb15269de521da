ghost use Rattle.std.specs.Prelude.{◌≡◌, ℕ, List, [], ◌++◌, ◌+◌, ◌≤◌, true, false, IfOk, IfErr, None, MatchOption, OnOk, IfSome, IfNone, IsErrOf, IsUtf8, length};
ghost use Rattle.sky_io.specs.Faults.{Rose};
ghost use Rattle.sky_model.specs.Transcript.{most_in_script};
ghost use Rattle.sky_lines.specs.Feeds.{has_feed};
ghost use Rattle.sky_lines.specs.Reader.{Reader, is_at_hand, TakesLine, CountsLine, TakesPending, EndsLines, StartsBad, Kept};

use crate::buffer::{Buffer, MOST_IN_LINE};
use sky_io::Source;
use sky_val::NoMemory;
use std::alloc::Global;
use std::marker::Model;
use thiserror::Error;

/// How many bytes a script may have.
const MOST_IN_SCRIPT: u64 = 1 << 32;

/// Why the next line can't be taken.
#[derive(Clone, Copy, Debug, PartialEq, Eq, Error)]
pub enum LineFault {
    #[error("the source failed")]
    Read,
    #[error("the line is too long")]
    TooLong,
    #[error("the last line has no line feed")]
    Truncated,
    #[error("the script is too long")]
    ScriptTooLong,
    #[error("out of memory")]
    NoMemory,
}

/// Takes the lines of a script from a source, one at a time.
#[derive(Drop)]
pub struct LineReader {
    buffer: Buffer,
    taken: u64,
    fault: Option<LineFault>,
    alloc: Global,
}

impl Model for LineReader {
    ghost use Rattle.std.specs.Prelude.{◌≤◌};
    ghost use Rattle.sky_model.specs.Transcript.{most_in_script};
    ghost use Rattle.sky_lines.specs.Reader.{Reader};

    ghost Value = { Reader };

    ghost view = { λ r. record { pending = r.buffer.pending; line = r.buffer.line; taken = r.taken; fault = r.fault } };

    ghost invariant = { λ r. r.taken ≤ most_in_script };
}

impl LineReader {
    /// A reader at the start of a script, with the memory that its reads need.
    pub fn new(alloc: Global) -> Result<LineReader, NoMemory>
        ensures { IfOk result (λ reader. reader ≡ record { pending = []; line = []; taken = 0; fault = None }) }
    {
        Ok(LineReader {
            buffer: Buffer::new(alloc)?,
            taken: 0,
            fault: None,
            alloc,
        })
    }

    /// Whether `advance` would answer without reading the source.
    pub fn is_at_hand(&self) -> bool
        ensures { result ≡ is_at_hand self.now }
    {
        self.fault.is_some() || self.buffer.is_settled()
    }

    /// The line that was taken last, without its line feed. It is shown in place, until the next `advance`; if that
    /// takes none, what is shown is left open.
    pub fn line(&self) -> &[u8]
        ensures { result.now ≡ self.now.line }
    {
        self.buffer.line()
    }

    /// The same as text, or `None` if it isn't UTF-8.
    pub fn text(&self) -> Option<&str>
        ensures { MatchOption result (¬ (IsUtf8 self.now.line)) (λ text. text.now ≡ self.now.line) }
    {
        self.buffer.text()
    }

    /// Takes the next line, which `line` shows from then on, or answers `false` at the end of the script.
    pub fn advance<S: Source>(&mut self, src: &mut S) -> Result<bool, LineFault>
        ensures line { result ≡ Ok true → (left : List ℕ) → S.left src.old ≡ Some left
            → TakesLine self.old self.new left (S.left src.new) self.new.line }
        ensures end { result ≡ Ok false → (left : List ℕ) → S.left src.old ≡ Some left
            → EndsLines self.old self.new left (S.left src.new) }
        ensures bad { IfErr result (λ fault.
            (left : List ℕ) → S.left src.old ≡ Some left → self.old.fault ≡ None
            → StartsBad fault self.old.taken (self.old.pending ++ left)) }

        // A read that fails loses no byte.
        ensures read { IsErrOf result LineFault.Read →
            (left : List ℕ) → S.left src.old ≡ Some left → self.old.fault ≡ None
            → Kept self.old self.new left (S.left src.new) }
        ensures rose { IsErrOf result LineFault.Read → self.old.fault ≡ None
            → Rose (S.faults src.old) (S.faults src.new) }
        ensures never_falls { S.faults src.old ≤ S.faults src.new }
        ensures relied { IsErrOf result LineFault.Read → self.old.fault ≡ None → ¬ (S.reliable src.old) }
        ensures stays { S.reliable src.old → S.reliable src.new }

        // No memory is taken, so it can't run out.
        ensures takes_no_memory { self.old.fault ≡ None → ¬ (IsErrOf result LineFault.NoMemory) }

        // Once given, a fault is given at each later call.
        ensures kept { IfErr result (λ fault. self.new.fault ≡ Some fault) }
        ensures again { IfSome self.old.fault (λ fault.
            (result ≡ Err fault) × (self.new ≡ self.old) × (src.new ≡ src.old)) }

        // What holds of a source that shows nothing, too.
        ensures sound { OnOk result (self.new.fault ≡ None) }
        ensures at_hand { is_at_hand self.old ≡ true → src.new ≡ src.old }
        ensures counted { result ≡ Ok true → CountsLine self.old self.new self.new.line }
    {
        if let Some(fault) = self.fault {
            return Err(fault);
        }
        if self.buffer.gather(src).is_err() {
            return Err(self.give(LineFault::Read));
        }
        match self.answer() {
            Ok(found) => Ok(found),
            Err(fault) => Err(self.give(fault)),
        }
    }

    /// The next line, without its line feed, or `None` at the end of the script: a copy of what `advance` takes.
    ///
    /// If memory runs out for a line, it is left open which of its bytes are still pending.
    pub fn next_line<S: Source>(&mut self, src: &mut S) -> Result<Option<Vec<u8>>, LineFault>
        ensures line { IfOk result (λ answer. IfSome answer (λ line.
            (left : List ℕ) → S.left src.old ≡ Some left
            → TakesLine self.old self.new left (S.left src.new) line.items)) }
        ensures end { IfOk result (λ answer. IfNone answer (
            (left : List ℕ) → S.left src.old ≡ Some left
            → EndsLines self.old self.new left (S.left src.new))) }
        ensures bad { IfErr result (λ fault.
            (left : List ℕ) → S.left src.old ≡ Some left → self.old.fault ≡ None
            → StartsBad fault self.old.taken (self.old.pending ++ left)) }

        // A read that fails loses no byte.
        ensures read { IsErrOf result LineFault.Read →
            (left : List ℕ) → S.left src.old ≡ Some left → self.old.fault ≡ None
            → Kept self.old self.new left (S.left src.new) }
        ensures rose { IsErrOf result LineFault.Read → self.old.fault ≡ None
            → Rose (S.faults src.old) (S.faults src.new) }
        ensures never_falls { S.faults src.old ≤ S.faults src.new }
        ensures relied { IsErrOf result LineFault.Read → self.old.fault ≡ None → ¬ (S.reliable src.old) }
        ensures stays { S.reliable src.old → S.reliable src.new }

        // Once given, a fault is given at each later call.
        ensures kept { IfErr result (λ fault. self.new.fault ≡ Some fault) }
        ensures again { IfSome self.old.fault (λ fault.
            (result ≡ Err fault) × (self.new ≡ self.old) × (src.new ≡ src.old)) }

        // What holds of a source that shows nothing, too.
        ensures sound { OnOk result (self.new.fault ≡ None) }
        ensures at_hand { is_at_hand self.old ≡ true → src.new ≡ src.old }
        ensures counted { IfOk result (λ answer. IfSome answer (λ line.
            CountsLine self.old self.new line.items)) }
    {
        if !self.advance(src)? {
            return Ok(None);
        }
        match Vec::from_slice(self.alloc, self.line()) {
            Ok(line) => Ok(Some(line)),
            Err(_) => Err(self.give(LineFault::NoMemory)),
        }
    }

    // What the pending bytes answer, if they are settled or are the last of the script.
    fn answer(&mut self) -> Result<bool, LineFault>
        ensures line { result ≡ Ok true → TakesPending self.old self.new self.new.line }
        ensures end { result ≡ Ok false → (self.old.pending ≡ []) × (self.new ≡ self.old) }
        ensures bad { IfErr result (λ fault. StartsBad fault self.old.taken self.old.pending) }
        ensures reads_nothing { ¬ (IsErrOf result LineFault.Read) }
        ensures takes_no_memory { ¬ (IsErrOf result LineFault.NoMemory) }
    {
        let Some(len) = self.buffer.line_len() else {
            return self.answer_unended();
        };
        if len > MOST_IN_LINE {
            return Err(LineFault::TooLong);
        }
        let taken = self.taken + len as u64 + 1;
        if taken > MOST_IN_SCRIPT {
            return Err(LineFault::ScriptTooLong);
        }
        self.buffer.take_line(len);
        self.taken = taken;
        Ok(true)
    }

    // The same, if no line feed is pending.
    fn answer_unended(&self) -> Result<bool, LineFault>
        requires { has_feed self.now.pending ≡ false }
        ensures end { IfOk result (λ found. (found ≡ false) × (self.now.pending ≡ [])) }
        ensures bad { IfErr result (λ fault. StartsBad fault self.now.taken self.now.pending) }
        ensures reads_nothing { ¬ (IsErrOf result LineFault.Read) }
        ensures takes_no_memory { ¬ (IsErrOf result LineFault.NoMemory) }
    {
        match self.buffer.len() {
            0 => Ok(false),
            len if len > MOST_IN_LINE => Err(LineFault::TooLong),
            _ => Err(LineFault::Truncated),
        }
    }

    // Keeps the fault, so that it is given again.
    fn give(&mut self, fault: LineFault) -> LineFault
        ensures value { result ≡ fault }
        ensures kept { self.new ≡ record self.old { fault = Some fault } }
    {
        self.fault = Some(fault);
        fault
    }
}
