ghost use Rattle.std.specs.Prelude.{◌≡◌, ℕ, List, Some, ◌⊎◌, false, IfOk, string_bytes};
ghost use Rattle.std.specs.Io.KnownBytes.{Appends};
ghost use Rattle.sky_io.specs.Appends.{AppendsPrefix};
ghost use Rattle.sky_io.specs.Faults.{Rose};
ghost use Rattle.sky_model.specs.Transcript.{transcript, bad_text};
ghost use Rattle.sky_model.specs.Transcript as spec;
ghost use Rattle.sky_program.specs.Statuses.{texts, Known, KnownIfRelied, PrintsWhole, TellsBadLine, PrintsGiven, complaint, due_status};
ghost use Rattle.sky_program.specs.Statuses as statuses;

use crate::words::is_run;
use sky_io::{Sink, SinkFault, Source, write_all};
use sky_loop::{End, run_lines};
use sky_model::Cause;
use sky_store::Store;
use std::alloc::{AllocError, Global};

/// The script ended, and all was written.
const WHOLE: u8 = 0;
/// A line is bad.
const BAD_LINE: u8 = 2;
/// The source failed.
const READ_FAULT: u8 = 3;
/// A sink failed.
const WRITE_FAULT: u8 = 4;
/// Memory ran out.
const NO_MEMORY: u8 = 5;
/// The words are none that the program knows.
const BAD_WORDS: u8 = 64;

const USAGE: &str = "usage: pgqrun run\n";

/// Runs the program over databases of the type `D`: `words` are those after its name, the script comes from `src`, what it
/// prints goes to `out` and a complaint to `err`. Answers the exit status. The memory of the script's world is kept until
/// the process ends.
pub fn run_program<D: Store, S: Source, O: Sink, E: Sink>(
    alloc: Global,
    words: &Vec<String>,
    src: &mut S,
    out: &mut O,
    err: &mut E,
) -> u8
    ensures known { Known (spec.is_run (texts words.now.items)) result }

    // What each status says.
    ensures whole { result ≡ 0 → (bytes : List ℕ) → S.left src.old ≡ Some bytes → PrintsWhole (S.left src.new) (O.held out.old) (O.held out.new) bytes }
    ensures bad_line { result ≡ 2 → (bytes : List ℕ) → S.left src.old ≡ Some bytes
        → TellsBadLine (O.held out.old) (O.held out.new) (E.held err.old) (E.held err.new) bytes }
    ensures given { result ≡ 3 → (bytes : List ℕ) → S.left src.old ≡ Some bytes → PrintsGiven (S.left src.new) (O.held out.old) (O.held out.new) bytes }
    ensures read { result ≡ 3 → Rose (S.faults src.old) (S.faults src.new) }
    ensures write { result ≡ 4 → Rose (O.faults out.old) (O.faults out.new) ⊎ Rose (E.faults err.old) (E.faults err.new) }
    ensures usage { result ≡ 64 → Appends (E.held err.old) (E.held err.new) spec.usage }

    // What holds at every status.
    ensures prefix { (bytes : List ℕ) → S.left src.old ≡ Some bytes → AppendsPrefix (O.held out.old) (O.held out.new) (transcript bytes) }
    ensures complaint { (bytes : List ℕ) → S.left src.old ≡ Some bytes
        → AppendsPrefix (E.held err.old) (E.held err.new) (complaint (spec.is_run (texts words.now.items)) bytes) }
    ensures quiet { (result ≡ 0) ⊎ (result ≡ 3) → err.new ≡ err.old }
    ensures unread { spec.is_run (texts words.now.items) ≡ false → (src.new ≡ src.old) × (out.new ≡ out.old) × AppendsPrefix (E.held err.old) (E.held err.new) spec.usage }

    // Without a fault the words and the script decide, unless memory runs out.
    ensures due { (bytes : List ℕ) → S.left src.old ≡ Some bytes → ¬ (Rose (S.faults src.old) (S.faults src.new))
        → ¬ (Rose (O.faults out.old) (O.faults out.new)) → ¬ (Rose (E.faults err.old) (E.faults err.new))
        → (result ≡ 5) ⊎ (result ≡ due_status (spec.is_run (texts words.now.items)) bytes) }

    // A source and sinks that are reliable don't fail.
    ensures relied { S.reliable src.old → O.reliable out.old → E.reliable err.old → KnownIfRelied (spec.is_run (texts words.now.items)) result }
{
    let Ok(known) = is_run(alloc, words) else {
        return NO_MEMORY;
    };
    if !known {
        return report_usage(err);
    }
    match run_lines::<D, S, O>(alloc, src, out) {
        End::Whole => WHOLE,
        End::Bad(line, cause) => report_bad_line(alloc, line, cause, err),
        End::Read => READ_FAULT,
        End::Write => WRITE_FAULT,
        End::NoMemory => NO_MEMORY,
    }
}

fn report_bad_line<E: Sink>(alloc: Global, line: u64, cause: Cause, err: &mut E) -> u8
    ensures known { (result ≡ 2) ⊎ (result ≡ 4) ⊎ (result ≡ 5) }
    ensures told { result ≡ 2 → Appends (E.held err.old) (E.held err.new) (bad_text (line, cause)) }
    ensures prefix { AppendsPrefix (E.held err.old) (E.held err.new) (bad_text (line, cause)) }
    ensures write { result ≡ 4 → Rose (E.faults err.old) (E.faults err.new) }
    ensures relied { result ≡ 4 → ¬ (E.reliable err.old) }
{
    let Ok(text) = bad_text(alloc, line, cause) else {
        return NO_MEMORY;
    };
    match write_all(err, text.as_bytes()) {
        Ok(()) => BAD_LINE,
        Err(fault) => fault_status(fault),
    }
}

// The message about a bad line.
fn bad_text(alloc: Global, line: u64, cause: Cause) -> Result<String, AllocError>
    ensures { IfOk result (λ text. string_bytes text ≡ bad_text (line, cause)) }
{
    match cause {
        Cause::TooLong => format!(in alloc; "line {line}: too long\n"),
        Cause::Truncated => format!(in alloc; "line {line}: truncated\n"),
        Cause::ScriptTooLong => format!(in alloc; "line {line}: script too long\n"),
        Cause::NotUtf8 => format!(in alloc; "line {line}: not UTF-8\n"),
        Cause::BadWord(word) => format!(in alloc; "line {line}: bad word {word}\n"),
    }
}

fn report_usage<E: Sink>(err: &mut E) -> u8
    ensures known { Known false result }
    ensures usage { result ≡ 64 → Appends (E.held err.old) (E.held err.new) spec.usage }
    ensures prefix { AppendsPrefix (E.held err.old) (E.held err.new) spec.usage }
    ensures write { result ≡ 4 → Rose (E.faults err.old) (E.faults err.new) }
    ensures relied { result ≡ 4 → ¬ (E.reliable err.old) }
{
    match write_all(err, USAGE.as_bytes()) {
        Ok(()) => BAD_WORDS,
        Err(fault) => fault_status(fault),
    }
}

fn fault_status(fault: SinkFault) -> u8
    ensures { result ≡ statuses.fault_status fault }
{
    match fault {
        SinkFault::Failed => WRITE_FAULT,
        SinkFault::NoMemory => NO_MEMORY,
    }
}
