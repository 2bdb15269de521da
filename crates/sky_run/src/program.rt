ghost use Rattle.std.specs.Prelude.{◌≡◌, ℕ, List, Some, ◌⊎◌, false};
ghost use Rattle.std.specs.Io.KnownBytes.{Appends};
ghost use Rattle.sky_io.specs.Appends.{AppendsPrefix};
ghost use Rattle.sky_io.specs.Faults.{Rose};
ghost use Rattle.sky_model.specs.Transcript.{transcript};
ghost use Rattle.sky_model.specs.Transcript as spec;
ghost use Rattle.sky_program.specs.Statuses.{texts, Known, KnownIfRelied, PrintsWhole, TellsBadLine, PrintsGiven, complaint, due_status};

use pgq_db::Db;
use sky_io::{Sink, Source};
use sky_program::run_program;
use sky_session::RowDb;
use std::alloc::Global;

/// Runs the program: `words` are those after its name, the script comes from `src`, what it prints goes to `out` and a
/// complaint to `err`. Answers the exit status. The memory of the script's world is kept until the process ends.
pub fn run_main<S: Source, O: Sink, E: Sink>(
    alloc: Global,
    words: &Vec<String>,
    src: &mut S,
    out: &mut O,
    err: &mut E,
) -> u8
    ensures known { Known (spec.is_run (texts words.now.items)) result }

    // What each status says.
    ensures whole { result ≡ 0 → (bytes : List ℕ) → S.left src.old ≡ Some bytes → PrintsWhole (S.left src.new) (O.held out.old) (O.held out.new) bytes }
    ensures bad_line { result ≡ 2 → (bytes : List ℕ) → S.left src.old ≡ Some bytes
        → TellsBadLine (O.held out.old) (O.held out.new) (E.held err.old) (E.held err.new) bytes }
    ensures given { result ≡ 3 → (bytes : List ℕ) → S.left src.old ≡ Some bytes → PrintsGiven (S.left src.new) (O.held out.old) (O.held out.new) bytes }
    ensures read { result ≡ 3 → Rose (S.faults src.old) (S.faults src.new) }
    ensures write { result ≡ 4 → Rose (O.faults out.old) (O.faults out.new) ⊎ Rose (E.faults err.old) (E.faults err.new) }
    ensures usage { result ≡ 64 → Appends (E.held err.old) (E.held err.new) spec.usage }

    // What holds at every status.
    ensures prefix { (bytes : List ℕ) → S.left src.old ≡ Some bytes → AppendsPrefix (O.held out.old) (O.held out.new) (transcript bytes) }
    ensures complaint { (bytes : List ℕ) → S.left src.old ≡ Some bytes
        → AppendsPrefix (E.held err.old) (E.held err.new) (complaint (spec.is_run (texts words.now.items)) bytes) }
    ensures quiet { (result ≡ 0) ⊎ (result ≡ 3) → err.new ≡ err.old }
    ensures unread { spec.is_run (texts words.now.items) ≡ false → (src.new ≡ src.old) × (out.new ≡ out.old) × AppendsPrefix (E.held err.old) (E.held err.new) spec.usage }

    // Without a fault the words and the script decide, unless memory runs out.
    ensures due { (bytes : List ℕ) → S.left src.old ≡ Some bytes → ¬ (Rose (S.faults src.old) (S.faults src.new))
        → ¬ (Rose (O.faults out.old) (O.faults out.new)) → ¬ (Rose (E.faults err.old) (E.faults err.new))
        → (result ≡ 5) ⊎ (result ≡ due_status (spec.is_run (texts words.now.items)) bytes) }

    // A source and sinks that are reliable don't fail.
    ensures relied { S.reliable src.old → O.reliable out.old → E.reliable err.old → KnownIfRelied (spec.is_run (texts words.now.items)) result }
{
    run_program::<Db<RowDb>, S, O, E>(alloc, words, src, out, err)
}
