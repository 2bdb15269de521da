ghost use Rattle.std.specs.Prelude.{◌≡◌, ℕ, List, Option, Some, None, Ok, Err, [], ◌∷◌, ◌++◌, ◌+◌, ◌<◌, ◌≤◌, IfOk, IfErr, IsErrOf, OnOk, OnErr, length, true, false, not};
ghost use Rattle.std.specs.Io.KnownBytes.{Appends};
ghost use Rattle.sky_io.specs.Appends.{AppendsPrefix};
ghost use Rattle.sky_io.specs.Faults.{Rose};
ghost use Rattle.sky_model.specs.Kinds.{is_name};
ghost use Rattle.sky_model.specs.InForm.{IsInForm, IsLineInForm};
ghost use Rattle.sky_model.specs.Transcript.{said_by, most_in_script};
ghost use Rattle.sky_model.specs.World.{world_of};
ghost use Rattle.sky_lines.specs.Reader.{is_at_hand};
ghost use Rattle.sky_world.specs.Seen.{seen_world};
ghost use Rattle.sky_loop.specs.Running.{Answers, Called, said_in};
ghost use Rattle.sky_loop.specs.Goes.{IsFresh, Counts, Goes, SameButGathered};
ghost use Rattle.sky_loop.specs.Ends.{Ends, IsBadLine, IsCut, end_of, end_by};

use crate::calls::answer_text;
use crate::end::End;
use sky_io::{Sink, SinkFault, Source, write_all};
use sky_lines::{LineFault, LineReader};
use sky_model::{Cause, Replies};
use sky_script::LineCause;
use sky_store::Store;
use sky_val::NoMemory;
use sky_world::World;
use std::alloc::Global;
use std::mem;

/// If more bytes than this are gathered after a line, all that are gathered are written.
const MOST_GATHERED: usize = 65_536;

/// Runs the script that the source gives over databases of the type `D`, and writes what it answers, until the script
/// ends, a line is bad, the source or the sink fails, or memory runs out. The memory of the script's world is kept until
/// the process ends.
pub fn run_lines<D: Store, S: Source, O: Sink>(alloc: Global, src: &mut S, out: &mut O) -> End
    ensures ends { (bytes : List ℕ) → S.left src.old ≡ Some bytes → Ends result (S.left src.new) (O.held out.old) (O.held out.new) [] bytes }
    ensures read { result ≡ End.Read → Rose (S.faults src.old) (S.faults src.new) }
    ensures write { result ≡ End.Write → Rose (O.faults out.old) (O.faults out.new) }
    ensures read_relied { result ≡ End.Read → ¬ (S.reliable src.old) }
    ensures write_relied { result ≡ End.Write → ¬ (O.reliable out.old) }
{
    match Run::<D>::new(alloc) {
        Ok(mut fresh) => {
            let end = fresh.finish(src, out);
            // Freeing each version takes long; the process frees all memory at once as it ends.
            mem::forget(fresh);
            end
        }
        Err(_) => End::NoMemory,
    }
}

// A script that is running.
#[derive(Drop)]
struct Run<D: Store> {
    alloc: Global,
    world: World<D>,
    reader: LineReader,
    // The answers of the last statement, whose memory the next ones reuse.
    replies: Replies,
    // What was answered and is still to be written.
    gathered: Vec<u8>,
    // The number of the next line.
    number: u64,
}

impl<D: Store> Run<D> {
    fn new(alloc: Global) -> Result<Run<D>, NoMemory>
        ensures { IfOk result (λ run. IsFresh D.seen run) }
    {
        // Before the world, which would have to be freed if there were no memory for it.
        let reader = LineReader::new(alloc)?;
        Ok(Run {
            alloc,
            world: World::new(alloc),
            reader,
            replies: Replies::new(alloc),
            gathered: Vec::new(alloc),
            number: 1,
        })
    }

    // Runs line after line.
    fn finish<S: Source, O: Sink>(&mut self, src: &mut S, out: &mut O) -> End
        requires { Counts self.old }
        ensures ends { (first : Option (List ℕ)) (bytes : List ℕ) → Goes D.seen self.old (S.left src.old) first (O.held out.old) bytes
            → Ends result (S.left src.new) first (O.held out.new) [] bytes }
        ensures read { result ≡ End.Read → Rose (S.faults src.old) (S.faults src.new) }
        ensures write { result ≡ End.Write → Rose (O.faults out.old) (O.faults out.new) }
        ensures read_relied { result ≡ End.Read → ¬ (S.reliable src.old) }
        ensures write_relied { result ≡ End.Write → ¬ (O.reliable out.old) }
    {
        'lines: loop {
            if let Err(end) = self.turn(src, out) {
                return end;
            }
        }
    }

    // Runs one line. What was answered is written before the source is read again, so that at a terminal
    // each answer comes before the wait for the next line.
    fn turn<S: Source, O: Sink>(&mut self, src: &mut S, out: &mut O) -> Result<(), End>
        requires { Counts self.old }
        ensures goes { OnOk result ((first : Option (List ℕ)) (bytes : List ℕ) → Goes D.seen self.old (S.left src.old) first (O.held out.old) bytes
            → Goes D.seen self.new (S.left src.new) first (O.held out.new) bytes) }
        ensures counts { OnOk result (Counts self.new) }
        ensures nearer { OnOk result ((self.old.reader.taken < self.new.reader.taken) × (self.new.reader.taken ≤ most_in_script)) }
        ensures ends { IfErr result (λ end. (first : Option (List ℕ)) (bytes : List ℕ) → Goes D.seen self.old (S.left src.old) first (O.held out.old) bytes
            → Ends end (S.left src.new) first (O.held out.new) [] bytes) }
        ensures read { IsErrOf result End.Read → Rose (S.faults src.old) (S.faults src.new) }
        ensures write { IsErrOf result End.Write → Rose (O.faults out.old) (O.faults out.new) }
        ensures src_never_falls { S.faults src.old ≤ S.faults src.new }
        ensures out_never_falls { O.faults out.old ≤ O.faults out.new }
        ensures read_relied { IsErrOf result End.Read → ¬ (S.reliable src.old) }
        ensures write_relied { IsErrOf result End.Write → ¬ (O.reliable out.old) }
        ensures src_stays { S.reliable src.old → S.reliable src.new }
        ensures out_stays { O.reliable out.old → O.reliable out.new }
    {
        self.write_where(self.reads(), out)?;
        match self.line(src) {
            Ok(()) => self.write_where(self.has_many(), out),
            Err(end) => {
                self.write(out)?;
                Err(end)
            }
        }
    }

    // Whether the next line needs more of the source.
    fn reads(&self) -> bool
        ensures { result ≡ not (is_at_hand self.now.reader) }
    {
        !self.reader.is_at_hand()
    }

    // Whether enough is gathered to be written now.
    fn has_many(&self) -> bool {
        self.gathered.len() > MOST_GATHERED
    }

    // Takes the next line and answers it. The source may be read only if nothing is still to be written.
    fn line<S: Source>(&mut self, src: &mut S) -> Result<(), End>
        requires counts { Counts self.old }
        requires written { is_at_hand self.old.reader ≡ false → self.old.gathered.items ≡ [] }
        ensures goes { OnOk result ((first held : Option (List ℕ)) (bytes : List ℕ) → Goes D.seen self.old (S.left src.old) first held bytes
            → Goes D.seen self.new (S.left src.new) first held bytes) }
        ensures counts { OnOk result (Counts self.new) }
        ensures nearer { OnOk result ((self.old.reader.taken < self.new.reader.taken) × (self.new.reader.taken ≤ most_in_script)) }
        ensures ends { IfErr result (λ end. (first held : Option (List ℕ)) (bytes : List ℕ) → Goes D.seen self.old (S.left src.old) first held bytes
            → Ends end (S.left src.new) first held self.new.gathered.items bytes) }
        ensures read { IsErrOf result End.Read → Rose (S.faults src.old) (S.faults src.new) }
        ensures never_writes { ¬ (IsErrOf result End.Write) }
        ensures never_falls { S.faults src.old ≤ S.faults src.new }
        ensures relied { IsErrOf result End.Read → ¬ (S.reliable src.old) }
        ensures stays { S.reliable src.old → S.reliable src.new }
    {
        match self.reader.advance(src) {
            Ok(true) => self.answer(),
            Ok(false) => Err(End::Whole),
            Err(fault) => Err(self.end_of(fault)),
        }
    }

    // Answers the line that was taken, which is parsed without being copied, and counts it.
    fn answer(&mut self) -> Result<(), End>
        requires { self.old.number ≤ most_in_script }
        ensures answers { OnOk result (Answers (said_in self.old.reader.line) (seen_world D.seen self.old.world) (seen_world D.seen self.new.world) self.old.gathered.items self.new.gathered.items) }
        ensures number { OnOk result (self.new.number ≡ self.old.number + 1) }
        ensures bad { IfErr result (λ end. IsBadLine end self.old.number (said_in self.old.reader.line)) }
        ensures err { OnErr result (self.new.gathered.items ≡ self.old.gathered.items) }
        ensures reader { self.new.reader ≡ self.old.reader }
    {
        let Some(line) = self.reader.text() else {
            return Err(End::Bad(self.number, Cause::NotUtf8));
        };
        match answer_text(
            self.alloc,
            line,
            &mut self.world,
            &mut self.replies,
            &mut self.gathered,
        ) {
            Ok(()) => {
                self.number += 1;
                Ok(())
            }
            Err(cause) => Err(self.end_by(cause)),
        }
    }

    // The end that a reader's fault makes.
    fn end_of(&self, fault: LineFault) -> End
        ensures { result ≡ end_of fault self.now.number }
    {
        match fault {
            LineFault::Read => End::Read,
            LineFault::TooLong => End::Bad(self.number, Cause::TooLong),
            LineFault::Truncated => End::Bad(self.number, Cause::Truncated),
            LineFault::ScriptTooLong => End::Bad(self.number, Cause::ScriptTooLong),
            LineFault::NoMemory => End::NoMemory,
        }
    }

    // The end that a line makes if it wasn't parsed.
    fn end_by(&self, cause: LineCause) -> End
        ensures { result ≡ end_by cause self.now.number }
    {
        match cause {
            LineCause::NotUtf8 => End::Bad(self.number, Cause::NotUtf8),
            LineCause::BadWord(word) => End::Bad(self.number, Cause::BadWord(word)),
            LineCause::NoMemory => End::NoMemory,
        }
    }

    // Writes what was answered, if `wanted`.
    fn write_where<O: Sink>(&mut self, wanted: bool, out: &mut O) -> Result<(), End>
        ensures goes { OnOk result ((source first : Option (List ℕ)) (bytes : List ℕ) → Goes D.seen self.old source first (O.held out.old) bytes
            → Goes D.seen self.new source first (O.held out.new) bytes) }
        ensures ends { IfErr result (λ end. (source after first : Option (List ℕ)) (bytes : List ℕ) → Goes D.seen self.old source first (O.held out.old) bytes
            → Ends end after first (O.held out.new) [] bytes) }
        ensures emptied { wanted ≡ true → OnOk result (self.new.gathered.items ≡ []) }
        ensures same { SameButGathered self.old self.new }
        ensures never_reads { ¬ (IsErrOf result End.Read) }
        ensures write { IsErrOf result End.Write → Rose (O.faults out.old) (O.faults out.new) }
        ensures never_falls { O.faults out.old ≤ O.faults out.new }
        ensures relied { IsErrOf result End.Write → ¬ (O.reliable out.old) }
        ensures stays { O.reliable out.old → O.reliable out.new }
    {
        if wanted { self.write(out) } else { Ok(()) }
    }

    // Writes what was answered. Nothing stays gathered, even if the sink fails.
    fn write<O: Sink>(&mut self, out: &mut O) -> Result<(), End>
        ensures ok { OnOk result (Appends (O.held out.old) (O.held out.new) self.old.gathered.items) }
        ensures prefix { AppendsPrefix (O.held out.old) (O.held out.new) self.old.gathered.items }
        ensures emptied { self.new.gathered.items ≡ [] }
        ensures same { SameButGathered self.old self.new }
        ensures cut { IfErr result (λ end. IsCut end) }
        ensures write { IsErrOf result End.Write → Rose (O.faults out.old) (O.faults out.new) }
        ensures never_falls { O.faults out.old ≤ O.faults out.new }
        ensures relied { IsErrOf result End.Write → ¬ (O.reliable out.old) }
        ensures stays { O.reliable out.old → O.reliable out.new }
    {
        let written = write_all(out, self.gathered.as_slice());
        self.gathered.clear();
        match written {
            Ok(()) => Ok(()),
            Err(SinkFault::Failed) => Err(End::Write),
            Err(SinkFault::NoMemory) => Err(End::NoMemory),
        }
    }
}
