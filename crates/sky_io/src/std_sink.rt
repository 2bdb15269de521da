ghost use Rattle.std.specs.Prelude.{◌≡◌, ◌<◌, ◌≤◌, IfErr, IfOk, IfSome, IsErrOf, None, OnErr, OnOk, length, take};
ghost use Rattle.std.specs.Io.{WritesAtMost};
ghost use Rattle.std.specs.Io.KnownBytes.{Appends};
ghost use Rattle.sky_io.specs.Faults.{Rose, count_of, raised};
ghost use Rattle.std.proofs.Common.{rules};

use crate::sink::{Sink, SinkFault};
use std::io::Write;
use std::marker::Model;

/// A sink over one of std's writers, flushed after each write. It is seen as the writer and the count of its faults,
/// and shows no bytes: a flush that fails comes after bytes that the writer took.
#[derive(Drop)]
pub struct StdSink<W> {
    writer: W,
    faults: u64,
}

impl<W> Model for StdSink<W> {
    ghost use Rattle.sky_io.specs.Writing.{Writing};

    ghost Value = { Writing W };

    ghost view = { λ s. record { writer = s.writer; faults = s.faults } };
}

impl<W: Write> StdSink<W> {
    /// A sink that writes to `writer`.
    pub fn new(writer: W) -> StdSink<W>
        ensures { result ≡ record { writer = writer; faults = 0 } }
    {
        StdSink { writer, faults: 0 }
    }
}

impl<W: Write> Sink for StdSink<W> {
    ghost held = { λ _. None };

    ghost faults = { λ sink. count_of sink.faults };

    // Nothing is promised of the system's calls.
    ghost reliable = { λ _. ⊥ };

    ghost bounded = { Prim.search rules };

    fn write(&mut self, piece: &[u8]) -> Result<usize, SinkFault>
        requires { 0 < length piece.now }
        ensures at_least { IfOk result (λ count. 1 ≤ count) }
        ensures at_most { WritesAtMost result piece.now }
        ensures failed { IsErrOf result SinkFault.Failed → Rose (count_of self.old.faults) (count_of self.new.faults) }
        ensures never_falls { count_of self.old.faults ≤ count_of self.new.faults }

        // What this sink promises beyond what every sink does.
        ensures written { IfOk result (λ count. Appends (W.contents self.old.writer) (W.contents self.new.writer) (take count piece.now)) }
        ensures ok { OnOk result (self.new.faults ≡ self.old.faults) }
        ensures err { OnErr result (self.new.faults ≡ raised self.old.faults) }
        ensures never_no_memory { IfErr result (λ fault. fault ≡ SinkFault.Failed) }
    {
        match write_through(&mut self.writer, piece) {
            Some(count) => Ok(count),
            None => {
                self.faults = self.faults.saturating_add(1);
                Err(SinkFault::Failed)
            }
        }
    }
}

// Writes and flushes. None if either failed, or the writer took nothing.
fn write_through<W: Write>(writer: &mut W, piece: &[u8]) -> Option<usize>
    ensures count { IfSome result (λ count. (1 ≤ count) × (count ≤ length piece.now)) }
    ensures written { IfSome result (λ count. Appends (W.contents writer.old) (W.contents writer.new) (take count piece.now)) }
{
    let count = writer.write(piece).ok()?;
    writer.flush().ok()?;
    if count == 0 { None } else { Some(count) }
}
