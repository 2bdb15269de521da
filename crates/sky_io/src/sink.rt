ghost use Rattle.std.specs.Prelude.{◌≡◌, ℕ, List, Option, [], ◌<◌, ◌≤◌, ◌^◌, IfOk, IsErrOf, IsOk, OnOk, length};
ghost use Rattle.std.specs.Io.{WritesAtMost};
ghost use Rattle.std.specs.Io.KnownBytes.{Appends, WriteAppends};
ghost use Rattle.sky_io.specs.Appends.{AppendsPrefix};
ghost use Rattle.sky_io.specs.Faults.{Rose};

use thiserror::Error;

/// Why a write took nothing.
#[derive(Clone, Copy, Debug, PartialEq, Eq, Error)]
pub enum SinkFault {
    #[error("the sink failed")]
    Failed,
    #[error("out of memory")]
    NoMemory,
}

/// Where bytes go.
pub trait Sink {
    // The bytes written, if they are shown.
    ghost held: { Self → Option (List ℕ) };

    // How often the sink failed.
    ghost faults: { Self → ℕ };

    // No write fails, now or later. It may still run out of memory.
    ghost reliable: { Self → Type 0 };

    /// Appends the front of `piece` to what the sink holds, and answers how many bytes that is.
    fn write(&mut self, piece: &[u8]) -> Result<usize, SinkFault>
        requires { 0 < length piece.now }
        ensures at_least { IfOk result (λ count. 1 ≤ count) }
        ensures at_most { WritesAtMost result piece.now }
        ensures appends { WriteAppends (held self.old) (held self.new) result piece.now }
        ensures failed { IsErrOf result SinkFault.Failed → Rose (faults self.old) (faults self.new) }
        ensures never_falls { faults self.old ≤ faults self.new }
        ensures relied { IsErrOf result SinkFault.Failed → ¬ (reliable self.old) }
        ensures stays { reliable self.old → reliable self.new };

    // A count of 64 bits. It stays at the largest, so `Rose` holds there too.
    ghost bounded: { (sink : Self) → faults sink < 2 ^ 64 };
}

/// Writes the whole piece, in as many writes as the sink needs. Stops at the first fault.
pub fn write_all<S: Sink>(sink: &mut S, piece: &[u8]) -> Result<(), SinkFault>
    ensures ok { OnOk result (Appends (S.held sink.old) (S.held sink.new) piece.now) }
    ensures prefix { AppendsPrefix (S.held sink.old) (S.held sink.new) piece.now }
    ensures failed { IsErrOf result SinkFault.Failed → Rose (S.faults sink.old) (S.faults sink.new) }
    ensures never_falls { S.faults sink.old ≤ S.faults sink.new }
    ensures relied { IsErrOf result SinkFault.Failed → ¬ (S.reliable sink.old) }
    ensures stays { S.reliable sink.old → S.reliable sink.new }
    ensures empty { piece.now ≡ [] → IsOk result × (sink.new ≡ sink.old) }
{
    let mut written = 0;
    while written < piece.len() {
        written += sink.write(&piece[written..])?;
    }
    Ok(())
}
