ghost use Rattle.std.specs.Prelude.{ℕ, List, Option, ◌<◌, ◌≤◌, ◌^◌, OnErr, length};
ghost use Rattle.std.specs.Io.{ReadsAtMost};
ghost use Rattle.std.specs.Io.KnownBytes.{ReadConsumes};
ghost use Rattle.sky_io.specs.Faults.{Rose};

use thiserror::Error;

/// A read that failed.
#[derive(Clone, Copy, Debug, PartialEq, Eq, Error)]
#[error("the source failed")]
pub struct Failed;

/// Where bytes come from.
pub trait Source {
    // The bytes still to come, if they are shown.
    ghost left: { Self → Option (List ℕ) };

    // How often the source failed.
    ghost faults: { Self → ℕ };

    // No read fails, now or later.
    ghost reliable: { Self → Type 0 };

    /// Puts some of the bytes still to come at the front of `buf`, and answers how many. 0 is the
    /// end.
    fn read(&mut self, buf: &mut [u8]) -> Result<usize, Failed>
        requires { 0 < length buf.old }
        ensures at_most { ReadsAtMost result buf.new }
        ensures consumes { ReadConsumes (left self.old) (left self.new) result buf.new }
        ensures failed { OnErr result (Rose (faults self.old) (faults self.new)) }
        ensures never_falls { faults self.old ≤ faults self.new }
        ensures relied { OnErr result (¬ (reliable self.old)) }
        ensures stays { reliable self.old → reliable self.new };

    // A count of 64 bits. It stays at the largest, so `Rose` holds there too.
    ghost bounded: { (source : Self) → faults source < 2 ^ 64 };
}
