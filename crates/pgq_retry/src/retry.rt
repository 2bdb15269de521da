ghost use Rattle.std.specs.Prelude.{◌≡◌, IfOk};

use sky_val::{Event, NoMemory};
use std::alloc::Global;

/// An event that waits: the queue that it comes from, the one subscription that it is for, and the
/// moment from which on it is due.
#[derive(Debug, Drop)]
pub struct Retry {
    pub queue: usize,
    pub sub: u64,
    pub due: i64,
    pub event: Event,
}

impl Retry {
    /// An equal one.
    pub fn copy(&self, alloc: Global) -> Result<Retry, NoMemory>
        ensures { IfOk result (λ waiting. waiting ≡ self.now) }
    {
        Ok(Retry {
            queue: self.queue,
            sub: self.sub,
            due: self.due,
            event: self.event.copy(alloc)?,
        })
    }
}
