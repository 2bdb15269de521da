ghost use Rattle.std.specs.Prelude.{◌≡◌, option_copied};
ghost use Rattle.sky_model.specs.Queues.{seq_at};

use pgq_queue::Span;
use pgq_tick::Tick;
use sky_val::Text;

/// Where an active batch is: its queue's number and its consumer, whose subscription has it.
#[derive(Drop)]
pub(crate) struct Place {
    pub queue: usize,
    pub consumer: Text,
}

/// An active batch as it is read: its id, its queue's number, its consumer and subscription, and the ids of its opening
/// and closing tick.
#[derive(Drop)]
pub struct Batch<'a> {
    pub id: u64,
    pub queue: usize,
    pub consumer: &'a Text,
    pub sub: u64,
    pub prev: u64,
    pub cur: u64,
}

impl Batch<'_> {
    /// What decides which events it has.
    pub fn span(&self) -> Span
        ensures { result ≡ record { queue = self.now.queue; sub = self.now.sub; prev = self.now.prev; cur = self.now.cur } }
    {
        Span {
            queue: self.queue,
            sub: self.sub,
            prev: self.prev,
            cur: self.cur,
        }
    }
}

/// The value of the sequence at a tick.
pub(crate) fn seq_at(tick: Option<&Tick>) -> u64
    ensures { result ≡ seq_at (option_copied tick.entry) }
{
    match tick {
        Some(tick) => tick.seq,
        None => 0,
    }
}
