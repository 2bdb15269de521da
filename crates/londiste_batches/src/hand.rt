//! A batch that a worker has in hand.

ghost use Rattle.std.specs.Prelude.{◌≡◌, false, true};

use sky_store::NodeBatch;
use std::marker::Model;

/// A batch in hand, and whether it is done, that is, applied or skipped.
#[derive(Clone, Copy, Debug)]
pub struct BatchHand {
    pub(crate) batch: NodeBatch,
    pub(crate) is_done: bool,
}

impl Model for BatchHand {
    ghost use Rattle.sky_model.specs.Hands.{BatchHand};

    ghost Value = { BatchHand };

    ghost view = { λ h. record { id = h.batch.id; prev = h.batch.prev; cur = h.batch.cur; is_done = h.is_done } };

    ghost inverse = { λ h. record { batch = record { id = h.id; prev = h.prev; cur = h.cur }; is_done = h.is_done } };
}

impl BatchHand {
    /// One that was just taken.
    pub(crate) fn new(batch: NodeBatch) -> BatchHand
        ensures { result ≡ record { id = batch.id; prev = batch.prev; cur = batch.cur; is_done = false } }
    {
        BatchHand {
            batch,
            is_done: false,
        }
    }

    /// The same batch, once it is applied or skipped.
    pub(crate) fn done(self) -> BatchHand
        ensures { result ≡ record self { is_done = true } }
    {
        BatchHand {
            batch: self.batch,
            is_done: true,
        }
    }
}
