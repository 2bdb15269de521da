//! What the worker that copies a table has in hand from one move to the next.

ghost use Rattle.std.specs.Prelude.{◌≡◌, Some, option_map};
ghost use Rattle.sky_model.specs.Hands as model;
ghost use Rattle.londiste_copy.specs.Hands.{hand_of};

use londiste_batches::BatchHand;
use sky_val::Key;
use std::marker::Model;

/// What is in hand of a copy that runs: the number of the provider's hold, the tick at which its consumer registered,
/// and the last key that was copied.
#[derive(Drop)]
pub struct CopyHand {
    pub(crate) hold: u64,
    pub(crate) tick: u64,
    pub(crate) last: Option<Key>,
}

impl Model for CopyHand {
    ghost use Rattle.sky_model.specs.Hands.{CopyHand};

    ghost Value = { CopyHand };

    ghost view = { λ h. record { hold = h.hold; tick = h.tick; last = h.last } };
}

/// What the worker of a table has in hand.
#[derive(Drop)]
pub enum Hand {
    /// A copy that runs.
    Copy(CopyHand),
    /// A batch, once the table catches up.
    Batch(BatchHand),
}

impl Hand {
    /// The number of the provider's hold, if a copy is in hand.
    pub fn hold(&self) -> Option<u64>
        ensures { result ≡ option_map model.CopyHand.hold (model.copy_in (Some (hand_of self.now))) }
    {
        match self {
            Hand::Copy(copy) => Some(copy.hold),
            Hand::Batch(_) => None,
        }
    }
}

/// The copy in hand, if it is one.
pub(crate) fn copy_in(hand: Option<Hand>) -> Option<CopyHand>
    ensures { result ≡ model.copy_in (option_map hand_of hand) }
{
    match hand {
        Some(Hand::Copy(copy)) => Some(copy),
        _ => None,
    }
}

/// The batch in hand, if it is one.
pub(crate) fn batch_in(hand: &Option<Hand>) -> Option<BatchHand>
    ensures { result ≡ model.batch_in (option_map hand_of hand.now) }
{
    match hand {
        Some(Hand::Batch(batch)) => Some(*batch),
        _ => None,
    }
}

/// A copy is in hand, if there is one.
pub(crate) fn of_copy(copy: Option<CopyHand>) -> Option<Hand>
    ensures { option_map hand_of result ≡ option_map model.of_copy copy }
{
    let copy = copy?;
    Some(Hand::Copy(copy))
}

/// A batch is in hand, if there is one.
pub(crate) fn of_batch(batch: Option<BatchHand>) -> Option<Hand>
    ensures { option_map hand_of result ≡ option_map model.of_batch batch }
{
    let batch = batch?;
    Some(Hand::Batch(batch))
}
