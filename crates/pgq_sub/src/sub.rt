ghost use Rattle.std.specs.Prelude.{◌≡◌, Some, None};
ghost use Rattle.pgq_sub.specs.Views.{with_open, finished, at_tick};

use std::marker::Model;

/// An active batch of a subscription, which goes from the tick where that is to this one.
#[derive(Clone, Copy, Debug)]
pub struct OpenBatch {
    pub id: u64,
    pub cur: u64,
}

/// A subscription of a queue: its number, the tick where it is, and its active batch.
#[derive(Debug, Drop)]
pub struct Sub {
    id: u64,
    position: u64,
    active: Option<OpenBatch>,
}

impl Model for Sub {
    ghost use Rattle.pgq_sub.specs.Views.{SubView};

    ghost Value = { SubView };

    ghost view = { λ s. record { id = s.id; position = s.position; active = s.active } };
}

impl Sub {
    /// One that is at this tick, without a batch.
    pub(crate) fn new(id: u64, position: u64) -> Sub
        ensures { result ≡ record { id = id; position = position; active = None } }
    {
        Sub {
            id,
            position,
            active: None,
        }
    }

    /// A copy of it.
    pub fn copy(&self) -> Sub
        ensures { result ≡ self.now }
    {
        Sub {
            id: self.id,
            position: self.position,
            active: self.active,
        }
    }

    /// It has this batch from now on.
    pub(crate) fn open_batch(&mut self, batch: OpenBatch)
        ensures { self.new ≡ with_open batch self.old }
    {
        self.active = Some(batch);
    }

    /// It has finished its batch, if it has one, and is at its closing tick.
    pub(crate) fn finish(&mut self)
        ensures { self.new ≡ finished self.old }
    {
        if let Some(batch) = self.active {
            self.position = batch.cur;
            self.active = None;
        }
    }

    /// It is at this tick from now on, and has given up its batch, if it had one, which is the answer.
    pub(crate) fn move_to(&mut self, tick: u64) -> Option<OpenBatch>
        ensures moved { self.new ≡ at_tick tick self.old }
        ensures given_up { result ≡ self.old.active }
    {
        let given_up = self.active;
        self.position = tick;
        self.active = None;
        given_up
    }

    /// Its number among all subscriptions of the database.
    pub fn id(&self) -> u64
        ensures { result ≡ self.now.id }
    {
        self.id
    }

    /// The id of the tick where it is.
    pub fn position(&self) -> u64
        ensures { result ≡ self.now.position }
    {
        self.position
    }

    /// Its active batch.
    pub fn active(&self) -> Option<OpenBatch>
        ensures { result ≡ self.now.active }
    {
        self.active
    }
}
