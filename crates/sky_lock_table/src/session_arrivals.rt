ghost use Rattle.std.specs.Prelude.{◌≡◌, ◌<◌, ℕ, length, vec_len, None, Some, OnOk, OnErr};
ghost use Rattle.sky_lock_table.specs.Sessions.{arrival_of, KeepsArrivalsOf, ChangesArrivalOf};

use sky_val::{NoMemory, SessionId};
use std::alloc::Global;

/// The arrival of each session that waits.
#[derive(Debug, Drop)]
pub(crate) struct SessionArrivals {
    // By session number. Sessions without a place don't wait.
    numbers: Vec<Option<usize>>,
}

impl SessionArrivals {
    /// Nobody waits.
    pub(crate) fn new(alloc: Global) -> SessionArrivals
        ensures { (s : ℕ) → arrival_of result.numbers.items s ≡ None }
    {
        SessionArrivals {
            numbers: Vec::new(alloc),
        }
    }

    /// The session's arrival, if it waits.
    pub(crate) fn get(&self, who: SessionId) -> Option<usize>
        ensures { result ≡ arrival_of self.now.numbers.items who }
    {
        match self.numbers.get(who as usize) {
            Some(arrival) => *arrival,
            None => None,
        }
    }

    /// Makes a place for the session.
    pub(crate) fn make_room(&mut self, who: SessionId) -> Result<(), NoMemory>
        ensures room { OnOk result (who < vec_len self.new.numbers) }
        ensures same { KeepsArrivalsOf self.old.numbers.items self.new.numbers.items }
    {
        while self.numbers.len() <= who as usize {
            self.numbers.push(None)?;
        }
        Ok(())
    }

    /// The session, which has a place, waits since this arrival.
    pub(crate) fn set(&mut self, who: SessionId, arrival: usize)
        requires { who < length self.old.numbers.items }
        ensures set { ChangesArrivalOf self.old.numbers.items who (Some arrival) self.new.numbers.items }
        ensures places { length self.new.numbers.items ≡ length self.old.numbers.items }
    {
        self.numbers[who as usize] = Some(arrival);
    }

    /// The session waits no more. The answer is its arrival, if it waited.
    pub(crate) fn take(&mut self, who: SessionId) -> Option<usize>
        ensures value { result ≡ arrival_of self.old.numbers.items who }
        ensures updates { ChangesArrivalOf self.old.numbers.items who None self.new.numbers.items }
    {
        let who = who as usize;
        if who >= self.numbers.len() {
            return None;
        }
        self.numbers[who].take()
    }
}
