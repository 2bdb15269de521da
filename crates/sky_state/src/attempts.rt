ghost use Rattle.std.specs.Prelude.{◌≡◌, ◌<◌, [], OnOk, OnErr, length};
ghost use Rattle.sky_model.specs.State.{changed_at};
ghost use Rattle.sky_model.specs.declared.stmt.Attempt.TheVariants.{Deletion};
ghost use Rattle.sky_state.specs.Seen.{attempt_of};

use sky_model::Attempt;
use sky_val::{NoMemory, SessionId};
use std::alloc::Global;
use std::marker::Model;
use std::mem;

/// What each session that waits attempts with its key, at its number. Those that don't wait, and those beyond the list,
/// have a deletion here.
#[derive(Debug, Drop)]
pub struct Attempts {
    items: Vec<Attempt>,
}

impl Model for Attempts {
    ghost use Rattle.std.specs.Prelude.{List};
    ghost use Rattle.sky_model.specs.declared.stmt.Attempt.{Attempt};

    ghost Value = { List Attempt };

    ghost view = { λ a. a.items.items };
}

impl Attempts {
    /// None waits.
    pub(crate) fn new(alloc: Global) -> Attempts
        ensures { result ≡ [] }
    {
        Attempts {
            items: Vec::new(alloc),
        }
    }

    /// Makes a place for the session.
    fn make_room(&mut self, who: SessionId) -> Result<(), NoMemory>
        ensures room { OnOk result (who < length self.new) }
        ensures same { attempt_of self.new ≡ attempt_of self.old }
    {
        while self.items.len() <= who as usize {
            self.items.push(Attempt::Deletion)?;
        }
        Ok(())
    }

    /// The session attempts this.
    pub(crate) fn set(&mut self, who: SessionId, attempt: Attempt) -> Result<(), NoMemory>
        ensures ok { OnOk result (attempt_of self.new ≡ changed_at who (λ _. attempt) (attempt_of self.old)) }
        ensures err { OnErr result (attempt_of self.new ≡ attempt_of self.old) }
    {
        self.make_room(who)?;
        self.items[who as usize] = attempt;
        Ok(())
    }

    /// What the session attempted; it no longer waits.
    pub(crate) fn take(&mut self, who: SessionId) -> Attempt
        ensures taken { result ≡ attempt_of self.old who }
        ensures left { attempt_of self.new ≡ changed_at who (λ _. Deletion) (attempt_of self.old) }
    {
        let who = who as usize;
        if who < self.items.len() {
            return mem::replace(&mut self.items[who], Attempt::Deletion);
        }
        Attempt::Deletion
    }
}
