ghost use Rattle.std.specs.Prelude.{◌≡◌, [], ◌∷◌, ◌++◌, true, false, OnOk, OnErr};
ghost use Rattle.sky_row_store.specs.Effects.{with_effects};
ghost use Rattle.sky_row_store.specs.Gives.{nothing};

use crate::effect::Effects;
use sky_model::{Replies, Reply};
use sky_val::{NoMemory, SessionId};
use std::alloc::Global;

/// What statements answer, and what they did.
#[derive(Debug, Drop)]
pub struct RowStep {
    /// A statement's own answer first, then those of the statements that it unblocked.
    pub replies: Replies,
    pub effects: Effects,
}

impl RowStep {
    /// Nothing yet, for all effects. It takes no memory.
    pub fn whole(alloc: Global) -> RowStep
        ensures { result ≡ nothing true }
    {
        RowStep {
            replies: Replies::new(alloc),
            effects: Effects::whole(alloc),
        }
    }

    /// Nothing yet, for those effects alone that are ends of transactions. It takes no memory.
    pub fn ends(alloc: Global) -> RowStep
        ensures { result ≡ nothing false }
    {
        RowStep {
            replies: Replies::new(alloc),
            effects: Effects::ends(alloc),
        }
    }

    /// Appends an answer; no effect comes with it.
    pub fn answer(&mut self, who: SessionId, reply: Reply) -> Result<(), NoMemory>
        ensures replied { OnOk result (self.new.replies ≡ self.old.replies ++ (who, reply) ∷ []) }
        ensures same { OnOk result (self.new.effects ≡ self.old.effects) }
        ensures told { OnOk result (self.new.effects ≡ with_effects self.old.effects []) }
        ensures err { OnErr result (self.new ≡ self.old) }
    {
        self.replies.push(who, reply)?;
        Ok(())
    }
}
