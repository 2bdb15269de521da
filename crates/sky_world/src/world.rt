ghost use Rattle.std.specs.Prelude.{◌≡◌, ◌↔◌, ◌≤◌, [], true, false, Err, IfOk, OnOk, OnErr, All, length};
ghost use Rattle.sky_model.specs.Kinds.{is_name};
ghost use Rattle.sky_model.specs.InForm.{IsInForm};
ghost use Rattle.sky_model.specs.Printed.{HaveMoments};
ghost use Rattle.sky_model.specs.World.{world_of};
ghost use Rattle.sky_model.specs.Steps.{Steps};
ghost use Rattle.sky_world.specs.Seen.{seen_world};
ghost use Rattle.sky_world.specs.Adds.{AddsCall};

use crate::state::State;
use sky_model::{Replies, Stmt};
use sky_store::Store;
use sky_val::Text;
use std::alloc::Global;
use std::marker::Model;
use thiserror::Error;

/// Why a statement isn't answered.
#[derive(Clone, Copy, Debug, PartialEq, Eq, Error)]
pub enum WorldFault {
    #[error("out of memory")]
    NoMemory,
    /// Memory ran out at an earlier call.
    #[error("memory ran out before")]
    Failed,
}

/// The sessions and databases of a script, and the clock. Its databases are all of the type `D`.
#[derive(Drop)]
pub struct World<D: Store> {
    alloc: Global,
    state: State<D>,
    // Whether memory ran out once. Then it isn't known who waits in a database, so no further statement is run.
    has_failed: bool,
}

impl<D: Store> Model for World<D> {
    ghost use Rattle.std.specs.Prelude.{◌≡◌, false};
    ghost use Rattle.sky_world.specs.Views.{WorldView};
    ghost use Rattle.sky_world.specs.Whole.{IsWhole};

    ghost Value = { WorldView D };

    ghost view = { λ w. record { state = w.state; has_failed = w.has_failed } };

    ghost invariant = { λ w. w.has_failed ≡ false → IsWhole D.seen w.state };
}

impl<D: Store> World<D> {
    /// A world in which nothing has happened.
    pub fn new(alloc: Global) -> World<D>
        ensures new { seen_world D.seen result ≡ world_of [] }
        ensures sound { result.has_failed ≡ false }
    {
        World {
            alloc,
            state: State::new(alloc),
            has_failed: false,
        }
    }

    /// The names of the sessions, in the order of their first lines: a session's number is its place.
    pub fn session_names(&self) -> &[Text]
        ensures { result.now ≡ (seen_world D.seen self.now).sessions }
    {
        self.state.session_names()
    }

    /// The present moment of the clock, in microseconds since its start.
    pub fn now(&self) -> i64
        ensures { result ≡ (seen_world D.seen self.now).now }
    {
        self.state.now()
    }

    /// Runs a statement of the session of this name, and answers it and those that it unblocks. Once memory has run out
    /// nothing is said of the world but that it has failed, and each later call answers `Failed`.
    pub fn step(&mut self, name: &Text, stmt: &Stmt) -> Result<Replies, WorldFault>
        requires name { is_name name.now ≡ true }
        requires form { IsInForm stmt.now }
        ensures steps { IfOk result (λ replies. Steps (seen_world D.seen self.old) (seen_world D.seen self.new) (record { who = name.now; stmt = stmt.now }) replies) }
        ensures numbered { IfOk result (λ replies. All (λ answer. answer.0 ≤ length (seen_world D.seen self.new).sessions) replies) }
        ensures times { IfOk result (λ replies. HaveMoments replies) }
        ensures failed { (result ≡ Err WorldFault.Failed) ↔ (self.old.has_failed ≡ true) }
        ensures sound { OnOk result (self.new.has_failed ≡ false) }
        ensures fails { OnErr result (self.new.has_failed ≡ true) }
    {
        let mut replies = Replies::new(self.alloc);
        self.step_into(name.as_str(), stmt, &mut replies)?;
        Ok(replies)
    }

    /// The same; the answers are added to those that were given before.
    pub fn step_into(
        &mut self,
        name: &str,
        stmt: &Stmt,
        replies: &mut Replies,
    ) -> Result<(), WorldFault>
        requires name { is_name name.now ≡ true }
        requires form { IsInForm stmt.now }
        ensures adds { OnOk result (AddsCall (seen_world D.seen self.old) (seen_world D.seen self.new) (record { who = name.now; stmt = stmt.now }) replies.old replies.new) }
        ensures failed { (result ≡ Err WorldFault.Failed) ↔ (self.old.has_failed ≡ true) }
        ensures sound { OnOk result (self.new.has_failed ≡ false) }
        ensures fails { OnErr result (self.new.has_failed ≡ true) }
    {
        if self.has_failed {
            return Err(WorldFault::Failed);
        }
        match self.state.answer(name, stmt, replies) {
            Ok(()) => Ok(()),
            Err(_) => {
                self.has_failed = true;
                Err(WorldFault::NoMemory)
            }
        }
    }
}
