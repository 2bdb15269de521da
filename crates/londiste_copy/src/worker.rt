//! The worker that copies a table of a leaf.

ghost use Rattle.std.specs.Prelude.{◌≡◌, [], true, None, Some, IfOk, IfErr, OnOk, is_some, option_map};
ghost use Rattle.londiste_state.specs.declared.state.TableState.TheVariants as state;
ghost use Rattle.sky_model.specs.CopyMoves.{copy_move, gives_up_in};
ghost use Rattle.sky_model.specs.DatabaseSteps.{IsMade};
ghost use Rattle.sky_model.specs.StepNode.{set_queue, table_number};
ghost use Rattle.londiste_batches.specs.Moved.{MovesAs, MovesBy, MoveRefused};
ghost use Rattle.londiste_copy.specs.CatchingUp.{is_following, progress_of, the_table};
ghost use Rattle.londiste_copy.specs.Copying.{SameTable};
ghost use Rattle.londiste_copy.specs.Hands.{hand_of};

use crate::catching_up::follow;
use crate::copying::{continue_copy, give_up, let_go, start_copy};
use crate::hand::{Hand, batch_in, copy_in, of_batch, of_copy};
use crate::table::{CopiedTable, Progress, progress_of};
use londiste_batches::add_reply;
use londiste_calls::WorkerFault;
use londiste_state::TableState;
use sky_model::Reply;
use sky_store::Store;
use sky_val::Text;
use std::alloc::Global;
use std::marker::Model;

/// The worker that copies one table of a leaf.
#[derive(Drop)]
pub struct CopyWorker {
    alloc: Global,
    hand: Option<Hand>,
}

impl Model for CopyWorker {
    ghost use Rattle.std.specs.Prelude.{Option, option_map};
    ghost use Rattle.sky_model.specs.Hands as model;
    ghost use Rattle.londiste_copy.specs.Hands.{hand_of};

    ghost Value = { Option model.Hand };

    ghost view = { λ w. option_map hand_of w.hand };
}

impl CopyWorker {
    /// One that has nothing in hand.
    pub fn new(alloc: Global) -> CopyWorker
        ensures { result ≡ None }
    {
        CopyWorker::with_hand(alloc, None)
    }

    /// One that has this in hand.
    pub fn with_hand(alloc: Global, hand: Option<Hand>) -> CopyWorker
        ensures { result ≡ option_map hand_of hand }
    {
        CopyWorker { alloc, hand }
    }

    /// What it has in hand.
    pub fn into_hand(self) -> Option<Hand>
        ensures { option_map hand_of result ≡ self }
    {
        self.hand
    }

    /// One move, and what it prints. On a fault nothing has changed, unless memory ran out.
    pub fn step<D: Store>(
        &mut self,
        provider: &mut D,
        replica: &mut D,
        table: &CopiedTable,
    ) -> Result<Vec<Reply>, WorkerFault>
        requires provider_made { IsMade (D.seen provider.old) }
        requires replica_made { IsMade (D.seen replica.old) }
        requires root { is_some (set_queue (D.seen provider.old)) ≡ true }
        requires same { SameTable (D.seen provider.old) (D.seen replica.old) table.now.name.now table.now.from table.now.to }
        ensures moves { IfOk result (λ replies. MovesBy (copy_move (D.seen provider.old) (D.seen replica.old) table.now.name.now self.old)
            (D.seen provider.old) (D.seen provider.new) (D.seen replica.old) (D.seen replica.new) replies.items self.new) }
        ensures fault { IfErr result (λ fault. MoveRefused fault (copy_move (D.seen provider.old) (D.seen replica.old) table.now.name.now self.old)
            (D.seen provider.old) (D.seen provider.new) (D.seen replica.old) (D.seen replica.new) self.old self.new) }
    {
        let mut replies = Vec::new(self.alloc);
        self.step_into(provider, replica, table, &mut replies)?;
        Ok(replies)
    }

    /// The same, with the list for what it prints.
    fn step_into<D: Store>(
        &mut self,
        provider: &mut D,
        replica: &mut D,
        table: &CopiedTable,
        replies: &mut Vec<Reply>,
    ) -> Result<(), WorkerFault>
        requires provider_made { IsMade (D.seen provider.old) }
        requires replica_made { IsMade (D.seen replica.old) }
        requires root { is_some (set_queue (D.seen provider.old)) ≡ true }
        requires same { SameTable (D.seen provider.old) (D.seen replica.old) table.now.name.now table.now.from table.now.to }
        requires nothing { replies.old.items ≡ [] }
        ensures moves { OnOk result (MovesBy (copy_move (D.seen provider.old) (D.seen replica.old) table.now.name.now self.old)
            (D.seen provider.old) (D.seen provider.new) (D.seen replica.old) (D.seen replica.new) replies.new.items self.new) }
        ensures fault { IfErr result (λ fault. MoveRefused fault (copy_move (D.seen provider.old) (D.seen replica.old) table.now.name.now self.old)
            (D.seen provider.old) (D.seen provider.new) (D.seen replica.old) (D.seen replica.new) self.old self.new) }
    {
        let progress = progress_of(replica.node(), table.name);
        match progress.state {
            TableState::InCopy => self.step_copy(provider, replica, table, replies),
            TableState::CatchingUp | TableState::DoSync(_) => {
                self.step_batches(provider, replica, table, progress, replies)
            }
            TableState::Synced => {
                add_reply(Reply::Idle, replies)?;
                Ok(())
            }
            _ => {
                add_reply(Reply::AwaitsTable(table.name.copy(self.alloc)?), replies)?;
                Ok(())
            }
        }
    }

    /// A copy begins, unless one runs: then it goes on.
    fn step_copy<D: Store>(
        &mut self,
        provider: &mut D,
        replica: &mut D,
        table: &CopiedTable,
        replies: &mut Vec<Reply>,
    ) -> Result<(), WorkerFault>
        requires provider_made { IsMade (D.seen provider.old) }
        requires replica_made { IsMade (D.seen replica.old) }
        requires root { is_some (set_queue (D.seen provider.old)) ≡ true }
        requires state { (the_table table.now.name.now (D.seen replica.old).node).state ≡ state.InCopy }
        requires same { SameTable (D.seen provider.old) (D.seen replica.old) table.now.name.now table.now.from table.now.to }
        requires nothing { replies.old.items ≡ [] }
        ensures moves { OnOk result (MovesBy (copy_move (D.seen provider.old) (D.seen replica.old) table.now.name.now self.old)
            (D.seen provider.old) (D.seen provider.new) (D.seen replica.old) (D.seen replica.new) replies.new.items self.new) }
        ensures fault { IfErr result (λ fault. MoveRefused fault (copy_move (D.seen provider.old) (D.seen replica.old) table.now.name.now self.old)
            (D.seen provider.old) (D.seen provider.new) (D.seen replica.old) (D.seen replica.new) self.old self.new) }
    {
        if replica.copy_of(table.to).is_none() {
            let hand = start_copy(self.alloc, provider, replica, table, replies)?;
            self.hand = of_copy(hand);
            return Ok(());
        }
        let hand = copy_in(self.hand.take());
        let hand = continue_copy(self.alloc, provider, replica, table, hand, replies)?;
        self.hand = of_copy(hand);
        Ok(())
    }

    /// A table that was copied goes through batches. One that wasn't is waited for.
    fn step_batches<D: Store>(
        &mut self,
        provider: &mut D,
        replica: &mut D,
        table: &CopiedTable,
        progress: Progress,
        replies: &mut Vec<Reply>,
    ) -> Result<(), WorkerFault>
        requires replica_made { IsMade (D.seen replica.old) }
        requires root { is_some (set_queue (D.seen provider.old)) ≡ true }
        requires progress { progress ≡ progress_of (the_table table.now.name.now (D.seen replica.old).node) }
        requires state { is_following progress.state ≡ true }
        requires number { table_number (D.seen replica.old) table.now.name.now ≡ Some table.now.to }
        requires nothing { replies.old.items ≡ [] }
        ensures moves { OnOk result (MovesBy (copy_move (D.seen provider.old) (D.seen replica.old) table.now.name.now self.old)
            (D.seen provider.old) (D.seen provider.new) (D.seen replica.old) (D.seen replica.new) replies.new.items self.new) }
        ensures fault { IfErr result (λ fault. MoveRefused fault (copy_move (D.seen provider.old) (D.seen replica.old) table.now.name.now self.old)
            (D.seen provider.old) (D.seen provider.new) (D.seen replica.old) (D.seen replica.new) self.old self.new) }
    {
        if !progress.is_copied {
            add_reply(Reply::AwaitsTable(table.name.copy(self.alloc)?), replies)?;
            return Ok(());
        }
        let hand = batch_in(&self.hand);
        let hand = follow(
            self.alloc, provider, replica, table, progress, hand, replies,
        )?;
        self.hand = of_batch(hand);
        Ok(())
    }

    /// What the worker has in hand is lost: a copy that runs is given up, and its snapshot is held no longer.
    pub fn restart<D: Store>(&mut self, provider: &mut D, replica: &mut D, table: &Text)
        requires replica_made { IsMade (D.seen replica.old) }
        ensures { MovesAs (gives_up_in table.now self.old) (D.seen provider.old) (D.seen provider.new) (D.seen replica.old) (D.seen replica.new) [] self.new }
    {
        let_go(provider, copy_in(self.hand.take()));
        give_up(replica, table);
    }
}
