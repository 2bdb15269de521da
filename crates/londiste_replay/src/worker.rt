//! The worker of a leaf, and what it has in hand from one move to the next.

ghost use Rattle.std.specs.Prelude.{◌≡◌, [], true, None, Some, IfOk, IfErr, is_some, option_copied};
ghost use Rattle.londiste_state.specs.Nodes as nodes;
ghost use Rattle.londiste_state.specs.Nodes.{of_leaf};
ghost use Rattle.sky_model.specs.Nodes.{is_leaf};
ghost use Rattle.sky_model.specs.BatchMoves.{takes_next};
ghost use Rattle.sky_model.specs.DatabaseSteps.{IsMade};
ghost use Rattle.sky_model.specs.ReplayMoves.{empty_handed_move, replay_move, replayer};
ghost use Rattle.sky_model.specs.StepNode.{set_queue};
ghost use Rattle.londiste_batches.specs.Moved.{MovesBy, MoveRefused};

use crate::tables::{first_in, is_handed_over, is_met, next_to_copy};
use londiste_batches::{BatchHand, add_reply, go_through, move_table, take_next};
use londiste_calls::WorkerFault;
use londiste_state::{Leaf, Node, TableState};
use sky_model::Reply;
use sky_store::{Pick, Store};
use std::alloc::Global;
use std::marker::Model;

/// The worker of a leaf.
#[derive(Drop)]
pub struct ReplayWorker {
    alloc: Global,
    hand: Option<BatchHand>,
}

impl Model for ReplayWorker {
    ghost use Rattle.std.specs.Prelude.{Option};
    ghost use Rattle.sky_model.specs.Hands.{BatchHand};

    ghost Value = { Option BatchHand };

    ghost view = { λ w. w.hand };
}

impl ReplayWorker {
    /// One that has nothing in hand.
    pub fn new(alloc: Global) -> ReplayWorker
        ensures { result ≡ None }
    {
        ReplayWorker::with_hand(alloc, None)
    }

    /// One that has this in hand.
    pub fn with_hand(alloc: Global, hand: Option<BatchHand>) -> ReplayWorker
        ensures { result ≡ hand }
    {
        ReplayWorker { alloc, hand }
    }

    /// What it has in hand.
    pub fn into_hand(self) -> Option<BatchHand>
        ensures { result ≡ self }
    {
        self.hand
    }

    /// One move, and what it prints. On a fault nothing has changed, unless memory ran out.
    pub fn step<D: Store>(
        &mut self,
        provider: &mut D,
        replica: &mut D,
    ) -> Result<Vec<Reply>, WorkerFault>
        ghost leaf: { nodes.Leaf }
        requires replica_made { IsMade (D.seen replica.old) }
        requires root { is_some (set_queue (D.seen provider.old)) ≡ true }
        requires leaf { (D.seen replica.old).node ≡ Some (of_leaf leaf) }
        ensures moves { IfOk result (λ replies. MovesBy (replay_move (D.seen provider.old) (D.seen replica.old) leaf self.old)
            (D.seen provider.old) (D.seen provider.new) (D.seen replica.old) (D.seen replica.new) replies.items self.new) }
        ensures fault { IfErr result (λ fault. MoveRefused fault (replay_move (D.seen provider.old) (D.seen replica.old) leaf self.old)
            (D.seen provider.old) (D.seen provider.new) (D.seen replica.old) (D.seen replica.new) self.old self.new) }
    {
        let mut replies = Vec::new(self.alloc);
        let Some(hand) = self.hand else {
            self.hand = self.step_empty_handed(provider, replica, &mut replies)?;
            return Ok(replies);
        };
        let tick = leaf_in(replica.node()).tick();
        self.hand = go_through(provider, replica, tick, &Pick::Synced, hand, &mut replies)?;
        Ok(replies)
    }

    /// A move with nothing in hand: a table that is being handed over is waited for; one that the leaf has come up to is
    /// handed over, at the leaf's tick; the next copy is begun; or the next batch is taken.
    fn step_empty_handed<D: Store>(
        &self,
        provider: &mut D,
        replica: &mut D,
        replies: &mut Vec<Reply>,
    ) -> Result<Option<BatchHand>, WorkerFault>
        ghost leaf: { nodes.Leaf }
        requires replica_made { IsMade (D.seen replica.old) }
        requires root { is_some (set_queue (D.seen provider.old)) ≡ true }
        requires leaf { (D.seen replica.old).node ≡ Some (of_leaf leaf) }
        requires nothing { replies.old.items ≡ [] }
        ensures moves { IfOk result (λ now. MovesBy (empty_handed_move (D.seen provider.old) leaf)
            (D.seen provider.old) (D.seen provider.new) (D.seen replica.old) (D.seen replica.new) replies.new.items now) }
        ensures fault { IfErr result (λ fault. MoveRefused fault (empty_handed_move (D.seen provider.old) leaf)
            (D.seen provider.old) (D.seen provider.new) (D.seen replica.old) (D.seen replica.new) None None) }
    {
        let leaf = leaf_in(replica.node());
        if let Some(table) = first_in(leaf, is_handed_over) {
            add_reply(Reply::AwaitsTable(table.copy(self.alloc)?), replies)?;
            return Ok(None);
        }
        if let Some(table) = first_in(leaf, |state| is_met(leaf.tick(), state)) {
            let to = TableState::DoSync(leaf.tick());
            let table = table.copy(self.alloc)?;
            let number = replica.leaf_table(&table);
            move_table(replica, table, number, to, replies)?;
            return Ok(None);
        }
        if let Some(table) = next_to_copy(leaf) {
            let table = table.copy(self.alloc)?;
            let number = replica.leaf_table(&table);
            move_table(replica, table, number, TableState::InCopy, replies)?;
            return Ok(None);
        }
        take_leaf_batch(provider, replica, replies)
    }

    /// What the worker has in hand is lost: the batch comes again.
    pub fn restart(&mut self)
        ensures { self.new ≡ None }
    {
        self.hand = None;
    }
}

/// Takes the leaf's next batch in hand, if there is one.
fn take_leaf_batch<D: Store>(
    provider: &mut D,
    replica: &D,
    replies: &mut Vec<Reply>,
) -> Result<Option<BatchHand>, WorkerFault>
    ghost leaf: { nodes.Leaf }
    requires root { is_some (set_queue (D.seen provider.old)) ≡ true }
    requires leaf { (D.seen replica.now).node ≡ Some (of_leaf leaf) }
    requires nothing { replies.old.items ≡ [] }
    ensures moves { IfOk result (λ now. MovesBy (takes_next (D.seen provider.old) (replayer leaf))
        (D.seen provider.old) (D.seen provider.new) (D.seen replica.now) (D.seen replica.now) replies.new.items now) }
    ensures fault { IfErr result (λ fault. MoveRefused fault (takes_next (D.seen provider.old) (replayer leaf))
        (D.seen provider.old) (D.seen provider.new) (D.seen replica.now) (D.seen replica.now) None None) }
{
    let leaf = leaf_in(replica.node());
    take_next(provider, leaf.name(), replies)
}

/// The leaf that a node is.
fn leaf_in(node: Option<&Node>) -> &Leaf
    requires { is_leaf (option_copied node) ≡ true }
    ensures { option_copied node.entry ≡ Some (of_leaf result.now) }
{
    match node {
        Some(Node::Leaf(leaf)) => leaf,
        _ => unreachable!(),
    }
}
