//! The moves of a copy that runs: it begins, and goes on with the next rows under the snapshot that is held for it, up to
//! its end.

ghost use Rattle.std.specs.Prelude.{◌≡◌, [], ◌∷◌, true, None, IfOk, IfErr, IfSome, is_some, option_copied};
ghost use Rattle.sky_model.specs.Copies.{copy_txid};
ghost use Rattle.sky_model.specs.CopyMoves.{copy_consumer, continues, held_snapshot, lets_go_for, next_piece, starts_copy, under_way};
ghost use Rattle.sky_model.specs.DatabaseSteps.{IsMade};
ghost use Rattle.sky_model.specs.StepNode.{set_queue, may_copy, giving_up_copy};
ghost use Rattle.londiste_batches.specs.Moved.{ServesAll, MovesAs, MovesBy, MoveRefused};
ghost use Rattle.londiste_copy.specs.Copying.{Begun, SameTable, last_row_key};

use crate::hand::CopyHand;
use crate::table::{CopiedTable, progress_of};
use londiste_batches::add_reply;
use londiste_calls::WorkerFault;
use londiste_state::{Node, TableState};
use sky_model::Reply;
use sky_store::{JoinFault, Store};
use sky_val::{Key, NoMemory, Row, Schema, Text};
use std::alloc::Global;

/// How many rows are copied at once.
const PIECE: usize = 1000;

/// A copy begins, and the first rows are copied.
pub(crate) fn start_copy<D: Store>(
    alloc: Global,
    provider: &mut D,
    replica: &mut D,
    table: &CopiedTable,
    replies: &mut Vec<Reply>,
) -> Result<Option<CopyHand>, WorkerFault>
    requires provider_made { IsMade (D.seen provider.old) }
    requires replica_made { IsMade (D.seen replica.old) }
    requires root { is_some (set_queue (D.seen provider.old)) ≡ true }
    requires same { SameTable (D.seen provider.old) (D.seen replica.old) table.now.name.now table.now.from table.now.to }
    requires may { may_copy table.now.name.now (D.seen replica.old).node ≡ true }
    requires idle { copy_txid table.now.to (D.seen replica.old).copies ≡ None }
    requires nothing { replies.old.items ≡ [] }
    ensures moves { IfOk result (λ now. MovesBy (starts_copy (D.seen provider.old) (D.seen replica.old) table.now.name.now)
        (D.seen provider.old) (D.seen provider.new) (D.seen replica.old) (D.seen replica.new) replies.new.items now) }
    ensures fault { IfErr result (λ fault. MoveRefused fault (starts_copy (D.seen provider.old) (D.seen replica.old) table.now.name.now)
        (D.seen provider.old) (D.seen provider.new) (D.seen replica.old) (D.seen replica.new) None None) }
{
    let hand = begin(alloc, provider, replica, table)?;
    let hand = copy_piece(alloc, provider, replica, table, hand, replies)?;
    Ok(hand)
}

/// A copy that runs goes on with the next rows. If it isn't in hand, it is waited for.
pub(crate) fn continue_copy<D: Store>(
    alloc: Global,
    provider: &mut D,
    replica: &mut D,
    table: &CopiedTable,
    hand: Option<CopyHand>,
    replies: &mut Vec<Reply>,
) -> Result<Option<CopyHand>, NoMemory>
    requires provider_made { IsMade (D.seen provider.old) }
    requires replica_made { IsMade (D.seen replica.old) }
    requires same { SameTable (D.seen provider.old) (D.seen replica.old) table.now.name.now table.now.from table.now.to }
    requires may { may_copy table.now.name.now (D.seen replica.old).node ≡ true }
    requires nothing { replies.old.items ≡ [] }
    ensures { IfOk result (λ now. MovesBy (continues (D.seen provider.old) table.now.name.now hand (under_way (D.seen provider.old) hand))
        (D.seen provider.old) (D.seen provider.new) (D.seen replica.old) (D.seen replica.new) replies.new.items now) }
{
    match hand {
        Some(hand) if provider.is_held(hand.hold) => {
            copy_piece(alloc, provider, replica, table, hand, replies)
        }
        hand => {
            add_reply(Reply::AwaitsTable(table.name.copy(alloc)?), replies)?;
            Ok(hand)
        }
    }
}

/// A copy begins: its consumer registers at the newest tick, the present snapshot is held, and the rows that the table
/// has are deleted.
fn begin<D: Store>(
    alloc: Global,
    provider: &mut D,
    replica: &mut D,
    table: &CopiedTable,
) -> Result<CopyHand, WorkerFault>
    requires provider_made { IsMade (D.seen provider.old) }
    requires replica_made { IsMade (D.seen replica.old) }
    requires same { SameTable (D.seen provider.old) (D.seen replica.old) table.now.name.now table.now.from table.now.to }
    requires root { is_some (set_queue (D.seen provider.old)) ≡ true }
    requires idle { copy_txid table.now.to (D.seen replica.old).copies ≡ None }
    requires may { may_copy table.now.name.now (D.seen replica.old).node ≡ true }
    ensures begun { IfOk result (λ hand. Begun (D.seen provider.old) (D.seen provider.new) (D.seen replica.old) (D.seen replica.new) table.now.name.now hand) }
    ensures fault { IfErr result (λ fault. MoveRefused fault (starts_copy (D.seen provider.old) (D.seen replica.old) table.now.name.now)
        (D.seen provider.old) (D.seen provider.new) (D.seen replica.old) (D.seen replica.new) None None) }
{
    let consumer = copy_consumer(alloc, replica.node())?;
    if provider.is_full(&consumer) {
        return Err(WorkerFault::TooManyConsumers);
    }
    if provider.sub_ids_spent() {
        return Err(WorkerFault::IdsSpent);
    }
    replica.copy_begin(table.to)?;
    provider.part(&consumer);
    let tick = match provider.join(&consumer) {
        Ok(tick) => tick,
        Err(JoinFault::NoMemory) => return Err(WorkerFault::NoMemory),
        // It has just left, so there is room for it, and an id was left.
        Err(_) => unreachable!(),
    };
    let hold = provider.hold()?;
    Ok(CopyHand {
        hold,
        tick,
        last: None,
    })
}

/// The next rows are copied. If they are the last, the copy ends.
fn copy_piece<D: Store>(
    alloc: Global,
    provider: &mut D,
    replica: &mut D,
    table: &CopiedTable,
    hand: CopyHand,
    replies: &mut Vec<Reply>,
) -> Result<Option<CopyHand>, NoMemory>
    requires provider_made { IsMade (D.seen provider.old) }
    requires replica_made { IsMade (D.seen replica.old) }
    requires same { SameTable (D.seen provider.old) (D.seen replica.old) table.now.name.now table.now.from table.now.to }
    requires held { is_some (held_snapshot (D.seen provider.old) hand.hold) ≡ true }
    requires may { may_copy table.now.name.now (D.seen replica.old).node ≡ true }
    requires nothing { replies.old.items ≡ [] }
    ensures { IfOk result (λ now. IfSome (held_snapshot (D.seen provider.old) hand.hold) (λ snapshot.
        MovesAs (next_piece (D.seen provider.old) table.now.name.now snapshot hand)
        (D.seen provider.old) (D.seen provider.new) (D.seen replica.old) (D.seen replica.new) replies.new.items now)) }
{
    let CopyHand { hold, tick, last } = hand;
    let rows = provider.held_rows(hold, table.from, last.as_ref(), PIECE)?;
    let count = rows.len();
    let is_whole = count >= PIECE;
    let last = last_key(provider.schema(table.from), &rows, last)?;
    replica.copy_rows(table.to, rows)?;
    replies.push(Reply::RowsCopied(count as u64))?;
    if is_whole {
        return Ok(Some(CopyHand { hold, tick, last }));
    }
    replica.copy_end(table.name, table.to, provider.held_snapshot(hold), tick)?;
    provider.let_go(hold);
    let moved = table.name.copy(alloc)?;
    replies.push(Reply::TableMoved(moved, TableState::CatchingUp))?;
    Ok(None)
}

/// The snapshot that is held for what was in hand is let go.
pub(crate) fn let_go<D: Store>(provider: &mut D, hand: Option<CopyHand>)
    ensures { ServesAll (D.seen provider.old) (D.seen provider.new) (lets_go_for hand) }
{
    if let Some(hand) = hand {
        provider.let_go(hand.hold);
    }
}

/// The copy of a table is given up, if the table is one that is copied.
pub(crate) fn give_up<D: Store>(replica: &mut D, table: &Text)
    requires { IsMade (D.seen replica.old) }
    ensures { ServesAll (D.seen replica.old) (D.seen replica.new) (giving_up_copy table.now ∷ []) }
{
    if progress_of(replica.node(), table).state == TableState::InCopy {
        let number = replica.leaf_table(table);
        replica.copy_drop(number);
    }
}

/// The key of the last of some rows of these columns, or if there are none, one from before.
fn last_key(schema: &Schema, rows: &[Row], before: Option<Key>) -> Result<Option<Key>, NoMemory>
    ensures { IfOk result (λ last. last ≡ last_row_key schema.now before rows.now) }
{
    match rows.last() {
        Some(row) => Ok(Some(schema.key_of(row)?)),
        None => Ok(before),
    }
}

/// The consumer of the copies of a node's tables.
pub fn copy_consumer(alloc: Global, node: Option<&Node>) -> Result<Text, NoMemory>
    ensures { IfOk result (λ consumer. consumer ≡ copy_consumer (option_copied node.entry)) }
{
    let mut name = match node {
        Some(node) => String::from_str(alloc, node.name().as_str())?,
        None => String::new(alloc),
    };
    name.push_str(".copy")?;
    Ok(Text::from_string(name))
}
