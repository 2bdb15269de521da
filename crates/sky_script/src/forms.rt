//! The statement forms: of each, its first word and the function that reads what follows it.

ghost use Rattle.sky_model.specs.Grammar.{all_forms};
ghost use Rattle.sky_script.specs.Reading.{AnswersAmong, of_six, of_eleven, of_twelve, of_short, of_middle, of_long, of_longest};

use crate::cause::LineCause;
use crate::clock_forms::{clock, pgqd};
use crate::node_forms::{
    add_table, copy_step, create_leaf, create_root, londiste_step, remove_table, restart,
    table_state,
};
use crate::queue_forms::{
    consumer_info, create_queue, drop_queue, event_retry, finish_batch, force_tick,
    get_batch_events, get_batch_info, insert_event, maint_retry_events, maint_rotate_step1,
    maint_rotate_step2, next_batch, queue_info, register_consumer, register_consumer_at,
    set_queue_config, ticker, unregister_consumer,
};
use crate::row_forms::{create_table, delete, get, insert, scan, update};
use crate::session_forms::{alone, begin, open_db, txid_visible_in_snapshot};
use crate::trigger_forms::add_trigger;
use crate::words::Words;
use sky_model::{RowStmt, Stmt};
use std::alloc::Global;

/// The statement with this first word, of the words after it. It is compared only with those of its group, by length: six
/// bytes, eleven, twelve, fewer than six, between six and eleven, between twelve and eighteen, and more.
pub(crate) fn read_form(alloc: Global, first: &[u8], words: &mut Words) -> Result<Stmt, LineCause>
    ensures { AnswersAmong result first.now all_forms words.old }
{
    match first.len() {
        6 => read_six(alloc, first, words),
        11 => read_eleven(alloc, first, words),
        12 => read_twelve(alloc, first, words),
        length if length < 6 => read_short(alloc, first, words),
        length if length < 11 => read_middle(alloc, first, words),
        length if length < 18 => read_long(alloc, first, words),
        _ => read_longest(alloc, first, words),
    }
}

/// The same among the forms whose first word has six bytes.
#[tactic(auto, unfolding(crate::specs::Reading::Answers, crate::specs::Reading::AnswersAmong))]
fn read_six(alloc: Global, first: &[u8], words: &mut Words) -> Result<Stmt, LineCause>
    ensures { AnswersAmong result first.now of_six words.old }
{
    if first == b"update".as_slice() {
        return update(alloc, words);
    }
    if first == b"insert".as_slice() {
        return insert(alloc, words);
    }
    if first == b"commit".as_slice() {
        return alone(RowStmt::Commit, words);
    }
    if first == b"delete".as_slice() {
        return delete(alloc, words);
    }
    if first == b"ticker".as_slice() {
        return ticker(alloc, words);
    }
    if first == b"create".as_slice() {
        return create_table(alloc, words);
    }
    if first == b"cancel".as_slice() {
        return alone(RowStmt::Cancel, words);
    }
    Err(words.refused())
}

/// The same among those whose first word has twelve.
#[tactic(auto, unfolding(crate::specs::Reading::Answers, crate::specs::Reading::AnswersAmong))]
fn read_twelve(alloc: Global, first: &[u8], words: &mut Words) -> Result<Stmt, LineCause>
    ensures { AnswersAmong result first.now of_twelve words.old }
{
    if first == b"insert_event".as_slice() {
        return insert_event(alloc, words);
    }
    if first == b"finish_batch".as_slice() {
        return finish_batch(words);
    }
    if first == b"txid_current".as_slice() {
        return alone(RowStmt::TxidCurrent, words);
    }
    if first == b"create_queue".as_slice() {
        return create_queue(alloc, words);
    }
    if first == b"remove_table".as_slice() {
        return remove_table(alloc, words);
    }
    Err(words.refused())
}

/// The same among those whose first word has fewer than six.
#[tactic(auto, unfolding(crate::specs::Reading::Answers, crate::specs::Reading::AnswersAmong))]
fn read_short(alloc: Global, first: &[u8], words: &mut Words) -> Result<Stmt, LineCause>
    ensures { AnswersAmong result first.now of_short words.old }
{
    if first == b"begin".as_slice() {
        return begin(words);
    }
    if first == b"get".as_slice() {
        return get(alloc, words);
    }
    if first == b"scan".as_slice() {
        return scan(alloc, words);
    }
    if first == b"clock".as_slice() {
        return clock(alloc, words);
    }
    if first == b"open".as_slice() {
        return open_db(alloc, words);
    }
    if first == b"close".as_slice() {
        return alone(RowStmt::Close, words);
    }
    if first == b"pgqd".as_slice() {
        return pgqd(words);
    }
    Err(words.refused())
}

/// The same among those whose first word has eleven.
#[tactic(auto, unfolding(crate::specs::Reading::Answers, crate::specs::Reading::AnswersAmong))]
fn read_eleven(alloc: Global, first: &[u8], words: &mut Words) -> Result<Stmt, LineCause>
    ensures { AnswersAmong result first.now of_eleven words.old }
{
    if first == b"add_trigger".as_slice() {
        return add_trigger(alloc, words);
    }
    if first == b"event_retry".as_slice() {
        return event_retry(words);
    }
    if first == b"create_root".as_slice() {
        return create_root(alloc, words);
    }
    if first == b"create_leaf".as_slice() {
        return create_leaf(alloc, words);
    }
    if first == b"table_state".as_slice() {
        return table_state(alloc, words);
    }
    Err(words.refused())
}

/// The same among those whose first word has more than six and fewer than eleven.
#[tactic(auto, unfolding(crate::specs::Reading::Answers, crate::specs::Reading::AnswersAmong))]
fn read_middle(alloc: Global, first: &[u8], words: &mut Words) -> Result<Stmt, LineCause>
    ensures { AnswersAmong result first.now of_middle words.old }
{
    if first == b"rollback".as_slice() {
        return alone(RowStmt::Rollback, words);
    }
    if first == b"next_batch".as_slice() {
        return next_batch(alloc, words);
    }
    if first == b"force_tick".as_slice() {
        return force_tick(alloc, words);
    }
    if first == b"queue_info".as_slice() {
        return queue_info(alloc, words);
    }
    if first == b"drop_queue".as_slice() {
        return drop_queue(alloc, words);
    }
    if first == b"add_table".as_slice() {
        return add_table(alloc, words);
    }
    if first == b"copy_step".as_slice() {
        return copy_step(alloc, words);
    }
    if first == b"restart".as_slice() {
        return restart(alloc, words);
    }
    Err(words.refused())
}

/// The same among those whose first word has more than twelve and fewer than eighteen.
#[tactic(auto, unfolding(crate::specs::Reading::Answers, crate::specs::Reading::AnswersAmong))]
fn read_long(alloc: Global, first: &[u8], words: &mut Words) -> Result<Stmt, LineCause>
    ensures { AnswersAmong result first.now of_long words.old }
{
    if first == b"get_batch_events".as_slice() {
        return get_batch_events(words);
    }
    if first == b"register_consumer".as_slice() {
        return register_consumer(alloc, words);
    }
    if first == b"set_queue_config".as_slice() {
        return set_queue_config(alloc, words);
    }
    if first == b"get_batch_info".as_slice() {
        return get_batch_info(words);
    }
    if first == b"consumer_info".as_slice() {
        return consumer_info(alloc, words);
    }
    if first == b"londiste_step".as_slice() {
        return londiste_step(alloc, words);
    }
    Err(words.refused())
}

/// The same among those whose first word has more than seventeen.
#[tactic(auto, unfolding(crate::specs::Reading::Answers, crate::specs::Reading::AnswersAmong))]
fn read_longest(alloc: Global, first: &[u8], words: &mut Words) -> Result<Stmt, LineCause>
    ensures { AnswersAmong result first.now of_longest words.old }
{
    if first == b"txid_current_snapshot".as_slice() {
        return alone(RowStmt::TxidCurrentSnapshot, words);
    }
    if first == b"txid_visible_in_snapshot".as_slice() {
        return txid_visible_in_snapshot(alloc, words);
    }
    if first == b"register_consumer_at".as_slice() {
        return register_consumer_at(alloc, words);
    }
    if first == b"unregister_consumer".as_slice() {
        return unregister_consumer(alloc, words);
    }
    if first == b"maint_retry_events".as_slice() {
        return maint_retry_events(words);
    }
    if first == b"maint_rotate_step1".as_slice() {
        return maint_rotate_step1(alloc, words);
    }
    if first == b"maint_rotate_step2".as_slice() {
        return maint_rotate_step2(words);
    }
    Err(words.refused())
}
