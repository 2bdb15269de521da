//! The statement forms on queues: of each, what follows its first word.

ghost use Rattle.std.specs.Prelude.{◌-◌, ◌^◌};
ghost use Rattle.sky_model.specs.Kinds.{Name, Dotted, Number, Raw};
ghost use Rattle.sky_model.specs.Grammar.{stop, one, last, on_queues};
ghost use Rattle.sky_model.specs.Grammar as grammar;
ghost use Rattle.sky_script.specs.Reading.{Answers, ReadsExtra};

use crate::cause::LineCause;
use crate::words::Words;
use sky_model::{
    BoxedExtra, ConsumerPosition, DbStmt, Extra, InsertedEvent, QueueSetting, QueueStmt,
    RetriedEvent, Stmt,
};
use std::alloc::Global;

pub(crate) fn create_queue(alloc: Global, words: &mut Words) -> Result<Stmt, LineCause>
    ensures { Answers result (last Name (λ queue. on_queues (QueueStmt.CreateQueue queue))) words.old }
{
    let queue = words.last_name(alloc)?;
    Ok(Stmt::Db(DbStmt::Queue(QueueStmt::CreateQueue { queue })))
}

pub(crate) fn drop_queue(alloc: Global, words: &mut Words) -> Result<Stmt, LineCause>
    ensures { Answers result (last Name (λ queue. on_queues (QueueStmt.DropQueue queue))) words.old }
{
    let queue = words.last_name(alloc)?;
    Ok(Stmt::Db(DbStmt::Queue(QueueStmt::DropQueue { queue })))
}

pub(crate) fn set_queue_config(alloc: Global, words: &mut Words) -> Result<Stmt, LineCause>
    ensures { let row = one Name (λ queue. one Raw (λ param.
        last Raw (λ value. on_queues (QueueStmt.SetQueueConfig (record { queue = queue; param = param; value = value }))))) in
        Answers result row words.old }
{
    let queue = words.name(alloc)?;
    let param = words.raw(alloc)?;
    let value = words.last_raw(alloc)?;
    let setting = QueueSetting {
        queue,
        param,
        value,
    };
    Ok(Stmt::Db(DbStmt::Queue(QueueStmt::SetQueueConfig(setting))))
}

pub(crate) fn queue_info(alloc: Global, words: &mut Words) -> Result<Stmt, LineCause>
    ensures { Answers result (last Name (λ queue. on_queues (QueueStmt.QueueInfo queue))) words.old }
{
    let queue = words.last_name(alloc)?;
    Ok(Stmt::Db(DbStmt::Queue(QueueStmt::QueueInfo { queue })))
}

pub(crate) fn insert_event(alloc: Global, words: &mut Words) -> Result<Stmt, LineCause>
    ensures { Answers result grammar.insert_event words.old }
{
    let queue = words.name(alloc)?;
    let ev_type = words.opt_text(alloc)?;
    let ev_data = words.opt_text(alloc)?;
    if words.at_end() {
        let event = InsertedEvent {
            queue,
            ev_type,
            ev_data,
            extra: None,
        };
        return Ok(Stmt::Db(DbStmt::Queue(QueueStmt::InsertEvent(event))));
    }
    let extra = extra(alloc, words)?;
    let event = InsertedEvent {
        queue,
        ev_type,
        ev_data,
        extra: Some(extra),
    };
    Ok(Stmt::Db(DbStmt::Queue(QueueStmt::InsertEvent(event))))
}

/// The four further texts of an event, to the line's end.
fn extra(alloc: Global, words: &mut Words) -> Result<BoxedExtra, LineCause>
    ensures { ReadsExtra result words.old }
{
    let ev_extra1 = words.opt_text(alloc)?;
    let ev_extra2 = words.opt_text(alloc)?;
    let ev_extra3 = words.opt_text(alloc)?;
    let ev_extra4 = words.last_opt_text(alloc)?;
    let extra = Extra {
        ev_extra1,
        ev_extra2,
        ev_extra3,
        ev_extra4,
    };
    Ok(BoxedExtra::new(alloc, extra)?)
}

pub(crate) fn ticker(alloc: Global, words: &mut Words) -> Result<Stmt, LineCause>
    ensures { Answers result (last Name (λ queue. on_queues (QueueStmt.Ticker queue))) words.old }
{
    let queue = words.last_name(alloc)?;
    Ok(Stmt::Db(DbStmt::Queue(QueueStmt::Ticker { queue })))
}

pub(crate) fn force_tick(alloc: Global, words: &mut Words) -> Result<Stmt, LineCause>
    ensures { Answers result (last Name (λ queue. on_queues (QueueStmt.ForceTick queue))) words.old }
{
    let queue = words.last_name(alloc)?;
    Ok(Stmt::Db(DbStmt::Queue(QueueStmt::ForceTick { queue })))
}

pub(crate) fn register_consumer(alloc: Global, words: &mut Words) -> Result<Stmt, LineCause>
    ensures { let row = one Name (λ queue. last Dotted (λ consumer. on_queues (QueueStmt.RegisterConsumer queue consumer))) in
        Answers result row words.old }
{
    let queue = words.name(alloc)?;
    let consumer = words.last_dotted(alloc)?;
    Ok(Stmt::Db(DbStmt::Queue(QueueStmt::RegisterConsumer { queue, consumer })))
}

pub(crate) fn register_consumer_at(alloc: Global, words: &mut Words) -> Result<Stmt, LineCause>
    ensures { let row = one Name (λ queue. one Dotted (λ consumer.
        last (Number (2 ^ 64 - 1)) (λ tick. on_queues (QueueStmt.RegisterConsumerAt (record { queue = queue; consumer = consumer; tick = tick }))))) in
        Answers result row words.old }
{
    let queue = words.name(alloc)?;
    let consumer = words.dotted(alloc)?;
    let tick = words.last_id()?;
    let position = ConsumerPosition {
        queue,
        consumer,
        tick,
    };
    Ok(Stmt::Db(DbStmt::Queue(QueueStmt::RegisterConsumerAt(position))))
}

pub(crate) fn unregister_consumer(alloc: Global, words: &mut Words) -> Result<Stmt, LineCause>
    ensures { let row = one Name (λ queue. last Dotted (λ consumer. on_queues (QueueStmt.UnregisterConsumer queue consumer))) in
        Answers result row words.old }
{
    let queue = words.name(alloc)?;
    let consumer = words.last_dotted(alloc)?;
    Ok(Stmt::Db(DbStmt::Queue(QueueStmt::UnregisterConsumer { queue, consumer })))
}

pub(crate) fn next_batch(alloc: Global, words: &mut Words) -> Result<Stmt, LineCause>
    ensures { let row = one Name (λ queue. last Dotted (λ consumer. on_queues (QueueStmt.NextBatch queue consumer))) in
        Answers result row words.old }
{
    let queue = words.name(alloc)?;
    let consumer = words.last_dotted(alloc)?;
    Ok(Stmt::Db(DbStmt::Queue(QueueStmt::NextBatch { queue, consumer })))
}

pub(crate) fn get_batch_events(words: &mut Words) -> Result<Stmt, LineCause>
    ensures { Answers result (last (Number (2 ^ 64 - 1)) (λ batch. on_queues (QueueStmt.GetBatchEvents batch))) words.old }
{
    let batch = words.last_id()?;
    Ok(Stmt::Db(DbStmt::Queue(QueueStmt::GetBatchEvents { batch })))
}

pub(crate) fn get_batch_info(words: &mut Words) -> Result<Stmt, LineCause>
    ensures { Answers result (last (Number (2 ^ 64 - 1)) (λ batch. on_queues (QueueStmt.GetBatchInfo batch))) words.old }
{
    let batch = words.last_id()?;
    Ok(Stmt::Db(DbStmt::Queue(QueueStmt::GetBatchInfo { batch })))
}

pub(crate) fn event_retry(words: &mut Words) -> Result<Stmt, LineCause>
    ensures { let row = one (Number (2 ^ 64 - 1)) (λ batch. one (Number (2 ^ 64 - 1)) (λ event.
        last (Number 1_000_000_000) (λ seconds. on_queues (QueueStmt.EventRetry (record { batch = batch; event = event; seconds = seconds }))))) in
        Answers result row words.old }
{
    let batch = words.number(u64::MAX)?;
    let event = words.number(u64::MAX)?;
    let seconds = words.number(1_000_000_000)?;
    words.end()?;
    let again = RetriedEvent {
        batch,
        event,
        seconds,
    };
    Ok(Stmt::Db(DbStmt::Queue(QueueStmt::EventRetry(again))))
}

pub(crate) fn finish_batch(words: &mut Words) -> Result<Stmt, LineCause>
    ensures { Answers result (last (Number (2 ^ 64 - 1)) (λ batch. on_queues (QueueStmt.FinishBatch batch))) words.old }
{
    let batch = words.last_id()?;
    Ok(Stmt::Db(DbStmt::Queue(QueueStmt::FinishBatch { batch })))
}

pub(crate) fn maint_retry_events(words: &mut Words) -> Result<Stmt, LineCause>
    ensures { Answers result (stop (on_queues QueueStmt.MaintRetryEvents)) words.old }
{
    words.end()?;
    Ok(Stmt::Db(DbStmt::Queue(QueueStmt::MaintRetryEvents)))
}

pub(crate) fn maint_rotate_step1(alloc: Global, words: &mut Words) -> Result<Stmt, LineCause>
    ensures { Answers result (last Name (λ queue. on_queues (QueueStmt.MaintRotateStep1 queue))) words.old }
{
    let queue = words.last_name(alloc)?;
    Ok(Stmt::Db(DbStmt::Queue(QueueStmt::MaintRotateStep1 { queue })))
}

pub(crate) fn maint_rotate_step2(words: &mut Words) -> Result<Stmt, LineCause>
    ensures { Answers result (stop (on_queues QueueStmt.MaintRotateStep2)) words.old }
{
    words.end()?;
    Ok(Stmt::Db(DbStmt::Queue(QueueStmt::MaintRotateStep2)))
}

pub(crate) fn consumer_info(alloc: Global, words: &mut Words) -> Result<Stmt, LineCause>
    ensures { let row = one Name (λ queue. last Dotted (λ consumer. on_queues (QueueStmt.ConsumerInfo queue consumer))) in
        Answers result row words.old }
{
    let queue = words.name(alloc)?;
    let consumer = words.last_dotted(alloc)?;
    Ok(Stmt::Db(DbStmt::Queue(QueueStmt::ConsumerInfo { queue, consumer })))
}
