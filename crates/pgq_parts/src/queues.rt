//! What statements ask of the queues alone, or are refused by.

ghost use Rattle.std.specs.Prelude.{◌≡◌, ◌<◌, None, Some, Ok, Err, IfOk, IfErr};
ghost use Rattle.sky_model.specs.declared.reply.Reply.TheVariants.{BatchInfo};
ghost use Rattle.sky_model.specs.Outcome.{answers};
ghost use Rattle.sky_model.specs.StepQueue.{queue_called, shown_name};
ghost use Rattle.sky_model.specs.Stops.{StopsAs};
ghost use Rattle.sky_model.specs.StepConsumer.{get_batch_info};
ghost use Rattle.pgq_queues.specs.Seen.{Beside, seen_with, Stands};
ghost use Rattle.pgq_parts.specs.Configured.{refusal_for};

use pgq_queues::{Queues, TableTrigger};
use pgq_tick::ConfigFault;
use sky_model::{BoxedBatchInfo, Refusal, Stop};
use sky_val::{NoMemory, Text};
use std::alloc::Global;

/// The number of the queue of this name, or a refusal if there is none.
pub fn queue_called(alloc: Global, queues: &Queues, queue: &Text) -> Result<usize, Stop>
    ensures ok { (beside : Beside) → IfOk result (λ number. queue_called queue.now (seen_with beside queues.now) ≡ Ok number) }
    ensures stands { IfOk result (λ number. Stands queues.now.queues number) }
    ensures err { (beside : Beside) → IfErr result (λ stop. StopsAs stop (queue_called queue.now (seen_with beside queues.now))) }
{
    match queues.number(queue) {
        Some(number) => Ok(number),
        None => Err(Stop::Refused(Refusal::NoQueue(queue.copy(alloc)?))),
    }
}

/// The name that a refusal shows for a trigger.
pub fn shown_name(alloc: Global, trigger: &TableTrigger) -> Result<Text, NoMemory>
    ensures { IfOk result (λ name. name ≡ shown_name trigger.now) }
{
    match &trigger.name {
        Some(name) => name.copy(alloc),
        None => Text::from_str(alloc, ""),
    }
}

/// What is shown of an active batch, or a refusal if none has this id.
pub fn batch_info(alloc: Global, queues: &Queues, id: u64) -> Result<BoxedBatchInfo, Stop>
    ensures ok { (beside : Beside) → IfOk result (λ info. get_batch_info (seen_with beside queues.now) id ≡ answers (BatchInfo info)) }
    ensures err { (beside : Beside) → IfErr result (λ stop. StopsAs stop (get_batch_info (seen_with beside queues.now) id)) }
{
    let Some(batch) = queues.batch(id) else {
        return Err(Stop::Refused(Refusal::NoBatch));
    };
    let info = queues.batch_info(&batch)?;
    Ok(BoxedBatchInfo::new(alloc, info)?)
}

/// Why a parameter isn't set.
pub fn refusal_for(alloc: Global, param: &Text, fault: ConfigFault) -> Result<Refusal, NoMemory>
    ensures { IfOk result (λ refusal. refusal ≡ refusal_for param.now fault) }
{
    let param = param.copy(alloc)?;
    match fault {
        ConfigFault::NoParam => Ok(Refusal::NoParam(param)),
        ConfigFault::BadValue => Ok(Refusal::BadValue(param)),
    }
}
