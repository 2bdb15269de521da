//! The trigger that a statement makes.

ghost use Rattle.std.specs.Prelude.{◌≡◌, [], ◌∷◌, find, not, option_copied, option_map, None, Some, Ok, IfOk, IfErr, OnOk};
ghost use Rattle.sky_names.specs.Places.{place_of};
ghost use Rattle.sky_model.specs.declared.reply.Refusal.TheVariants.{BadColumn};
ghost use Rattle.sky_model.specs.declared.reply.Reply.TheVariants.{Done};
ghost use Rattle.sky_model.specs.History.{queued, traced};
ghost use Rattle.sky_model.specs.Outcome.{refused_by, does_marks};
ghost use Rattle.sky_model.specs.StepRows.{table_called};
ghost use Rattle.sky_model.specs.StepTrigger.{may_ignore, add_trigger};
ghost use Rattle.sky_model.specs.Stops.{StopsAs};
ghost use Rattle.sky_state.specs.Seen.{seen};
ghost use Rattle.pgq_queues.specs.Seen.{Beside, seen_with, Stands};
ghost use Rattle.pgq_queues.specs.Traced.{IsTable};
ghost use Rattle.pgq_parts.specs.Seen.{seen_database};
ghost use Rattle.pgq_parts.specs.Triggering.{queue_of_no_set, trigger_fits};

use crate::node::is_set_queue;
use crate::node_part::NodePart;
use crate::queues::queue_called;
use londiste_state::Node;
use pgq_queues::{Queues, TableTrigger};
use sky_model::{AddedTrigger, Limit, Refusal, Stop};
use sky_row_store::RowStore;
use sky_urlenc::Trigger;
use sky_val::{NoMemory, Schema, Text};
use std::alloc::Global;

/// The trigger that `add_trigger` makes, and the columns of its table, or why it is refused.
pub fn new_trigger<'a, R: RowStore>(
    alloc: Global,
    rows: &'a R,
    queues: &Queues,
    node: &NodePart,
    asked: &AddedTrigger,
) -> Result<(TableTrigger, &'a Schema), Stop>
    ensures adds { let d = seen_database (record { rows = R.state rows.now; queues = queues.now; node = node.now }) in
        IfOk result (λ made. add_trigger d asked.now
        ≡ does_marks Done (queued (traced made.0.table made.0.name made.0.trigger) ∷ [])) }
    ensures table { IfOk result (λ made. IsTable (seen (R.state rows.now)) made.0.table asked.now.table made.1.now) }
    ensures stands { IfOk result (λ made. Stands queues.now.queues made.0.trigger.queue) }
    ensures err { let d = seen_database (record { rows = R.state rows.now; queues = queues.now; node = node.now }) in
        IfErr result (λ stop. StopsAs stop (add_trigger d asked.now)) }
{
    let (number, schema) = table_called(alloc, rows, &asked.table)?;
    let into = queue_of_no_set(alloc, queues, &node.own, &asked.queue)?;
    check_trigger(alloc, rows, queues, number, schema, asked)?;
    let trigger = trigger_into(alloc, number, into, asked)?;
    Ok((trigger, schema))
}

/// The number of the table of this name, and its columns.
fn table_called<'a, R: RowStore>(
    alloc: Global,
    rows: &'a R,
    table: &Text,
) -> Result<(u32, &'a Schema), Stop>
    ensures number { IfOk result (λ found. place_of table.now (seen (R.state rows.now)).tables ≡ Some found.0) }
    ensures columns { IfOk result (λ found. found.1.now ≡ (seen (R.state rows.now)).columns found.0) }
    ensures err { IfErr result (λ stop. StopsAs stop (table_called table.now (seen (R.state rows.now)))) }
{
    match rows.table(table) {
        Some(found) => Ok(found),
        None => Err(Stop::Refused(Refusal::NoTable(table.copy(alloc)?))),
    }
}

/// The number of the queue of this name, unless it is a set's.
fn queue_of_no_set(
    alloc: Global,
    queues: &Queues,
    node: &Option<Node>,
    queue: &Text,
) -> Result<usize, Stop>
    ensures ok { (beside : Beside) → beside.node ≡ node.now → IfOk result (λ number. queue_of_no_set queue.now (seen_with beside queues.now) ≡ Ok number) }
    ensures stands { IfOk result (λ number. Stands queues.now.queues number) }
    ensures err { (beside : Beside) → beside.node ≡ node.now → IfErr result (λ stop. StopsAs stop (queue_of_no_set queue.now (seen_with beside queues.now))) }
{
    let number = queue_called(alloc, queues, queue)?;
    if is_set_queue(node, queue) {
        return Err(Stop::Refused(Refusal::SetQueue));
    }
    Ok(number)
}

/// Refuses the trigger if the table may not have it.
fn check_trigger<R: RowStore>(
    alloc: Global,
    rows: &R,
    queues: &Queues,
    table: u32,
    schema: &Schema,
    asked: &AddedTrigger,
) -> Result<(), Stop>
    requires { schema.now ≡ (seen (R.state rows.now)).columns table }
    ensures ok { OnOk result (trigger_fits (seen (R.state rows.now)) queues.now.triggers table asked.now.name asked.now.ignored ≡ Ok tt) }
    ensures err { IfErr result (λ stop. StopsAs stop (trigger_fits (seen (R.state rows.now)) queues.now.triggers table asked.now.name asked.now.ignored)) }
{
    if queues.has_trigger(table, &asked.name) {
        return Err(Stop::Refused(Refusal::TriggerExists(asked.name.copy(alloc)?)));
    }
    if queues.trigger_count(table) >= Limit::Triggers.most() {
        return Err(Stop::Refused(Refusal::TooMany(Limit::Triggers)));
    }
    check_ignored(alloc, schema, asked.ignored.as_slice())?;
    match rows.least_writer(table) {
        Some(txid) => Err(Stop::Refused(Refusal::TableBusy(txid))),
        None => Ok(()),
    }
}

/// Refuses columns that a trigger of the table may not ignore, by the first of them.
fn check_ignored(alloc: Global, schema: &Schema, names: &[Text]) -> Result<(), Stop>
    ensures ok { OnOk result (find (λ name. not (may_ignore schema.now name)) names.now ≡ None) }
    ensures err { IfErr result (λ stop. StopsAs stop (refused_by (option_map BadColumn (find (λ name. not (may_ignore schema.now name)) names.now)))) }
{
    match first_bad(schema, names) {
        Some(column) => Err(Stop::Refused(Refusal::BadColumn(column.copy(alloc)?))),
        None => Ok(()),
    }
}

/// The first of the names that a trigger may not ignore.
fn first_bad<'a>(schema: &Schema, names: &'a [Text]) -> Option<&'a Text>
    ensures { option_copied result ≡ find (λ name. not (may_ignore schema.now name)) names.now }
{
    names.iter().find(|name| !may_ignore(schema, name))
}

/// Whether a trigger may ignore the column of this name.
fn may_ignore(schema: &Schema, name: &Text) -> bool
    ensures { result ≡ may_ignore schema.now name.now }
{
    schema
        .columns()
        .iter()
        .any(|column| column.name == *name && !column.key)
}

/// The trigger, of the table and the queue of these numbers.
fn trigger_into(
    alloc: Global,
    table: u32,
    queue: usize,
    asked: &AddedTrigger,
) -> Result<TableTrigger, NoMemory>
    ensures { IfOk result (λ trigger. trigger ≡ record { table = table; name = Some asked.now.name; trigger = record { queue = queue; backup = asked.now.backup; ignored = asked.now.ignored } }) }
{
    let ignored = asked.ignored.as_slice();
    let mut names = Vec::with_capacity(alloc, ignored.len())?;
    for column in ignored {
        names.push(column.copy(alloc)?)?;
    }
    Ok(TableTrigger {
        table,
        name: Some(asked.name.copy(alloc)?),
        trigger: Trigger::new(queue, asked.backup, names),
    })
}
