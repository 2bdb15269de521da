ghost use Rattle.std.specs.Prelude.{◌≡◌, ◌++◌, map, OnOk};
ghost use Rattle.pgq_tables.specs.ById.{by_id};
ghost use Rattle.pgq_batch.specs.Placed.{by_place};
ghost use Rattle.pgq_batch.specs.Looked.{lent_events, placed_events};

use pgq_tables::Stored;
use sky_val::NoMemory;

/// Puts events in order of their places in their table.
pub(crate) fn sort_by_place(placed: &mut Vec<(usize, &Stored)>) -> Result<(), NoMemory>
    ensures { OnOk result (placed_events placed.new.items ≡ by_place (placed_events placed.old.items)) }
{
    // Most events are stored in order of their transactions.
    if !placed.is_sorted_by_key(|(place, _)| *place) {
        placed.sort_by_key(|(place, _)| *place)?;
    }
    Ok(())
}

/// Moves events to the end of others, without their places.
pub(crate) fn move_to<'a>(
    events: &mut Vec<&'a Stored>,
    placed: Vec<(usize, &'a Stored)>,
) -> Result<(), NoMemory>
    ensures { OnOk result (lent_events events.new.items ≡ lent_events events.old.items ++ map (λ x. x.1) (placed_events placed.entry.items)) }
{
    events.reserve(placed.len())?;
    for (_, event) in placed {
        events.push_reserved(event);
    }
    Ok(())
}

/// Puts events in order of their ids, those with equal ids in the order that they had.
pub(crate) fn sort_by_id(events: &mut Vec<&Stored>) -> Result<(), NoMemory>
    ensures { OnOk result (lent_events events.new.items ≡ by_id (lent_events events.old.items)) }
{
    // Most events are stored by id, but for those that came back to be retried, which keep an older one.
    if !events.is_sorted_by_key(|event| event.id()) {
        events.sort_by_key(|event| event.id())?;
    }
    Ok(())
}
