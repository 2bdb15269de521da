//! The laws on changes of replicated tables: functions that do nothing, so that their contracts are proved.

ghost use Rattle.sky_laws_changes.specs.LawsOfChanges.{BatchesGiveRows, EventsGiveRows, TablesStayInSets, TicksAreInOrder, UnseenEventsGiveRows, UnseenEventsLeadOn};

/// A table that is in the set of a root is in it at each later place of a history that calls of a database make, until a
/// mark takes it out.
pub fn tables_stay_in_sets()
    ensures { TablesStayInSets }
{}

/// Of two places of a history that calls of a database make, let a table be in a set at each place from the one to the
/// other. Then its events between them, those of transactions that had committed at the later place and hadn't at the
/// earlier one, apply to its rows at the earlier place, and applying them gives its rows at the later one.
pub fn events_give_rows()
    ensures { EventsGiveRows }
{}

/// The place of a tick is below that of each later tick. Let a table be in the queue's set from the opening tick of a batch
/// to the closing one. Then its events of the batch apply to its rows at the opening tick, and applying them gives its rows
/// at the closing one.
pub fn batches_give_rows()
    ensures ordered { TicksAreInOrder }
    ensures gives { BatchesGiveRows }
{}

/// The same holds from any place between the two ticks, as that of the snapshot under which the table was copied, if the
/// events of transactions that this snapshot sees are left out. So while a copy catches up, each batch leads from the later
/// of that place and the opening tick to the later of it and the closing one.
pub fn unseen_events_give_rows()
    ensures gives { UnseenEventsGiveRows }
    ensures leads { UnseenEventsLeadOn }
{}
