//! The laws of the definitions: functions that do nothing, so that their contracts are proved.

ghost use Rattle.sky_model.specs.LawsOfApplying.{BadEventsCantBeApplied, BatchesPutTheirEvents, GoodBatchesAreApplied, NoPickedTableIsCopied, OtherBatchesLeaveRows, WorkersWriteAlone};
ghost use Rattle.sky_model.specs.LawsOfBatches.{BatchesAreConsecutive, BatchesListWhatStands, EqualIdsStay, EventsAreListedOnce, FinishedBatchesWereActive, IdsDontFall, ListingsStay, SubscriptionsAreDistinct, SubscriptionsAreGiven, SubscriptionsAreNew};
ghost use Rattle.sky_model.specs.LawsOfCopies.{CopiesAreOfTablesInCopy, CopiesDeleteWhatStands, CopiesLeaveTheirRows, CopiesNameWhatStands, CopiesRunAlone, HeldRowsStay, HoldsHaveLeastNumbers};
ghost use Rattle.sky_model.specs.LawsOfDaemons.{DaemonsHaveStarted, DaemonsWorkWhenDue, NextDueIsFirst};
ghost use Rattle.sky_model.specs.LawsOfHistories.{HistoriesAreMadeByOwnCalls, HomesAreOpen, WaitersHaveOpen, BlocksAreOpen};
ghost use Rattle.sky_model.specs.LawsOfLines.{BadWordIsLeast, LinesAreInForm};
ghost use Rattle.sky_model.specs.LawsOfLocks.{DeadlocksAreRings, HoldersHaveWritten, NothingIsReady, WritersHaveWritten};
ghost use Rattle.sky_model.specs.LawsOfNodes.{LeafTablesAreReadOnly, NodesHaveTables, ReadOnlyTablesAreUnwritten, RemovedTablesExist, RootsAreProviders, SessionsWriteNoReadOnlyTable, SetsHaveQueues, SetsHaveTriggers};
ghost use Rattle.sky_model.specs.LawsOfQueues.{BusyQueuesStand, NewQueuesAreOthers, OtherQueuesKeepNothing, ProducersHaveWork, QueuesOfConsumersStand, QueuesOfTriggersStand};
ghost use Rattle.sky_model.specs.LawsOfRetries.{EventsComeOnce, RetriesAreCopies, RetriesAreForTheirSubscription, RetriesAreListed, RetriesAreOfActiveBatches, RetriesComeBackAtCalls, RetriesComeBackDue, OwnedEventsComeBack, RetriesWaitOnce};
ghost use Rattle.sky_model.specs.LawsOfRotation.{ActiveBatchesAreStored, NeededEventsAreStored, NewestTicksAreKept, PendingSwitchesRun, PositionsAreKept, SwitchesAreCommitted, SwitchesBeginAfterPeriods, SwitchesBeginFree, SwitchesDropTicks, SwitchesWerePending, TablesHoldWhatWasPut};
ghost use Rattle.sky_model.specs.LawsOfRows.{RowsAreReadUnderSnapshots};
ghost use Rattle.sky_model.specs.LawsOfSnapshots.{BatchesAreSelectedBySnapshots, SnapshotsSeeWhatHasEnded};
ghost use Rattle.sky_model.specs.LawsOfWrites.{EventIdsFollowWrites, EventIdsRise, KeysAreWrittenInTurn, SnapshotsSeeEarlierWriters, StandingRowsFit, WritesAndCommitsHaveOneOrder, WritesAreTold, WritesNameWhatStands, WrittenRowsFit};

/// The number of a line's bad word is the least such that no line of the grammar begins with the line's words up to it.
/// So it doesn't depend on the order in which a reader tries the rows.
pub fn bad_word_is_least()
    ensures { BadWordIsLeast }
{}

/// What a line of the grammar says is in form: the session's name is a name, and the value of each word of its
/// statement is one that a word of its kind can have.
pub fn lines_are_in_form()
    ensures { LinesAreInForm }
{}

/// What the calls of the world make in one database, calls of that database alone make, and these are in form if
/// those are. So what holds of each history that calls of a database make holds of each database of the world.
pub fn histories_are_made_by_own_calls()
    ensures { HistoriesAreMadeByOwnCalls }
{}

/// After calls of the world each session has open the database that is its home, and no other. At each place of each
/// history that calls of a database make, a session that waits there, or is in a block, has the database open.
pub fn homes_are_open()
    ensures homes { HomesAreOpen }
    ensures waiters { WaitersHaveOpen }
    ensures blocks { BlocksAreOpen }
{}

/// At each place of each history that calls of a database make, the snapshot there sees exactly the transactions
/// that have ended there.
pub fn snapshots_see_what_has_ended()
    ensures { SnapshotsSeeWhatHasEnded }
{}

/// At each such place a batch's events, by id, are selected from all that were ever put into its queue: those that are
/// for its subscription, and whose transaction hasn't rolled back, is seen by the closing tick's snapshot, and isn't
/// seen by the opening tick's.
pub fn batches_are_selected_by_snapshots()
    ensures { BatchesAreSelectedBySnapshots }
{}

/// At each such place the rows that a session is shown, by the order of commits at its sight and its own writes on top,
/// are what is read of the kept versions under the snapshot of its sight. So rows read under a snapshot are those of
/// one serial order of commits.
pub fn rows_are_read_under_snapshots()
    ensures { RowsAreReadUnderSnapshots }
{}

/// At each such place a session holds a key if and only if its running transaction has written it.
pub fn holders_have_written()
    ensures { HoldersHaveWritten }
{}

/// At each such place a transaction counts as one that has written in a table, which then gets no new trigger, if and
/// only if it hasn't ended, and has written a row there.
pub fn writers_have_written()
    ensures { WritersHaveWritten }
{}

/// At each such place a wait is refused if and only if it would close a cycle of sessions each of which waits for the
/// next, and the refusal lists them, the refused one first.
pub fn deadlocks_are_rings()
    ensures { DeadlocksAreRings }
{}

/// After the calls of a database no statement waits for a key that nobody holds.
pub fn nothing_is_ready()
    ensures { NothingIsReady }
{}

/// At each such place the writes of a key and the commits of the transactions that made them have one order: a
/// transaction that writes a key hasn't ended, and each other one that has written it has; of one that hasn't rolled
/// back and one that has committed, the one wrote the key before the other if and only if it committed before the
/// other; and no snapshot sees a transaction without those that wrote a key before it. So do the events that record the
/// writes: they come right after their write, one of each trigger of its table that doesn't ignore it, each with the
/// next id of its queue, and a queue's ids rise, but for those of events that are retried. And of two
/// writes each event that records the first one has a smaller
/// id than each event of the same queue that records the second one: ids come in the order of the writes.
pub fn writes_and_commits_have_one_order()
    ensures in_turn { KeysAreWrittenInTurn }
    ensures order { WritesAndCommitsHaveOneOrder }
    ensures seen { SnapshotsSeeEarlierWriters }
    ensures told { WritesAreTold }
    ensures ids { EventIdsRise }
    ensures order_of_ids { EventIdsFollowWrites }
{}

/// At each such place no two consumers have a subscription of one id; no id in use exceeds the last that was given, and
/// that of a new consumer does. So a consumer that leaves and registers again has another subscription.
pub fn subscriptions_are_given_once()
    ensures distinct { SubscriptionsAreDistinct }
    ensures given { SubscriptionsAreGiven }
    ensures new { SubscriptionsAreNew }
{}

/// At each such place each retry that waits is of a subscription of its queue, and its event a copy of one that was put
/// there, with the subscription as its owner and one retry more; it was asked for of an active batch of this
/// subscription, which lists that event; and for each event id of a subscription at most one waits. One that comes back
/// had waited, and is due; its event was put just before, by a transaction that hadn't ended; it waits no longer, and
/// comes back at the moment of the call that brings it; and no event with an owner is put in another way. Its event is
/// in each batch of its subscription whose opening tick was made before, and whose closing tick is made later, and in
/// no other batch across that place; and a batch lists at most one event of an id and a transaction, so it lists this
/// one once. And an event with an owner is in no batch of another subscription.
pub fn retries_come_back_once()
    ensures copies { RetriesAreCopies }
    ensures listed { RetriesAreOfActiveBatches }
    ensures once { RetriesWaitOnce }
    ensures due { RetriesComeBackDue }
    ensures puts { OwnedEventsComeBack }
    ensures moment { RetriesComeBackAtCalls }
    ensures in_batches { RetriesAreListed }
    ensures listed_once { EventsComeOnce }
    ensures owned { RetriesAreForTheirSubscription }
{}

/// At each such place at which a session has just made a write, the old row that the write names is the one that was
/// there for the session: the one that its own transaction wrote last, or else that of the newest committed write. The
/// new row of a write, if there is one, fits the table's columns and has the key under which it was written. And so
/// does each row of a table.
pub fn writes_name_what_stands()
    ensures stands { WritesNameWhatStands }
    ensures written { WrittenRowsFit }
    ensures rows { StandingRowsFit }
{}

/// At each such place a queue exists, that is, it was made and not dropped, if a consumer is registered with it, if a
/// trigger puts events into it, or if a transaction that hasn't ended has put one into it: none of these loses its
/// queue. One that exists is busy, so that it can't be dropped, for the least transaction that hasn't ended and has put
/// an event into it, or has a switch of its tables pending, if there is one. Nothing is kept of one that was dropped or
/// isn't made yet. And the next queue that is made is none that was dropped, even if it gets the name of one.
pub fn queues_in_use_stand()
    ensures consumers { QueuesOfConsumersStand }
    ensures triggers { QueuesOfTriggersStand }
    ensures busy { BusyQueuesStand }
    ensures producers { ProducersHaveWork }
    ensures gone { OtherQueuesKeepNothing }
    ensures others { NewQueuesAreOthers }
{}

/// At each such place the batches that a consumer has finished since its life began are of its queue and its
/// subscription, and lead from the tick where that began to its position: each begins where the one before closed, and
/// closes at the next tick, which is made. Of a consumer that isn't registered there are none. A life of a subscription
/// begins when the consumer registers, and again when it is moved to a tick.
pub fn batches_are_consecutive()
    ensures { BatchesAreConsecutive }
{}

/// Events by id: their ids don't fall, and for each id those that have it are the ones that had it before, in the same
/// order. So a listing loses, adds and duplicates nothing.
pub fn batches_are_in_order()
    ensures rises { IdsDontFall }
    ensures keeps { EqualIdsStay }
{}

/// At each such place an event whose transaction had committed at a registered consumer's position, and hadn't at the
/// tick where the consumer's life began, and that is for its subscription, is in one of the batches that the consumer
/// has finished since, and in one alone; any other event is in none. A batch lists the events of its queue that are in
/// it.
pub fn events_are_listed_once()
    ensures stands { BatchesListWhatStands }
    ensures once { EventsAreListedOnce }
{}

/// What a batch lists while it is active is what it lists at every later place: what is put or commits later isn't in
/// it. Each batch that a consumer has finished since its life began was active before, so it lists what it listed then.
pub fn listings_stay()
    ensures stay { ListingsStay }
    ensures were_active { FinishedBatchesWereActive }
{}

/// After calls of the world no daemon was started at a later moment than the clock's. The next moment after the clock's
/// is then the first one at which a part of the daemon of some database is due, and there is none if and only if no
/// part is ever due. As the clock moves, daemons work at each moment up to the new one at which a part of one is due,
/// in rising order, and at no other.
pub fn daemons_work_when_due()
    ensures started { DaemonsHaveStarted }
    ensures next { NextDueIsFirst }
    ensures works { DaemonsWorkWhenDue }
{}

/// The three event tables of a queue that exists have what was put while each was the current one, since it was last
/// emptied. No switch loses an event that a running transaction has put, or that a consumer at a tick at which one may
/// register hasn't got yet; and what is selected from the tables for an active batch is its events, of all that were
/// ever put. The position of each consumer is such a tick, and is kept; so is each later tick, and the newest one.
/// A switch drops the ticks that aren't above the second step of the one before, and no others. It begins to be pending
/// for a transaction that hasn't ended, while no other one is, once the rotation period is over, and while neither the
/// second step of the one before, nor a consumer, nor the newest tick holds it back. One that is made was pending, and
/// is made at the moment of the call by which its transaction commits; the transaction of one that is pending hasn't
/// ended. So a transaction commits only once its switches are made, and none is made of one that is rolled back.
pub fn rotation_leaves_what_is_needed()
    ensures tables { TablesHoldWhatWasPut }
    ensures events { NeededEventsAreStored }
    ensures batches { ActiveBatchesAreStored }
    ensures positions { PositionsAreKept }
    ensures newest { NewestTicksAreKept }
    ensures ticks { SwitchesDropTicks }
    ensures begins { SwitchesBeginFree }
    ensures period { SwitchesBeginAfterPeriods }
    ensures made { SwitchesWerePending }
    ensures commits { SwitchesAreCommitted }
    ensures pending { PendingSwitchesRun }
{}

/// At each place of each history that calls of a database make, the queue of a root's set exists, and each table of a
/// root or of a leaf is a table of its database. After the calls each table of a set has one trigger without a name,
/// which puts events into the set's queue, and no other table has such a trigger; and the tables of a leaf are
/// read-only, and no others. So, after calls of the world, `add_table` is never refused because a root has no queue,
/// nor `remove_table` because the table doesn't exist.
pub fn nodes_match_their_databases()
    ensures queues { SetsHaveQueues }
    ensures tables { NodesHaveTables }
    ensures triggers { SetsHaveTriggers }
    ensures read_only { LeafTablesAreReadOnly }
    ensures providers { RootsAreProviders }
    ensures removed { RemovedTablesExist }
{}

/// At each such place no session has just written a read-only table, not even by a statement that had waited; and while
/// a table is read-only, no running transaction of a session has written it.
pub fn read_only_tables_stay_unwritten()
    ensures writes { SessionsWriteNoReadOnlyTable }
    ensures running { ReadOnlyTablesAreUnwritten }
{}

/// At each place of each history that calls of a database make, a copy that runs is of a table that sessions may not
/// write, in a leaf's database; no session holds a key of it, and no other copy of it runs. After the calls the table is
/// one of the leaf, in the state in which it is copied, and has no kept snapshot of an earlier copy. When a copy begins
/// it deletes the rows of its table, and each write of it names the row that was there for its transaction. Where it is
/// said that a table was copied, the copy's transaction has just committed, and the table has the rows that this wrote,
/// and no others.
pub fn copies_leave_their_rows()
    ensures alone { CopiesRunAlone }
    ensures states { CopiesAreOfTablesInCopy }
    ensures deletes { CopiesDeleteWhatStands }
    ensures stands { CopiesNameWhatStands }
    ensures leaves { CopiesLeaveTheirRows }
{}

/// At each such place a snapshot gets the least number that no other one has, when it begins to be held. And the rows
/// that are read under the snapshot of an earlier place are those of that place, whatever has happened since.
pub fn held_rows_stay()
    ensures numbers { HoldsHaveLeastNumbers }
    ensures rows { HeldRowsStay }
{}

/// At each place of each history that calls of a database make, a worker that writes a row of a table, other than by a
/// copy, does so in a leaf's database, in a table that sessions may not write and of which no copy runs; no session
/// holds the key, and no other running transaction has written the table; and the write names the row that was there
/// for its transaction. If after calls the answer to a batch is a number, so many of its events are picked, and it is
/// applied: the rows of each table are those that its picked events make of the rows before, one after another, each of
/// which can be applied to the rows that those before it leave; and the tick is stored. Otherwise the rows of all tables
/// are as before, and so is the node. No copy runs of the table of an event that is picked. On a leaf, and of one table
/// only if that was copied, the event that is said to be bad is the first of those picked that can't be applied; and if
/// all of them can, none is said to be, and the batch is applied unless no transaction id is left.
pub fn batches_put_their_events()
    ensures writes { WorkersWriteAlone }
    ensures applied { BatchesPutTheirEvents }
    ensures others { OtherBatchesLeaveRows }
    ensures idle { NoPickedTableIsCopied }
    ensures bad { BadEventsCantBeApplied }
    ensures good { GoodBatchesAreApplied }
{}
