//! The laws on replicas to which batches are applied: functions that do nothing, so that their contracts are proved.

ghost use Rattle.sky_laws_synced.specs.LawsOfChanges.{AppliedBatchesLeadOn, BatchesSayThatTheyAreApplied, CommitsAreFollowed, CopiesBatchesLeadOn, CopiesSayThatTheyEnd, CopiesWriteOwnTables, LeavesBatchesLeadOn, RowsChangeByCommits, SessionsCommitNoReadOnlyTable, TablesHaveReachedTheirTicks};
ghost use Rattle.sky_laws_synced.specs.LawsOfFollowing.{CopiesFollow, LeavesFollow};
ghost use Rattle.sky_laws_synced.specs.LawsOfOwners.{NodesEventsHaveNoOwner};
ghost use Rattle.sky_laws_synced.specs.LawsOfLeft.{LeftTablesKeepTheirRows, TablesLeaveWithTheirRows, TablesShowSessionsWrites, UncopiedTablesShowSessionsWrites};
ghost use Rattle.sky_laws_synced.specs.LawsOfSeen.{GetsPrintRowsShown, ScansPrintRowsShown, SessionsSeeReplicas, SightsAreAfterCalls};
ghost use Rattle.sky_laws_synced.specs.LawsOfProviders.{LeavesHaveProviders, StepsFindProviders};
ghost use Rattle.sky_laws_synced.specs.LawsOfSynced.{BatchesCanBeApplied, CopiesBatchesCanBeApplied, ReplicasShowProvider};

/// The consumer of each leaf is registered at the set's queue of its provider; so is that of the copy of each table that
/// catches up or is handed over. The tick to which its worker has come is the one at which its subscription is, or the next
/// one, and the queue keeps it. A batch in hand is the active one of the subscription, and leads from its position to the
/// next tick; if it is done, the worker has come to its closing tick.
pub fn workers_follow()
    ensures leaves { LeavesFollow }
    ensures copies { CopiesFollow }
{}

/// After all calls of a database, no event of the set's queue has the subscription of a leaf's consumer as its owner: such
/// a subscription is new when its consumer joins, and no event is retried for it.
pub fn nodes_events_have_no_owner()
    ensures { NodesEventsHaveNoOwner }
{}

/// Each table of a leaf that was copied has the rows that its provider's table had at the later of two places: that at
/// which the snapshot of its copy was taken, and that of the tick to which it has come. The tick of a table in sync is the
/// leaf's, and its rows are those at the place of this tick.
pub fn replicas_show_provider()
    ensures { ReplicasShowProvider }
{}

/// None of the events that a worker picks of the batch in its hand is bad, unless the worker has come to the closing tick
/// before.
pub fn batches_can_be_applied()
    ensures leaves { BatchesCanBeApplied }
    ensures copies { CopiesBatchesCanBeApplied }
{}

/// What `scan` and `get` print of replicated tables. After calls, a session sees its database as it was after some first
/// ones of them (`sight` says after how many), never as it was in the middle of one. `scan` prints the rows that its
/// session is shown, and `get` the one of a key. If the table is one that was copied where the session
/// sees it, these are the rows that its provider's table had at the tick to which it had come there, or at its copy's
/// snapshot if that is later, with the session's own writes on top; and it has none while the table is in the leaf.
pub fn sessions_see_replicas()
    ensures sights { SightsAreAfterCalls }
    ensures scans { ScansPrintRowsShown }
    ensures gets { GetsPrintRowsShown }
    ensures seen { SessionsSeeReplicas }
{}

/// A table of which no copy has ended has the rows that sessions have written. One that was copied has its provider's, with
/// the writes of the sessions' transactions that have committed since on top, in the order of their commits, until a copy of
/// it ends or a batch writes it. It leaves its leaf with the rows that it had, and from then on has these, with such writes
/// on top, until a copy of it ends: no batch writes it.
pub fn left_tables_keep_their_rows()
    ensures uncopied { UncopiedTablesShowSessionsWrites }
    ensures written { TablesShowSessionsWrites }
    ensures leaves { TablesLeaveWithTheirRows }
    ensures left { LeftTablesKeepTheirRows }
{}

/// The provider of each leaf is found: the root of its name, in another database, whose set has a queue. So
/// `londiste_step` on a leaf is a move of its worker, and is never refused because of its provider.
pub fn leaves_have_providers()
    ensures found { LeavesHaveProviders }
    ensures steps { StepsFindProviders }
{}

/// The rows of a table change only by a mark by which a transaction commits that has written the table. If it is a
/// session's, the table isn't read-only, as those of leaves are. If it is a copy's, it is one of this table, and the
/// next mark says that the table was copied. If it is a worker's, the next mark says that a batch was applied, and it
/// is one for this table.
pub fn rows_change_by_commits()
    ensures commits { RowsChangeByCommits }
    ensures sessions { SessionsCommitNoReadOnlyTable }
    ensures copies { CopiesWriteOwnTables }
    ensures copied { CopiesSayThatTheyEnd }
    ensures applied { BatchesSayThatTheyAreApplied }
    ensures followed { CommitsAreFollowed }
{}

/// How far each table of a leaf that was copied has come is what the marks of the leaf's database say: under the
/// snapshot of its last copy, to the tick of the last batch since then that was one for it, or to that of its copy. So
/// this changes only where it is said that the table was copied, or that a batch was applied that is one for it.
pub fn tables_have_reached_their_ticks()
    ensures { TablesHaveReachedTheirTicks }
{}

/// If a worker has a batch in hand that it hasn't applied yet, and a transaction id is left, its next step applies it.
/// For each table for which the batch is, the events that are picked apply to the rows that it had, its provider's at
/// the later of the place of its copy's snapshot and that of the tick to which it had come; and they give those that
/// it has then, its provider's at the later of that place and that of the closing tick. No other database changes.
/// Each batch that the marks of a leaf's database say was applied led these tables on so.
pub fn batches_lead_on()
    ensures leaves { LeavesBatchesLeadOn }
    ensures copies { CopiesBatchesLeadOn }
    ensures applied { AppliedBatchesLeadOn }
{}
