//! The laws on replicas: functions that do nothing, so that their contracts are proved.

ghost use Rattle.sky_laws_replicas.specs.LawsOfReplicas.{CopiedTablesHaveProvidersRows, CopiesAreUnseen, CopiesGoOn, GivenUpCopiesLeaveNothing, HandsAreOfRunningCopies, HoldsAreInHand, LeafTablesAreProvided, ReplicasKeepProvidersRows, ReplicasShowProvidersRows, ReplicasShowSessionsWrites, RestartsBeginAnew, RunningCopiesAreInHand, SessionsSeeProvidersRows};

/// After all calls of the world, where it has just been said in a database that a table was copied under a snapshot, the
/// table has the rows that its provider's table had at the place at which this snapshot was taken: right before the copy
/// began, when the snapshot was held for it.
pub fn copied_tables_have_providers_rows()
    ensures { CopiedTablesHaveProvidersRows }
{}

/// At each place above that one, the table has those rows and, on top, the writes of the transactions that have committed
/// since, in the order of their commits. Until it is copied again or a batch writes it, these are transactions of sessions;
/// and until it leaves its leaf or a batch writes it, it has those rows and no others. A session is shown these, with its
/// own writes on top, if its sight is at such a place. And while a copy of a table runs, the table has the rows that it had
/// when the copy began. So a session whose sight is older than the end of a copy sees nothing of the copy.
pub fn replicas_show_providers_rows()
    ensures shown { ReplicasShowProvidersRows }
    ensures written { ReplicasShowSessionsWrites }
    ensures kept { ReplicasKeepProvidersRows }
    ensures seen { SessionsSeeProvidersRows }
    ensures unseen { CopiesAreUnseen }
{}

/// A copy of a table runs if, and only if, the table's worker has it in hand. Then the table is `in-copy`, its snapshot is
/// held by the provider's database, and no other snapshot is held. So if a table is `in-copy`, its worker's next move
/// begins a copy, or is refused with its cause, if it has none in hand; else it continues the copy that it has.
pub fn running_copies_are_in_hand()
    ensures in_hand { RunningCopiesAreInHand }
    ensures running { HandsAreOfRunningCopies }
    ensures holds { HoldsAreInHand }
    ensures moves { CopiesGoOn }
{}

/// Each table of a leaf is in the set of its provider, whose queue exists, with the same columns.
pub fn leaf_tables_are_provided()
    ensures { LeafTablesAreProvided }
{}

/// A copy that is given up leaves its table with the rows and the versions that it had when the copy began, and no copy of
/// the table runs. `restart NAME TABLE` is done for each table of a leaf: it gives up the copy that the table's worker has
/// in hand, if it has one, and lets its snapshot go; else it changes no database. The table stays in its state, the worker
/// has nothing in hand, and if the state is `in-copy` its next move begins a copy.
pub fn restarts_begin_anew()
    ensures given_up { GivenUpCopiesLeaveNothing }
    ensures anew { RestartsBeginAnew }
{}
