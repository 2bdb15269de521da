ghost use Rattle.std.specs.Prelude.{◌≡◌, [], ◌∷◌, IfOk};

use crate::items::Items;
use sky_val::{Column, Key, NoMemory, Row, Text, Val};
use std::alloc::Global;
use std::marker::Model;
use std::slice;

/// The four further texts of an event.
#[derive(Debug, Drop)]
pub struct Extra {
    pub ev_extra1: Option<Text>,
    pub ev_extra2: Option<Text>,
    pub ev_extra3: Option<Text>,
    pub ev_extra4: Option<Text>,
}

/// The four further texts of an event in one word, so that a statement is small: most events have none.
#[derive(Debug, Drop)]
pub struct BoxedExtra {
    extra: Box<Extra>,
}

impl Model for BoxedExtra {
    ghost use Rattle.sky_model.specs.declared.stmt.Extra.{Extra};

    ghost Value = { Extra };

    ghost view = { λ boxed. boxed.extra.value };
}

impl BoxedExtra {
    /// The same texts.
    pub fn new(alloc: Global, extra: Extra) -> Result<BoxedExtra, NoMemory>
        ensures { IfOk result (λ boxed. boxed ≡ extra) }
    {
        let extra = Box::new(alloc, extra)?;
        Ok(BoxedExtra { extra })
    }

    /// The texts.
    pub fn as_extra(&self) -> &Extra
        ensures { result.now ≡ self.now }
    {
        &self.extra
    }
}

/// Where a statement is allowed.
#[derive(Clone, Copy, Debug, PartialEq, Eq)]
pub enum Where {
    /// always, even if its session waits
    Always,
    /// always, unless its session waits
    Anywhere,
    /// if a database is open, even in an aborted block
    WhenOpen,
    /// if a database is open, but not in an aborted block
    WhenSound,
    /// the same; a repeatable read block reads at the place of the first such statement
    WhenReading,
    /// if a database is open, outside a block
    WhenOutside,
}

/// The columns of a new table, in order.
pub type Columns = Items<Column>;

/// Names of columns, in order.
pub type ColumnNames = Items<Text>;

/// What an update does to a column's value.
#[derive(Debug, Drop)]
pub enum Change {
    /// it becomes this value
    To(Val),
    /// this number is added to it
    Add(i64),
}

impl Change {
    /// An equal change.
    fn copy(&self, alloc: Global) -> Result<Change, NoMemory>
        ensures { IfOk result (λ change. change ≡ self.now) }
    {
        match self {
            Change::To(value) => Ok(Change::To(value.copy(alloc)?)),
            Change::Add(number) => Ok(Change::Add(*number)),
        }
    }
}

/// What an update does to the column of this name.
#[derive(Debug, Drop)]
pub struct Set {
    pub column: Text,
    pub change: Change,
}

impl Set {
    /// An equal change of the same column.
    fn copy(&self, alloc: Global) -> Result<Set, NoMemory>
        ensures { IfOk result (λ set. set ≡ self.now) }
    {
        Ok(Set {
            column: self.column.copy(alloc)?,
            change: self.change.copy(alloc)?,
        })
    }
}

/// Equal changes.
fn copy_sets(alloc: Global, sets: &[Set]) -> Result<Vec<Set>, NoMemory>
    ensures { IfOk result (λ copies. copies.items ≡ sets.now) }
{
    let mut copies = Vec::with_capacity(alloc, sets.len())?;
    for set in sets {
        copies.push(set.copy(alloc)?)?;
    }
    Ok(copies)
}

/// The changes of an update: most updates have one, which is kept in place and takes no memory of its own.
#[derive(Debug, Drop)]
enum SetValues {
    One(Set),
    Listed(Vec<Set>),
}

/// The changes of an update, in order.
#[derive(Debug)]
pub struct Sets {
    sets: SetValues,
}

// By hand, so that it is not written out at each exit of a function that owns one.
impl Drop for Sets {
    fn drop(self) {
        let Sets { sets: _ } = self;
    }
}

impl Model for Sets {
    ghost use Rattle.std.specs.Prelude.{List};
    ghost use Rattle.sky_model.specs.declared.stmt.Set.{Set};
    ghost use Rattle.sky_model.specs.KeptSets.{set_values};

    ghost Value = { List Set };

    ghost view = { λ s. set_values s.sets };
}

impl Sets {
    /// One change. It takes no memory.
    pub fn one(set: Set) -> Sets
        ensures { result ≡ set ∷ [] }
    {
        Sets {
            sets: SetValues::One(set),
        }
    }

    /// The changes of a list. It takes no memory.
    pub fn new(sets: Vec<Set>) -> Sets
        ensures { result ≡ sets.items }
    {
        Sets {
            sets: SetValues::Listed(sets),
        }
    }

    /// All of them, in their order.
    pub fn as_slice(&self) -> &[Set]
        ensures { result.now ≡ self.now }
    {
        match &self.sets {
            SetValues::One(set) => slice::from_ref(set),
            SetValues::Listed(sets) => sets.as_slice(),
        }
    }

    /// Equal changes.
    pub fn copy(&self, alloc: Global) -> Result<Sets, NoMemory>
        ensures { IfOk result (λ sets. sets ≡ self.now) }
    {
        match &self.sets {
            SetValues::One(set) => Ok(Sets::one(set.copy(alloc)?)),
            SetValues::Listed(sets) => Ok(Sets::new(copy_sets(alloc, sets)?)),
        }
    }
}

/// What a write attempts with a key of a table, at once or after a wait.
#[derive(Debug, Drop)]
pub enum Attempt {
    /// A row is inserted there.
    Insertion(Row),
    /// The row there is changed.
    Changes(Sets),
    /// The row there is deleted.
    Deletion,
}

/// A statement on sessions, transactions, tables and rows, with the words of its line in their order.
#[derive(Debug)]
pub enum RowStmt {
    /// `open NAME`
    OpenDb { name: Text },
    /// `close`
    Close,
    /// `cancel`
    Cancel,
    /// `begin`
    Begin,
    /// `begin repeatable read`
    BeginRepeatableRead,
    /// `commit`
    Commit,
    /// `rollback`
    Rollback,
    /// `txid_current`
    TxidCurrent,
    /// `txid_current_snapshot`
    TxidCurrentSnapshot,
    /// `txid_visible_in_snapshot N RAW`
    TxidVisibleInSnapshot { txid: u64, snapshot: Text },
    /// `create table TABLE COL..`
    CreateTable { table: Text, columns: Columns },
    /// `insert TABLE VAL..`
    Insert { table: Text, row: Row },
    /// `update TABLE VAL.. set SET..`
    Update { table: Text, key: Key, sets: Sets },
    /// `delete TABLE VAL..`
    Delete { table: Text, key: Key },
    /// `get TABLE VAL..`
    Get { table: Text, key: Key },
    /// `scan TABLE`
    Scan { table: Text },
}

// By hand, so that it is not written out at each exit of a function that owns one.
impl Drop for RowStmt {
    fn drop(self) {
        match self {
            RowStmt::OpenDb { name: _ } => {}
            RowStmt::Close => {}
            RowStmt::Cancel => {}
            RowStmt::Begin => {}
            RowStmt::BeginRepeatableRead => {}
            RowStmt::Commit => {}
            RowStmt::Rollback => {}
            RowStmt::TxidCurrent => {}
            RowStmt::TxidCurrentSnapshot => {}
            RowStmt::TxidVisibleInSnapshot {
                txid: _,
                snapshot: _,
            } => {}
            RowStmt::CreateTable {
                table: _,
                columns: _,
            } => {}
            RowStmt::Insert { table: _, row: _ } => {}
            RowStmt::Update {
                table: _,
                key: _,
                sets: _,
            } => {}
            RowStmt::Delete { table: _, key: _ } => {}
            RowStmt::Get { table: _, key: _ } => {}
            RowStmt::Scan { table: _ } => {}
        }
    }
}

/// A parameter of a queue, and the value that it gets.
#[derive(Debug, Drop)]
pub struct QueueSetting {
    pub queue: Text,
    pub param: Text,
    pub value: Text,
}

/// An event that is put into a queue: its type, its data, and further texts if it has any.
#[derive(Debug, Drop)]
pub struct InsertedEvent {
    pub queue: Text,
    pub ev_type: Option<Text>,
    pub ev_data: Option<Text>,
    pub extra: Option<BoxedExtra>,
}

/// A trigger of this name, whose events record the writes of a table in a queue: with the rows before, or without, and
/// without these columns.
#[derive(Debug, Drop)]
pub struct AddedTrigger {
    pub name: Text,
    pub table: Text,
    pub queue: Text,
    pub backup: bool,
    pub ignored: ColumnNames,
}

/// A consumer of a queue, and the id of the tick that becomes its position.
#[derive(Debug, Drop)]
pub struct ConsumerPosition {
    pub queue: Text,
    pub consumer: Text,
    pub tick: u64,
}

/// An event of a batch, by their ids, and in how many seconds it is to come back.
#[derive(Debug, Drop)]
pub struct RetriedEvent {
    pub batch: u64,
    pub event: u64,
    pub seconds: u64,
}

/// A statement on queues, their consumers and triggers, with the words of its line in their order.
#[derive(Debug)]
pub enum QueueStmt {
    /// `create_queue NAME`
    CreateQueue { queue: Text },
    /// `drop_queue NAME`
    DropQueue { queue: Text },
    /// `set_queue_config NAME RAW RAW`
    SetQueueConfig(QueueSetting),
    /// `queue_info NAME`
    QueueInfo { queue: Text },
    /// `insert_event NAME TVAL TVAL`, or with four more TVAL
    InsertEvent(InsertedEvent),
    /// `add_trigger NAME TABLE NAME`, then `backup` or not, then `ignore=` and names or not
    AddTrigger(AddedTrigger),
    /// `ticker NAME`
    Ticker { queue: Text },
    /// `force_tick NAME`
    ForceTick { queue: Text },
    /// `register_consumer NAME CONSUMER`
    RegisterConsumer { queue: Text, consumer: Text },
    /// `register_consumer_at NAME CONSUMER N`
    RegisterConsumerAt(ConsumerPosition),
    /// `unregister_consumer NAME CONSUMER`
    UnregisterConsumer { queue: Text, consumer: Text },
    /// `next_batch NAME CONSUMER`
    NextBatch { queue: Text, consumer: Text },
    /// `get_batch_events N`
    GetBatchEvents { batch: u64 },
    /// `get_batch_info N`
    GetBatchInfo { batch: u64 },
    /// `event_retry N N N`: a batch, an event, and seconds
    EventRetry(RetriedEvent),
    /// `finish_batch N`
    FinishBatch { batch: u64 },
    /// `maint_retry_events`
    MaintRetryEvents,
    /// `maint_rotate_step1 NAME`
    MaintRotateStep1 { queue: Text },
    /// `maint_rotate_step2`
    MaintRotateStep2,
    /// `consumer_info NAME CONSUMER`
    ConsumerInfo { queue: Text, consumer: Text },
}

// By hand, as for the statements on rows.
impl Drop for QueueStmt {
    fn drop(self) {
        match self {
            QueueStmt::CreateQueue { queue: _ } => {}
            QueueStmt::DropQueue { queue: _ } => {}
            QueueStmt::SetQueueConfig(_) => {}
            QueueStmt::QueueInfo { queue: _ } => {}
            QueueStmt::InsertEvent(_) => {}
            QueueStmt::AddTrigger(_) => {}
            QueueStmt::Ticker { queue: _ } => {}
            QueueStmt::ForceTick { queue: _ } => {}
            QueueStmt::RegisterConsumer {
                queue: _,
                consumer: _,
            } => {}
            QueueStmt::RegisterConsumerAt(_) => {}
            QueueStmt::UnregisterConsumer {
                queue: _,
                consumer: _,
            } => {}
            QueueStmt::NextBatch {
                queue: _,
                consumer: _,
            } => {}
            QueueStmt::GetBatchEvents { batch: _ } => {}
            QueueStmt::GetBatchInfo { batch: _ } => {}
            QueueStmt::EventRetry(_) => {}
            QueueStmt::FinishBatch { batch: _ } => {}
            QueueStmt::MaintRetryEvents => {}
            QueueStmt::MaintRotateStep1 { queue: _ } => {}
            QueueStmt::MaintRotateStep2 => {}
            QueueStmt::ConsumerInfo {
                queue: _,
                consumer: _,
            } => {}
        }
    }
}

/// A statement that a database runs by itself.
#[derive(Debug)]
pub enum DbStmt {
    /// one on sessions, transactions, tables and rows
    Row(RowStmt),
    /// one on queues
    Queue(QueueStmt),
}

// By hand, as for the statements on rows.
impl Drop for DbStmt {
    fn drop(self) {
        match self {
            DbStmt::Row(_) => {}
            DbStmt::Queue(_) => {}
        }
    }
}

/// A statement on the node of a name, which all databases know; the node may be another database's than its session's.
#[derive(Debug)]
pub enum NodeStmt {
    /// `create_root NAME NAME`: a node and its queue
    CreateRoot { name: Text, queue: Text },
    /// `create_leaf NAME NAME`: a node and its provider
    CreateLeaf { name: Text, provider: Text },
    /// `add_table NAME TABLE`: a node and a table
    AddTable { name: Text, table: Text },
    /// `remove_table NAME TABLE`
    RemoveTable { name: Text, table: Text },
    /// `table_state NAME TABLE`
    TableState { name: Text, table: Text },
    /// `copy_step NAME TABLE`
    CopyStep { name: Text, table: Text },
    /// `restart NAME`
    Restart { name: Text },
    /// `restart NAME TABLE`
    RestartTable { name: Text, table: Text },
    /// `londiste_step NAME`
    LondisteStep { name: Text },
}

// By hand, as for the statements on rows.
impl Drop for NodeStmt {
    fn drop(self) {
        match self {
            NodeStmt::CreateRoot { name: _, queue: _ } => {}
            NodeStmt::CreateLeaf {
                name: _,
                provider: _,
            } => {}
            NodeStmt::AddTable { name: _, table: _ } => {}
            NodeStmt::RemoveTable { name: _, table: _ } => {}
            NodeStmt::TableState { name: _, table: _ } => {}
            NodeStmt::CopyStep { name: _, table: _ } => {}
            NodeStmt::Restart { name: _ } => {}
            NodeStmt::RestartTable { name: _, table: _ } => {}
            NodeStmt::LondisteStep { name: _ } => {}
        }
    }
}

/// A statement on what belongs to no database: the clock, and whether a database's daemon is on.
#[derive(Clone, Copy, Debug, PartialEq, Eq)]
pub enum WorldStmt {
    /// `clock +INTERVAL`, with the interval in microseconds
    Clock { time: i64 },
    /// `pgqd on`
    PgqdOn,
    /// `pgqd off`
    PgqdOff,
}

/// A statement, by what runs it.
#[derive(Debug)]
pub enum Stmt {
    /// the database that its session has open
    Db(DbStmt),
    /// databases that are found by their nodes
    Node(NodeStmt),
    /// the world
    World(WorldStmt),
}

// By hand, as for the statements on rows.
impl Drop for Stmt {
    fn drop(self) {
        match self {
            Stmt::Db(_) => {}
            Stmt::Node(_) => {}
            Stmt::World(_) => {}
        }
    }
}
