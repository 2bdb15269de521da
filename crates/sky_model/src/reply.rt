ghost use Rattle.std.specs.Prelude.{◌≡◌, [], ◌∷◌, ◌++◌, IfOk, OnOk, OnErr};

use crate::items::Items;
use londiste_state::TableState;
use sky_txid::Snapshot;
use sky_val::{Event, MOST_COLUMNS, NoMemory, Row, SessionId, Text};
use std::alloc::Global;
use std::marker::Model;

/// What is limited in number.
#[derive(Clone, Copy, Debug, PartialEq, Eq)]
pub enum Limit {
    /// Sessions in a script.
    Sessions,
    /// Databases.
    Databases,
    /// Queues in a database.
    Queues,
    /// Consumers of a queue.
    Consumers,
    /// Tables in a database.
    Tables,
    /// Columns in a table.
    Columns,
    /// Triggers of a table.
    Triggers,
}

impl Limit {
    ghost use Rattle.sky_model.specs.Limits.{most_of};

    /// The limit.
    pub fn most(self) -> usize
        ensures { result ≡ most_of self }
    {
        match self {
            Limit::Sessions => 256,
            Limit::Databases => 16,
            Limit::Queues => 64,
            Limit::Consumers => 256,
            Limit::Tables => 64,
            Limit::Columns => MOST_COLUMNS,
            Limit::Triggers => 8,
        }
    }
}

/// What is wrong with the values of a row, of a key, or of an update's changes.
#[derive(Debug)]
pub enum BadRow {
    /// They are more or fewer than the columns that they are for.
    Count,
    /// A value is of another kind than this column, or a number is added to a text.
    Type(Text),
    /// Null is given for this column, which is part of the key.
    NullKey(Text),
    /// The table has no column of this name.
    NoColumn(Text),
    /// This column is changed a second time.
    Twice(Text),
}

impl Drop for BadRow {
    fn drop(self) {
        match self {
            BadRow::Count => {}
            BadRow::Type(_) => {}
            BadRow::NullKey(_) => {}
            BadRow::NoColumn(_) => {}
            BadRow::Twice(_) => {}
        }
    }
}

/// Sessions in order.
pub type Waiters = Items<SessionId>;

/// Why a statement is refused.
#[derive(Debug)]
pub enum Refusal {
    /// The session's transaction block is aborted.
    Aborted,
    /// The node has the table.
    AlreadyInSet(Text),
    /// The session has a database open already.
    AlreadyOpen,
    /// This column to ignore is part of the table's key, or no column of it.
    BadColumn(Text),
    /// Values don't fit the table.
    BadRow(BadRow),
    /// The text isn't a snapshot.
    BadSnapshot,
    /// This parameter of a queue can't have the value.
    BadValue(Text),
    /// The session waits.
    Busy,
    /// The session's wait was canceled.
    Canceled,
    /// The clock would pass its last moment.
    ClockSpent,
    /// The provider's queue has a consumer of the node's name.
    ConsumerExists(Text),
    /// These sessions would wait for each other in a cycle: the refused one first, then each time the one that the last
    /// waits for.
    Deadlock(Waiters),
    /// The table has a row with this key.
    Duplicate,
    /// The last event id of the queue was given.
    EventIdsSpent,
    /// The queue has consumers, this many.
    HasConsumers(u64),
    /// A trigger of this name puts events into the queue.
    HasTriggers(Text),
    /// The last tick, batch or subscription id was given.
    IdsSpent,
    /// The statement isn't allowed in a transaction block.
    InTransaction,
    /// An update names this column, which is part of the key.
    KeyChange(Text),
    /// No active batch of the database has this id.
    NoBatch,
    /// The queue has no such consumer.
    NoConsumer(Text),
    /// The batch has no event of this id.
    NoEvent,
    /// The consumer is a node's.
    NodeConsumer,
    /// A node has this name, or the database has a node.
    NodeExists(Text),
    /// No column of the table is part of its key.
    NoKey,
    /// There is no such node.
    NoNode(Text),
    /// A queue has no such parameter.
    NoParam(Text),
    /// The database has no such queue.
    NoQueue(Text),
    /// The database has no such table.
    NoTable(Text),
    /// The queue has no tick of this id; the newest has that one.
    NoTick(u64, u64),
    /// The node doesn't have the table; or, if the table is to join a leaf, its provider's set doesn't.
    NotInSet(Text),
    /// The node is a root.
    NotLeaf(Text),
    /// The session has no database open.
    NotOpen,
    /// The node is no root.
    NotProvider(Text),
    /// The sum leaves the range of numbers in this column.
    OutOfRange(Text),
    /// The transaction of this id is running, and has put an event into the queue or has a switch of its tables
    /// pending.
    QueueBusy(u64),
    /// The database has a queue of this name.
    QueueExists(Text),
    /// The table is in the database's leaf.
    ReadOnly,
    /// No column may have this name.
    ReservedColumn(Text),
    /// The queue is a set's, and the type of the event is one of those that record writes of rows.
    ReservedType,
    /// The table has other columns than the provider's.
    SchemaDiffers(Text),
    /// The transaction of this id wrote the key; it hadn't committed when the block's snapshot was taken, and has now.
    Serialize(u64),
    /// The queue is a set's.
    SetQueue,
    /// The transaction of this id is running, and has written the table.
    TableBusy(u64),
    /// The database has a table of this name.
    TableExists(Text),
    /// This leaf has the table.
    TableInUse(Text),
    /// The tick is below the least one at which a consumer may register; both ids.
    TickTooOld(u64, u64),
    /// The limit is reached.
    TooMany(Limit),
    /// The table has a trigger of this name.
    TriggerExists(Text),
    /// Two columns have this name.
    TwiceNamed(Text),
    /// The last transaction id was given.
    TxidsSpent,
}

impl Refusal {
    ghost use Rattle.sky_model.specs.Outcome.{aborts};

    /// Whether it aborts the transaction block that its session is in.
    pub fn aborts(&self) -> bool
        ensures { result ≡ aborts self.now }
    {
        !matches!(
            self,
            Refusal::AlreadyOpen | Refusal::Busy | Refusal::ClockSpent
        )
    }
}

impl Drop for Refusal {
    fn drop(self) {
        match self {
            Refusal::Aborted => {}
            Refusal::AlreadyInSet(_) => {}
            Refusal::AlreadyOpen => {}
            Refusal::BadColumn(_) => {}
            Refusal::BadRow(_) => {}
            Refusal::BadSnapshot => {}
            Refusal::BadValue(_) => {}
            Refusal::Busy => {}
            Refusal::Canceled => {}
            Refusal::ClockSpent => {}
            Refusal::ConsumerExists(_) => {}
            Refusal::Deadlock(_) => {}
            Refusal::Duplicate => {}
            Refusal::EventIdsSpent => {}
            Refusal::HasConsumers(_) => {}
            Refusal::HasTriggers(_) => {}
            Refusal::IdsSpent => {}
            Refusal::InTransaction => {}
            Refusal::KeyChange(_) => {}
            Refusal::NoBatch => {}
            Refusal::NoConsumer(_) => {}
            Refusal::NoEvent => {}
            Refusal::NodeConsumer => {}
            Refusal::NodeExists(_) => {}
            Refusal::NoKey => {}
            Refusal::NoNode(_) => {}
            Refusal::NoParam(_) => {}
            Refusal::NoQueue(_) => {}
            Refusal::NoTable(_) => {}
            Refusal::NoTick(_, _) => {}
            Refusal::NotInSet(_) => {}
            Refusal::NotLeaf(_) => {}
            Refusal::NotOpen => {}
            Refusal::NotProvider(_) => {}
            Refusal::OutOfRange(_) => {}
            Refusal::QueueBusy(_) => {}
            Refusal::QueueExists(_) => {}
            Refusal::ReadOnly => {}
            Refusal::ReservedColumn(_) => {}
            Refusal::ReservedType => {}
            Refusal::SchemaDiffers(_) => {}
            Refusal::Serialize(_) => {}
            Refusal::SetQueue => {}
            Refusal::TableBusy(_) => {}
            Refusal::TableExists(_) => {}
            Refusal::TableInUse(_) => {}
            Refusal::TickTooOld(_, _) => {}
            Refusal::TooMany(_) => {}
            Refusal::TriggerExists(_) => {}
            Refusal::TwiceNamed(_) => {}
            Refusal::TxidsSpent => {}
        }
    }
}

/// Events in order.
pub type Events = Items<Event>;

/// Rows in order.
pub type Rows = Items<Row>;

/// Numbers of events, one for each of a queue's tables.
pub type Counts = Items<u64>;

/// What is shown of a queue.
#[derive(Debug, Drop)]
pub struct QueueInfo {
    /// The number of the table that events go into, from 0 on.
    pub current: u64,
    /// The id of the newest tick.
    pub last_tick: u64,
    /// The value of the event sequence.
    pub seq: u64,
    /// How many events each table has.
    pub stored: Counts,
}

/// What is shown of an active batch.
#[derive(Debug, Drop)]
pub struct BatchInfo {
    /// The name of its queue.
    pub queue: Text,
    pub consumer: Text,
    /// The ids of the ticks where it begins and ends.
    pub prev_tick: u64,
    pub tick: u64,
    /// The value of the event sequence at each.
    pub prev_seq: u64,
    pub seq: u64,
}

/// The same in one word, so that an answer is small.
#[derive(Debug, Drop)]
pub struct BoxedBatchInfo {
    info: Box<BatchInfo>,
}

impl Model for BoxedBatchInfo {
    ghost use Rattle.sky_model.specs.declared.reply.BatchInfo.{BatchInfo};

    ghost Value = { BatchInfo };

    ghost view = { λ boxed. boxed.info.value };
}

impl BoxedBatchInfo {
    /// The same.
    pub fn new(alloc: Global, info: BatchInfo) -> Result<BoxedBatchInfo, NoMemory>
        ensures { IfOk result (λ boxed. boxed ≡ info) }
    {
        let info = Box::new(alloc, info)?;
        Ok(BoxedBatchInfo { info })
    }

    /// What is shown.
    pub fn as_info(&self) -> &BatchInfo
        ensures { result.now ≡ self.now }
    {
        &self.info
    }
}

/// What is shown of a consumer.
#[derive(Debug, Drop)]
pub struct ConsumerInfo {
    /// The id of its subscription.
    pub sub: u64,
    /// The id of the tick that is its position.
    pub last_tick: u64,
    /// The id of its active batch.
    pub batch: Option<u64>,
    /// How many events wait to be retried for it.
    pub retries: u64,
}

/// Why the event tables of a queue aren't switched yet.
#[derive(Debug, Drop)]
pub enum HeldBack {
    /// A switch is pending: the commit of this transaction makes it.
    Pending(u64),
    /// The rotation period, which ends at this moment, isn't over.
    Period(i64),
    /// The second step of the last switch is missing, whose first step this transaction made.
    SecondStep(u64),
    /// A consumer's position is too old.
    Consumer {
        consumer: Text,
        /// The id of the tick that is its position, and the lower bound of that tick's snapshot.
        tick: u64,
        xmin: u64,
    },
    /// The newest tick, of this id and with this lower bound of its snapshot, is too old.
    Tick(u64, u64),
}

/// What a statement answers.
#[derive(Debug)]
pub enum Reply {
    /// `ok`
    Done,
    /// A number.
    Number(u64),
    /// `null`
    Null,
    /// `true` or `false`
    Bool(bool),
    /// `BEGIN`
    Begin,
    /// `WARNING already in a transaction`
    AlreadyInTransaction,
    /// `COMMIT`
    Commit,
    /// `ROLLBACK`
    Rollback,
    /// `WARNING no transaction`
    NoTransaction,
    /// `not waiting`
    NotWaiting,
    /// `waits for` the session that holds the key.
    Waits(SessionId),
    /// A snapshot, as its text.
    Snapshot(Snapshot),
    /// The events of a batch, and how many they are.
    Events(Events),
    /// A row.
    Row(Row),
    /// `none`
    NoRow,
    /// The rows of a table, and how many they are.
    Rows(Rows),
    /// A moment, in microseconds since the clock's start.
    Moment(i64),
    /// A queue's tables, newest tick and sequence.
    QueueInfo(QueueInfo),
    /// A batch's queue, consumer and ticks.
    BatchInfo(BoxedBatchInfo),
    /// A consumer's position, and its batch.
    ConsumerInfo(ConsumerInfo),
    /// `0` and what holds a switch of event tables back.
    HeldBack(HeldBack),
    /// The state of a leaf's table.
    State(TableState),
    /// `state`, the leaf's table of this name, and the state into which it went.
    TableMoved(Text, TableState),
    /// `copied` and how many rows.
    RowsCopied(u64),
    /// `wait` and the table for which a worker waits.
    AwaitsTable(Text),
    /// `batch`, the id of a batch that a worker has taken, and those of its opening and closing tick.
    BatchTaken(u64, u64, u64),
    /// `applied`, the id of a batch's closing tick, and how many of its events were picked.
    BatchApplied(u64, u64),
    /// `skipped` and the id of a batch's closing tick.
    BatchSkipped(u64),
    /// `finished` and the id of a batch.
    BatchFinished(u64),
    /// `idle`
    Idle,
    /// `error` and the refusal.
    Refused(Refusal),
}

impl Drop for Reply {
    fn drop(self) {
        match self {
            Reply::Done => {}
            Reply::Number(_) => {}
            Reply::Null => {}
            Reply::Bool(_) => {}
            Reply::Begin => {}
            Reply::AlreadyInTransaction => {}
            Reply::Commit => {}
            Reply::Rollback => {}
            Reply::NoTransaction => {}
            Reply::NotWaiting => {}
            Reply::Waits(_) => {}
            Reply::Snapshot(_) => {}
            Reply::Events(_) => {}
            Reply::Row(_) => {}
            Reply::NoRow => {}
            Reply::Rows(_) => {}
            Reply::Moment(_) => {}
            Reply::QueueInfo(_) => {}
            Reply::BatchInfo(_) => {}
            Reply::ConsumerInfo(_) => {}
            Reply::HeldBack(_) => {}
            Reply::State(_) => {}
            Reply::TableMoved(_, _) => {}
            Reply::RowsCopied(_) => {}
            Reply::AwaitsTable(_) => {}
            Reply::BatchTaken(_, _, _) => {}
            Reply::BatchApplied(_, _) => {}
            Reply::BatchSkipped(_) => {}
            Reply::BatchFinished(_) => {}
            Reply::Idle => {}
            Reply::Refused(_) => {}
        }
    }
}

/// Answers in order, each with the number of its session: a statement's own first, then those of the statements that it
/// unblocked.
#[derive(Debug, Drop)]
pub struct Replies {
    items: Vec<(SessionId, Reply)>,
}

impl Model for Replies {
    ghost use Rattle.std.specs.Prelude.{ℕ, List};
    ghost use Rattle.sky_model.specs.declared.reply.Reply.{Reply};

    ghost Value = { List (ℕ × Reply) };

    ghost view = { λ r. r.items.items };
}

impl Replies {
    /// No answer. It takes no memory.
    pub fn new(alloc: Global) -> Replies
        ensures { result ≡ [] }
    {
        Replies {
            items: Vec::new(alloc),
        }
    }

    /// Appends an answer.
    pub fn push(&mut self, session: SessionId, reply: Reply) -> Result<(), NoMemory>
        ensures ok { OnOk result (self.new ≡ self.old ++ (session, reply) ∷ []) }
        ensures err { OnErr result (self.new ≡ self.old) }
    {
        self.items.push((session, reply))?;
        Ok(())
    }

    /// Appends answers, in their order.
    pub fn append(&mut self, mut answers: Replies) -> Result<(), NoMemory>
        ensures ok { OnOk result (self.new ≡ self.old ++ answers) }
        ensures err { OnErr result (self.new ≡ self.old) }
    {
        self.items.append(&mut answers.items)?;
        Ok(())
    }

    /// Removes all answers. The memory is kept for the next ones.
    pub fn clear(&mut self)
        ensures { self.new ≡ [] }
    {
        self.items.clear();
    }

    /// The answers, each with the number of its session, in their order.
    pub fn as_slice(&self) -> &[(SessionId, Reply)]
        ensures { result.now ≡ self.now }
    {
        self.items.as_slice()
    }
}
