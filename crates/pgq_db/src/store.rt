//! What a database does for a world and for the workers of leaves: for its own node, and for those of other databases.
//! A caller decides which of these calls a statement makes, and in which databases.

use crate::db::Db;
use londiste_calls::{
    ApplyFault, CopyFault, FetchFault, JoinFault, MakeRootFault, Pick, RootFault,
};
use londiste_state::{Node, TableState};
use pgq_parts::{
    add_consumer, add_leaf_table, add_root_table, check_set_queue, delete_all, end_leaf_copy,
    idles_at, keys_now, make_leaf, make_root, remove_consumer, remove_leaf_table,
    remove_root_table, set_leaf_state, set_trigger, under_keys, write_all,
};
use sky_model::{DaemonPart, DbStmt, Limit, Refusal, Replies};
use sky_row_store::RowStore;
use sky_store::{NodeBatch, Store};
use sky_txid::Snapshot;
use sky_val::{Key, NoMemory, Row, Schema, SessionId, Text};
use std::alloc::Global;

impl<R: RowStore> Store for Db<R> {
    ghost use Rattle.pgq_parts.specs.Seen.{seen_database};

    ghost seen = { seen_database };

    fn new(alloc: Global) -> Db<R> {
        Db::new(alloc)
    }

    fn step_into(
        &mut self,
        who: SessionId,
        stmt: &DbStmt,
        now: i64,
        replies: &mut Replies,
    ) -> Result<(), NoMemory> {
        Db::step_into(self, who, stmt, now, replies)
    }

    fn enter(&mut self, who: SessionId, outside: bool) -> Result<Option<Refusal>, NoMemory> {
        Db::enter(self, who, outside)
    }

    fn fail_into(
        &mut self,
        who: SessionId,
        now: i64,
        replies: &mut Replies,
    ) -> Result<(), NoMemory> {
        pgq_turn::fail_into(self, who, now, replies)
    }

    fn waits(&self, who: SessionId) -> bool {
        self.rows.waits(who)
    }

    fn daemon(&mut self, part: DaemonPart, now: i64) -> Result<(), NoMemory> {
        match part {
            DaemonPart::Tick => self.make_ticks(now),
            DaemonPart::Retry => self.retry_events(now),
            DaemonPart::Maintain => self.rotate(now),
        }
    }

    fn is_idle_until(&self, moment: i64) -> bool {
        idles_at(&self.queues, moment)
    }

    fn node(&self) -> Option<&Node> {
        self.node.own.as_ref()
    }

    fn is_provider(&self) -> bool {
        self.set_queue().is_some()
    }

    fn table(&self, name: &Text) -> Option<(u32, &Schema)> {
        self.rows.table(name)
    }

    fn leaf_table(&self, name: &Text) -> u32 {
        match self.rows.table(name) {
            Some((number, _)) => number,
            None => unreachable!(),
        }
    }

    fn schema(&self, table: u32) -> &Schema {
        self.rows.schema(table)
    }

    fn make_root(&mut self, name: &Text, queue: &Text, now: i64) -> Result<(), MakeRootFault> {
        check_set_queue(&self.queues, queue)?;
        let set = queue.copy(self.alloc)?;
        let txid = self.rows.begin_worker()?;
        self.rows.end_worker(txid, true);
        self.make_queue(now, txid, set)?;
        make_root(self.alloc, &mut self.node.own, name, queue)?;
        Ok(())
    }

    fn make_leaf(&mut self, name: &Text, provider: &Text, tick: u64) -> Result<(), NoMemory> {
        make_leaf(self.alloc, &mut self.node.own, name, provider, tick)
    }

    fn leaf_add(&mut self, table: &Text, number: u32) -> Result<Option<u64>, NoMemory> {
        if let Some(txid) = self.rows.least_writer(number) {
            return Ok(Some(txid));
        }
        let name = table.copy(self.alloc)?;
        add_leaf_table(&mut self.node.own, name)?;
        self.rows.set_read_only(number, true);
        Ok(None)
    }

    fn leaf_drop(&mut self, table: &Text, number: u32) {
        self.give_up_copy(number);
        remove_leaf_table(&mut self.node.own, table);
        self.rows.set_read_only(number, false);
    }

    fn set_state(&mut self, table: &Text, number: u32, to: TableState) {
        self.give_up_copy(number);
        set_leaf_state(&mut self.node.own, table, to);
    }

    fn root_add(&mut self, table: &Text, number: u32) -> Result<Option<u64>, RootFault> {
        let Some(queue) = self.set_queue() else {
            return Ok(None);
        };
        if self.queues.trigger_count(number) >= Limit::Triggers.most() {
            return Err(RootFault::TooManyTriggers);
        }
        if let Some(txid) = self.rows.least_writer(number) {
            return Ok(Some(txid));
        }
        let name = table.copy(self.alloc)?;
        add_root_table(&mut self.node.own, name)?;
        let trigger = set_trigger(self.alloc, number, queue);
        let schema = self.rows.schema(number);
        if let Err(no_memory) = self.queues.trace(table, schema, trigger) {
            remove_root_table(&mut self.node.own, table);
            return Err(RootFault::from(no_memory));
        }
        Ok(None)
    }

    fn root_drop(&mut self, table: &Text, number: u32) {
        remove_root_table(&mut self.node.own, table);
        self.queues.untrace(number);
    }

    fn join(&mut self, consumer: &Text) -> Result<u64, JoinFault> {
        let Some(queue) = self.set_queue() else {
            unreachable!()
        };
        if self.queues.queue(queue).has_consumer(consumer) {
            return Err(JoinFault::ConsumerExists);
        }
        if self.queues.queue(queue).consumer_count() >= Limit::Consumers.most() {
            return Err(JoinFault::TooManyConsumers);
        }
        if self.queues.last_sub() == u64::MAX {
            return Err(JoinFault::IdsSpent);
        }
        let newest = self.queues.queue(queue).ticks().newest().id();
        let name = consumer.copy(self.alloc)?;
        add_consumer(&mut self.node.own, name)?;
        if let Err(no_memory) = self.queues.register(queue, consumer, newest) {
            // It wasn't among the leaves' consumers before, since these are registered.
            remove_consumer(&mut self.node.own, consumer);
            return Err(JoinFault::from(no_memory));
        }
        Ok(newest)
    }

    fn is_full(&self, consumer: &Text) -> bool {
        let queue = self.queues.queue(self.provided_queue());
        queue.consumer_count() >= Limit::Consumers.most() && !queue.has_consumer(consumer)
    }

    fn has_joined(&self, consumer: &Text) -> bool {
        let queue = self.queues.queue(self.provided_queue());
        queue.has_consumer(consumer)
    }

    fn has_batch(&self, id: u64) -> bool {
        self.queues.batch(id).is_some()
    }

    fn sub_ids_spent(&self) -> bool {
        self.queues.last_sub() == u64::MAX
    }

    fn part(&mut self, consumer: &Text) {
        let queue = self.provided_queue();
        if self.queues.unregister(queue, consumer).is_none() {
            return;
        }
        remove_consumer(&mut self.node.own, consumer);
    }

    fn fetch(&mut self, consumer: &Text) -> Result<Option<NodeBatch>, FetchFault> {
        let queue = self.provided_queue();
        let Some(sub) = self.subscription(queue, consumer) else {
            unreachable!()
        };
        let prev = sub.position();
        if let Some(batch) = sub.active() {
            return Ok(Some(NodeBatch {
                id: batch.id,
                prev,
                cur: batch.cur,
            }));
        }
        let Some(next) = self.queues.queue(queue).ticks().next_after(prev) else {
            return Ok(None);
        };
        let cur = next.id();
        if self.queues.last_batch() == u64::MAX {
            return Err(FetchFault::IdsSpent);
        }
        self.queues.open_batch(queue, consumer, cur)?;
        Ok(Some(NodeBatch {
            id: self.queues.last_batch(),
            prev,
            cur,
        }))
    }

    fn finish(&mut self, batch: u64) {
        self.queues.close_batch(batch);
    }

    fn tick_snapshot(&self, tick: u64) -> Option<&Snapshot> {
        let queue = self.queues.queue(self.provided_queue());
        let tick = queue.ticks().get(tick)?;
        Some(tick.snapshot())
    }

    fn hold(&mut self) -> Result<u64, NoMemory> {
        let snapshot = self.rows.snapshot_now()?;
        self.node.holds.hold(snapshot)
    }

    fn let_go(&mut self, hold: u64) {
        self.node.holds.let_go(hold);
    }

    fn is_held(&self, hold: u64) -> bool {
        self.node.holds.get(hold).is_some()
    }

    fn held_snapshot(&self, hold: u64) -> &Snapshot {
        match self.node.holds.get(hold) {
            Some(snapshot) => snapshot,
            None => unreachable!(),
        }
    }

    fn held_rows(
        &self,
        hold: u64,
        table: u32,
        after: Option<&Key>,
        most: usize,
    ) -> Result<Vec<Row>, NoMemory> {
        let snapshot = self.held_snapshot(hold);
        self.rows.rows_under(snapshot, table, after, most)
    }

    fn copy_begin(&mut self, table: u32) -> Result<(), CopyFault> {
        let keys = keys_now(&self.rows, table)?;
        let txid = self.rows.begin_worker()?;
        delete_all(&mut self.rows, txid, table, keys)?;
        self.node.copies.begin(table, txid)?;
        Ok(())
    }

    fn copy_rows(&mut self, table: u32, rows: Vec<Row>) -> Result<(), NoMemory> {
        let Some(txid) = self.copy_of(table) else {
            return Ok(());
        };
        let keyed = under_keys(self.alloc, self.rows.schema(table), rows)?;
        write_all(&mut self.rows, txid, table, keyed)
    }

    fn copy_end(
        &mut self,
        table: &Text,
        number: u32,
        snapshot: &Snapshot,
        tick: u64,
    ) -> Result<(), NoMemory> {
        let Some(txid) = self.copy_of(number) else {
            return Ok(());
        };
        end_leaf_copy(self.alloc, &mut self.node.own, table, snapshot, tick)?;
        self.commit_copy(txid);
        Ok(())
    }

    fn copy_drop(&mut self, table: u32) {
        self.give_up_copy(table);
    }

    fn copy_of(&self, table: u32) -> Option<u64> {
        self.node.copies.txid_of(table)
    }

    fn apply_batch(
        &mut self,
        provider: &mut Db<R>,
        batch: u64,
        pick: &Pick,
        tick: u64,
    ) -> Result<u64, ApplyFault> {
        Db::apply_batch(self, provider, batch, pick, tick)
    }
}
