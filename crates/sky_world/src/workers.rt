//! The workers of leaves: the statements that make their moves and restart them, and what a table that leaves a leaf
//! leaves behind.

ghost use Rattle.std.specs.Prelude.{◌≡◌, ◌<◌, [], ◌∷◌, true, false, Ok, Some, IfOk, IfErr, IfSome, OnOk, OnErr, Err, is_some, option_copied, option_map, length, None, ◌==◌};
ghost use Rattle.londiste_state.specs.Nodes.{of_leaf, tables_of, is_among};
ghost use Rattle.sky_model.specs.Hands.{CopyHand, copy_in};
ghost use Rattle.sky_model.specs.History.{in_hand, batch_in_hand};
ghost use Rattle.sky_model.specs.Nodes.{is_leaf};
ghost use Rattle.sky_model.specs.Stops.{StopsAs};
ghost use Rattle.sky_model.specs.StepNode.{set_queue, table_number, may_serve, parting, removing, letting_go};
ghost use Rattle.sky_model.specs.NodesOfWorld.{columns_called};
ghost use Rattle.sky_model.specs.WorkersOfWorld.{source, source_alike, are_alike, call_facts, calls_facts, moves, move_facts, copy_step, provider_of, restart, restart_table, restarting, londiste_step};
ghost use Rattle.londiste_copy.specs.Copying.{SameTable};
ghost use Rattle.sky_world.specs.Seen.{seen_state};
ghost use Rattle.sky_world.specs.Nodes.{Happened, Does, Ran, DoesAll, Stopped};
ghost use Rattle.sky_world.specs.Whole.{IsWhole};
ghost use Rattle.sky_world.specs.Workers.{AreAlike, copies, replays, leaf_called, leaf_with, leaving, lets_go_with, parts_with, stop_of, stopping};

use crate::nodes::same_columns;
use crate::state::State;
use londiste_calls::WorkerFault;
use londiste_copy::{CopiedTable, CopyWorker};
use londiste_replay::ReplayWorker;
use londiste_state::{Leaf, Node};
use sky_databases::two_of;
use sky_model::{Limit, Refusal, Reply, Stop};
use sky_store::Store;
use sky_val::{NoMemory, Text};

impl<D: Store> State<D> {
    /// Runs `copy_step`: one move of the worker that copies the table.
    pub(crate) fn copy_step(&mut self, name: &Text, table: &Text) -> Result<Vec<Reply>, Stop>
        requires { IsWhole D.seen self.old }
        ensures ok { IfOk result (λ replies. DoesAll D.seen self.old self.new replies.items (copy_step (seen_state D.seen self.old) name.now table.now)) }
        ensures err { IfErr result (λ stop. Stopped D.seen self.old self.new stop (copy_step (seen_state D.seen self.old) name.now table.now)) }
    {
        let (database, leaf) = self.leaf_with(name, table)?;
        let (provider, (from, to)) = self.source_alike(database, leaf, table)?;
        let table = CopiedTable {
            name: table,
            from,
            to,
        };
        self.move_copy(provider, database, &table)
    }

    /// One move of the worker that copies a table of a leaf's database from its provider's.
    fn move_copy(
        &mut self,
        provider: usize,
        database: usize,
        table: &CopiedTable,
    ) -> Result<Vec<Reply>, Stop>
        requires provider { provider < length self.old.databases.names }
        requires database { database < length self.old.databases.names }
        requires apart { (provider == database) ≡ false }
        requires root { is_some (set_queue ((seen_state D.seen self.old).database provider)) ≡ true }
        requires same { SameTable ((seen_state D.seen self.old).database provider) ((seen_state D.seen self.old).database database) table.now.name.now table.now.from table.now.to }
        requires whole { IsWhole D.seen self.old }
        ensures ok { IfOk result (λ replies. DoesAll D.seen self.old self.new replies.items (copies (seen_state D.seen self.old) provider database table.now.name.now)) }
        ensures err { IfErr result (λ stop. Stopped D.seen self.old self.new stop (copies (seen_state D.seen self.old) provider database table.now.name.now)) }
    {
        let place = self.hands.place_for(database, table.name)?;
        let hand = self.hands.take_at(place);
        let mut worker = CopyWorker::with_hand(self.alloc, hand);
        let (from, to) = two_of(self.databases.stores_mut(), provider, database);
        let moved = worker.step(from, to, table);
        self.hands.put_at(place, worker.into_hand());
        stopping(moved)
    }

    /// Runs `londiste_step`: one move of the leaf's worker.
    pub(crate) fn londiste_step(&mut self, name: &Text) -> Result<Vec<Reply>, Stop>
        requires { IsWhole D.seen self.old }
        ensures ok { IfOk result (λ replies. DoesAll D.seen self.old self.new replies.items (londiste_step (seen_state D.seen self.old) name.now)) }
        ensures err { IfErr result (λ stop. Stopped D.seen self.old self.new stop (londiste_step (seen_state D.seen self.old) name.now)) }
    {
        let (database, leaf) = self.leaf_called(name)?;
        let provider = self.provider_of(leaf)?;
        self.move_leaf(provider, database)
    }

    /// One move of the worker of a database's leaf, by its provider's database.
    fn move_leaf(&mut self, provider: usize, database: usize) -> Result<Vec<Reply>, Stop>
        requires provider { provider < length self.old.databases.names }
        requires database { database < length self.old.databases.names }
        requires apart { (provider == database) ≡ false }
        requires root { is_some (set_queue ((seen_state D.seen self.old).database provider)) ≡ true }
        requires leaf { is_leaf ((seen_state D.seen self.old).database database).node ≡ true }
        requires whole { IsWhole D.seen self.old }
        ensures ok { IfOk result (λ replies. DoesAll D.seen self.old self.new replies.items (replays (seen_state D.seen self.old) provider database)) }
        ensures err { IfErr result (λ stop. Stopped D.seen self.old self.new stop (replays (seen_state D.seen self.old) provider database)) }
    {
        let hand = self.batches.get(database);
        let mut worker = ReplayWorker::with_hand(self.alloc, hand);
        let (from, to) = two_of(self.databases.stores_mut(), provider, database);
        let moved = worker.step(from, to);
        let kept = self.batches.set(database, worker.into_hand());
        if_kept(moved, kept)
    }

    /// Runs `restart` of a leaf: what its worker has in hand is lost, so its batch comes again.
    pub(crate) fn restart(&mut self, name: &Text) -> Result<Reply, Stop>
        requires { IsWhole D.seen self.old }
        ensures { Ran D.seen self.old self.new result (restart (seen_state D.seen self.old) name.now) }
    {
        let (database, _) = self.leaf_called(name)?;
        self.empty_batch(database);
        Ok(Reply::Done)
    }

    /// The worker of a database's leaf has nothing in hand from now on.
    fn empty_batch(&mut self, database: usize)
        requires { IsWhole D.seen self.old }
        ensures { Happened D.seen self.old self.new (batch_in_hand database None ∷ []) }
    {
        self.batches.empty(database);
    }

    /// Runs `restart` of a leaf's table: what its worker has in hand is lost, so a copy that runs is given up.
    pub(crate) fn restart_table(&mut self, name: &Text, table: &Text) -> Result<Reply, Stop>
        requires { IsWhole D.seen self.old }
        ensures { Ran D.seen self.old self.new result (restart_table (seen_state D.seen self.old) name.now table.now) }
    {
        let (database, leaf) = self.leaf_with(name, table)?;
        let provider = self.source(leaf, table)?;
        self.restart_copy(provider, database, table);
        Ok(Reply::Done)
    }

    /// What the worker that copies a table has in hand is lost.
    fn restart_copy(&mut self, provider: usize, database: usize, table: &Text)
        requires provider { provider < length self.old.databases.names }
        requires database { database < length self.old.databases.names }
        requires apart { (provider == database) ≡ false }
        requires whole { IsWhole D.seen self.old }
        ensures { Happened D.seen self.old self.new (move_facts (seen_state D.seen self.old) provider database (in_hand database table.now) (restarting table.now ((seen_state D.seen self.old).hands database table.now))) }
    {
        let hand = self.hands.take(database, table);
        let mut worker = CopyWorker::with_hand(self.alloc, hand);
        let (from, to) = two_of(self.databases.stores_mut(), provider, database);
        worker.restart(from, to, table);
    }

    /// A table leaves a leaf: the snapshot that is held for its copy is let go, its consumer leaves, if it has one, and a
    /// copy that runs is given up.
    pub(crate) fn leave_leaf(
        &mut self,
        provider: usize,
        database: usize,
        table: &Text,
        number: u32,
        consumer: Option<&Text>,
    ) -> Reply
        requires provider { provider < length self.old.databases.names }
        requires database { database < length self.old.databases.names }
        requires apart { (provider == database) ≡ false }
        requires root { is_some (set_queue ((seen_state D.seen self.old).database provider)) ≡ true }
        requires number { table_number ((seen_state D.seen self.old).database database) table.now ≡ Some number }
        requires may { may_serve (removing table.now) ((seen_state D.seen self.old).database database).node ≡ true }
        requires whole { IsWhole D.seen self.old }
        ensures { Does D.seen self.old self.new result (moves (seen_state D.seen self.old) provider database (in_hand database table.now) (Ok (leaving table.now (option_copied consumer.entry) ((seen_state D.seen self.old).hands database table.now)))) }
    {
        let hold = self.take_hand(database, table);
        self.let_go_if(provider, hold);
        self.part_if(provider, consumer);
        self.drop_from_leaf(database, table, number);
        Reply::Done
    }

    /// The worker that copies a table has nothing in hand from now on. If it had a copy, the number of the copy's hold is
    /// given.
    fn take_hand(&mut self, database: usize, table: &Text) -> Option<u64>
        requires { IsWhole D.seen self.old }
        ensures hold { result ≡ option_map CopyHand.hold (copy_in ((seen_state D.seen self.old).hands database table.now)) }
        ensures happened { Happened D.seen self.old self.new (in_hand database table.now None ∷ []) }
    {
        let hand = self.hands.take(database, table)?;
        hand.hold()
    }

    /// A snapshot that is held in a database is let go, if there is one.
    fn let_go_if(&mut self, database: usize, hold: Option<u64>)
        requires database { database < length self.old.databases.names }
        requires whole { IsWhole D.seen self.old }
        ensures { Happened D.seen self.old self.new (calls_facts (seen_state D.seen self.old) database (lets_go_with hold)) }
    {
        if let Some(hold) = hold {
            self.let_go(database, hold);
        }
    }

    /// A leaf's consumer leaves the queue of the set in a database, if there is one.
    fn part_if(&mut self, database: usize, consumer: Option<&Text>)
        requires database { database < length self.old.databases.names }
        requires root { is_some (set_queue ((seen_state D.seen self.old).database database)) ≡ true }
        requires whole { IsWhole D.seen self.old }
        ensures { Happened D.seen self.old self.new (calls_facts (seen_state D.seen self.old) database (parts_with (option_copied consumer.entry))) }
    {
        if let Some(consumer) = consumer {
            self.part(database, consumer);
        }
    }

    /// A snapshot that is held in a database is let go.
    fn let_go(&mut self, database: usize, hold: u64)
        requires database { database < length self.old.databases.names }
        requires whole { IsWhole D.seen self.old }
        ensures { Happened D.seen self.old self.new (call_facts (seen_state D.seen self.old) database (letting_go hold)) }
    {
        let store = self.databases.get_mut(database);
        store.let_go(hold);
    }

    /// A leaf's consumer leaves the queue of the set in a database.
    fn part(&mut self, database: usize, consumer: &Text)
        requires database { database < length self.old.databases.names }
        requires root { is_some (set_queue ((seen_state D.seen self.old).database database)) ≡ true }
        requires whole { IsWhole D.seen self.old }
        ensures { Happened D.seen self.old self.new (call_facts (seen_state D.seen self.old) database (parting consumer.now)) }
    {
        let store = self.databases.get_mut(database);
        store.part(consumer);
    }

    /// A table leaves the leaf of a database.
    fn drop_from_leaf(&mut self, database: usize, table: &Text, number: u32)
        requires database { database < length self.old.databases.names }
        requires number { table_number ((seen_state D.seen self.old).database database) table.now ≡ Some number }
        requires may { may_serve (removing table.now) ((seen_state D.seen self.old).database database).node ≡ true }
        requires whole { IsWhole D.seen self.old }
        ensures { Happened D.seen self.old self.new (call_facts (seen_state D.seen self.old) database (removing table.now)) }
    {
        let store = self.databases.get_mut(database);
        store.leaf_drop(table, number);
    }

    /// The leaf of a name, and the number of its database.
    fn leaf_called(&self, name: &Text) -> Result<(usize, &Leaf), Stop>
        ensures ok { IfOk result (λ found. leaf_called (seen_state D.seen self.now) name.now ≡ Ok (found.0, found.1.now)) }
        ensures err { IfErr result (λ stop. StopsAs stop (leaf_called (seen_state D.seen self.now) name.now)) }
        ensures there { IfOk result (λ found. ((seen_state D.seen self.now).database found.0).node ≡ Some (of_leaf found.1.now)) }
        ensures within { IfOk result (λ found. found.0 < length self.now.databases.names) }
    {
        match self.find_node(name) {
            Some((database, Node::Leaf(leaf))) => Ok((database, leaf)),
            Some((_, Node::Root(_))) => {
                let name = name.copy(self.alloc)?;
                Err(Stop::Refused(Refusal::NotLeaf(name)))
            }
            None => {
                let name = name.copy(self.alloc)?;
                Err(Stop::Refused(Refusal::NoNode(name)))
            }
        }
    }

    /// The same, if the leaf has a table.
    fn leaf_with(&self, name: &Text, table: &Text) -> Result<(usize, &Leaf), Stop>
        ensures ok { IfOk result (λ found. leaf_with (seen_state D.seen self.now) name.now table.now ≡ Ok (found.0, found.1.now)) }
        ensures err { IfErr result (λ stop. StopsAs stop (leaf_with (seen_state D.seen self.now) name.now table.now)) }
        ensures there { IfOk result (λ found. ((seen_state D.seen self.now).database found.0).node ≡ Some (of_leaf found.1.now)) }
        ensures among { IfOk result (λ found. is_among table.now (tables_of (of_leaf found.1.now)) ≡ true) }
        ensures within { IfOk result (λ found. found.0 < length self.now.databases.names) }
    {
        let (database, leaf) = self.leaf_called(name)?;
        if !leaf.has_table(table) {
            let table = table.copy(self.alloc)?;
            return Err(Stop::Refused(Refusal::NotInSet(table)));
        }
        Ok((database, leaf))
    }

    /// The database of a leaf's provider.
    fn provider_of(&self, leaf: &Leaf) -> Result<usize, Stop>
        ensures ok { IfOk result (λ provider. provider_of (seen_state D.seen self.now) leaf.now ≡ Ok provider) }
        ensures err { IfErr result (λ stop. StopsAs stop (provider_of (seen_state D.seen self.now) leaf.now)) }
        ensures root { IfOk result (λ provider. is_some (set_queue ((seen_state D.seen self.now).database provider)) ≡ true) }
        ensures within { IfOk result (λ provider. provider < length self.now.databases.names) }
    {
        let Some((provider, _)) = self.find_node(leaf.provider()) else {
            let provider = leaf.provider().copy(self.alloc)?;
            return Err(Stop::Refused(Refusal::NoNode(provider)));
        };
        self.check_provider(provider, leaf.provider())?;
        Ok(provider)
    }

    /// The database from which a table of a leaf is copied.
    pub(crate) fn source(&self, leaf: &Leaf, table: &Text) -> Result<usize, Stop>
        ensures ok { IfOk result (λ provider. source (seen_state D.seen self.now) leaf.now table.now ≡ Ok provider) }
        ensures err { IfErr result (λ stop. StopsAs stop (source (seen_state D.seen self.now) leaf.now table.now)) }
        ensures root { IfOk result (λ provider. is_some (set_queue ((seen_state D.seen self.now).database provider)) ≡ true) }
        ensures within { IfOk result (λ provider. provider < length self.now.databases.names) }
    {
        let Some(provider) = self.provides(leaf.provider(), table) else {
            let table = table.copy(self.alloc)?;
            return Err(Stop::Refused(Refusal::NotInSet(table)));
        };
        self.check_provider(provider, leaf.provider())?;
        Ok(provider)
    }

    /// The same, if both databases have the table with the same columns, and its numbers in them.
    fn source_alike(
        &self,
        database: usize,
        leaf: &Leaf,
        table: &Text,
    ) -> Result<(usize, (u32, u32)), Stop>
        requires { database < length self.now.databases.names }
        ensures ok { IfOk result (λ found. source_alike (seen_state D.seen self.now) database leaf.now table.now ≡ Ok found.0) }
        ensures err { IfErr result (λ stop. StopsAs stop (source_alike (seen_state D.seen self.now) database leaf.now table.now)) }
        ensures root { IfOk result (λ found. is_some (set_queue ((seen_state D.seen self.now).database found.0)) ≡ true) }
        ensures alike { IfOk result (λ found. AreAlike ((seen_state D.seen self.now).database found.0) ((seen_state D.seen self.now).database database) table.now found.1) }
        ensures within { IfOk result (λ found. found.0 < length self.now.databases.names) }
    {
        let provider = self.source(leaf, table)?;
        match self.numbers_alike(provider, database, table) {
            Some(numbers) => Ok((provider, numbers)),
            None => {
                let table = table.copy(self.alloc)?;
                Err(Stop::Refused(Refusal::SchemaDiffers(table)))
            }
        }
    }

    /// The numbers of a table in two databases, if both have it, with the same columns.
    fn numbers_alike(&self, provider: usize, database: usize, table: &Text) -> Option<(u32, u32)>
        requires provider { provider < length self.now.databases.names }
        requires database { database < length self.now.databases.names }
        ensures found { is_some result ≡ are_alike (columns_called table.now ((seen_state D.seen self.now).database provider)) (columns_called table.now ((seen_state D.seen self.now).database database)) }
        ensures alike { IfSome result (λ numbers. AreAlike ((seen_state D.seen self.now).database provider) ((seen_state D.seen self.now).database database) table.now numbers) }
    {
        let (from, schema) = self.store(provider).table(table)?;
        let (to, other) = self.store(database).table(table)?;
        if same_columns(schema.columns(), other.columns()) {
            Some((from, to))
        } else {
            None
        }
    }
}

/// What a worker's move gave, if what is in hand could be kept.
fn if_kept(
    moved: Result<Vec<Reply>, WorkerFault>,
    kept: Result<(), NoMemory>,
) -> Result<Vec<Reply>, Stop>
    ensures kept { OnOk kept (result ≡ stopping moved) }
    ensures lost { OnErr kept (result ≡ Err Stop.NoMemory) }
{
    kept?;
    stopping(moved)
}

/// What a worker's move gave, as a statement gives it.
fn stopping(moved: Result<Vec<Reply>, WorkerFault>) -> Result<Vec<Reply>, Stop>
    ensures { result ≡ stopping moved }
{
    match moved {
        Ok(replies) => Ok(replies),
        Err(fault) => Err(stop_of(fault)),
    }
}

/// Why a statement stopped, by its worker's fault.
fn stop_of(fault: WorkerFault) -> Stop
    ensures { result ≡ stop_of fault }
{
    match fault {
        WorkerFault::TooManyConsumers => Stop::Refused(Refusal::TooMany(Limit::Consumers)),
        WorkerFault::IdsSpent => Stop::Refused(Refusal::IdsSpent),
        WorkerFault::TxidsSpent => Stop::Refused(Refusal::TxidsSpent),
        WorkerFault::NoMemory => Stop::NoMemory,
    }
}
