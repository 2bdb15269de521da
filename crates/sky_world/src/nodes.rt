//! The nodes of sets: the statements that concern the node of a name, which all databases know, or two databases.

ghost use Rattle.std.specs.Prelude.{◌≡◌, ◌<◌, ◌&&◌, ◌∷◌, ◌++◌, map, [], true, false, Some, None, Ok, IfOk, IfErr, OnOk, IfSome, MatchOption, length, option_copied, option_map, is_some};
ghost use Rattle.londiste_state.specs.Nodes.{of_leaf, table_of, LeafTable};
ghost use Rattle.sky_model.specs.declared.reply.Reply.TheVariants.{Done};
ghost use Rattle.sky_model.specs.declared.reply.Refusal.TheVariants.{NotProvider, TableInUse};
ghost use Rattle.sky_model.specs.Outcome.{found_or, refused_by};
ghost use Rattle.sky_model.specs.History.{within, node_made, noded, leaf_made};
ghost use Rattle.sky_model.specs.Stops.{StopsAs};
ghost use Rattle.sky_model.specs.Reader.{by_world};
ghost use Rattle.sky_model.specs.StepNode.{makes_root, set_queue, table_number, may_serve, node_does, adding, listing, unlisting};
ghost use Rattle.sky_model.specs.NodesOfWorld.{node_called, refuses_new, done_in, root_of, create_root, provides, same_columns, uses, first_user, create_leaf, add_table, table_state};
ghost use Rattle.sky_model.specs.WorkersOfWorld.{parts_for, remove_table, node_form};
ghost use Rattle.sky_model.specs.Calls.{world_does, node_stmt_does};
ghost use Rattle.sky_world.specs.Seen.{seen_state};
ghost use Rattle.sky_world.specs.Adds.{AddsDeed};
ghost use Rattle.sky_world.specs.Nodes.{Happened, Does, DoesAll, Stopped, Ran, as_list, StopsLike, Joined, leaf_from, provided_as};
ghost use Rattle.sky_world.specs.Whole.{IsWhole};
ghost use Rattle.sky_world.specs.Workers.{parts_with};

use crate::state::State;
use londiste_copy::copy_consumer;
use londiste_replay::is_on_way;
use londiste_state::{Leaf, Node};
use sky_model::{Limit, NodeStmt, Refusal, Replies, Reply, Stop};
use sky_store::{JoinFault, MakeRootFault, RootFault, Store};
use sky_val::{Column, NoMemory, SessionId, Text};
use std::alloc::{AllocError, Global};

impl<D: Store> State<D> {
    /// Runs a statement on nodes, unless its session may not make it.
    pub(crate) fn run_on_nodes(
        &mut self,
        who: SessionId,
        stmt: &NodeStmt,
        replies: &mut Replies,
    ) -> Result<(), NoMemory>
        requires who { who < length self.old.sessions.names }
        requires whole { IsWhole D.seen self.old }
        ensures { OnOk result (AddsDeed D.seen self.old self.new replies.old replies.new (node_stmt_does by_world (seen_state D.seen self.old) who stmt.now ((seen_state D.seen self.old).homes who))) }
    {
        let Some(database) = self.enter_outside(who, replies)? else {
            return Ok(());
        };
        self.serve(database, who, stmt, replies)?;
        Ok(())
    }

    /// Runs a statement on nodes that its session may make.
    fn serve(
        &mut self,
        database: usize,
        who: SessionId,
        stmt: &NodeStmt,
        replies: &mut Replies,
    ) -> Result<(), NoMemory>
        requires who { who < length self.old.sessions.names }
        requires database { database < length self.old.databases.names }
        requires whole { IsWhole D.seen self.old }
        ensures { OnOk result (AddsDeed D.seen self.old self.new replies.old replies.new (world_does who (node_form (seen_state D.seen self.old) database stmt.now))) }
    {
        match self.run_form(database, stmt) {
            Ok(given) => {
                answer_all(who, given, replies)?;
                Ok(())
            }
            Err(Stop::Refused(refusal)) => {
                replies.push(who, Reply::Refused(refusal))?;
                Ok(())
            }
            Err(Stop::NoMemory) => Err(AllocError),
        }
    }

    /// Runs a statement on nodes. A worker's move has its answers as a list; any other statement has one.
    fn run_form(&mut self, database: usize, stmt: &NodeStmt) -> Result<Vec<Reply>, Stop>
        requires database { database < length self.old.databases.names }
        requires whole { IsWhole D.seen self.old }
        ensures ok { IfOk result (λ given. DoesAll D.seen self.old self.new given.items (node_form (seen_state D.seen self.old) database stmt.now)) }
        ensures err { IfErr result (λ stop. Stopped D.seen self.old self.new stop (node_form (seen_state D.seen self.old) database stmt.now)) }
    {
        let alloc = self.alloc;
        match stmt {
            NodeStmt::CreateRoot { name, queue } => {
                as_list(alloc, self.create_root(database, name, queue))
            }
            NodeStmt::CreateLeaf { name, provider } => {
                as_list(alloc, self.create_leaf(database, name, provider))
            }
            NodeStmt::AddTable { name, table } => as_list(alloc, self.add_table(name, table)),
            NodeStmt::RemoveTable { name, table } => as_list(alloc, self.remove_table(name, table)),
            NodeStmt::TableState { name, table } => as_list(alloc, self.table_state(name, table)),
            NodeStmt::CopyStep { name, table } => self.copy_step(name, table),
            NodeStmt::Restart { name } => as_list(alloc, self.restart(name)),
            NodeStmt::RestartTable { name, table } => {
                as_list(alloc, self.restart_table(name, table))
            }
            NodeStmt::LondisteStep { name } => self.londiste_step(name),
        }
    }

    /// Runs `create_root`: the session's database gets a root, and the queue of its set.
    fn create_root(&mut self, database: usize, name: &Text, queue: &Text) -> Result<Reply, Stop>
        requires database { database < length self.old.databases.names }
        requires whole { IsWhole D.seen self.old }
        ensures { Ran D.seen self.old self.new result (create_root (seen_state D.seen self.old) database name.now queue.now) }
    {
        self.check_new(database, name)?;
        self.make_root(database, name, queue)
    }

    /// Whether a database may get a node of this name: no database has one of the name, and this one has none.
    fn check_new(&self, database: usize, name: &Text) -> Result<(), Stop>
        requires { database < length self.now.databases.names }
        ensures ok { OnOk result (refuses_new (seen_state D.seen self.now) database name.now ≡ Ok tt) }
        ensures bare { OnOk result (((seen_state D.seen self.now).database database).node ≡ None) }
        ensures err { IfErr result (λ stop. StopsAs stop (refuses_new (seen_state D.seen self.now) database name.now)) }
    {
        if self.find_node(name).is_some() || self.store(database).node().is_some() {
            let name = name.copy(self.alloc)?;
            return Err(Stop::Refused(Refusal::NodeExists(name)));
        }
        Ok(())
    }

    /// Makes a root in a database that has no node.
    fn make_root(&mut self, database: usize, name: &Text, queue: &Text) -> Result<Reply, Stop>
        requires database { database < length self.old.databases.names }
        requires bare { ((seen_state D.seen self.old).database database).node ≡ None }
        requires whole { IsWhole D.seen self.old }
        ensures { Ran D.seen self.old self.new result (root_of database (makes_root ((seen_state D.seen self.old).database database) (seen_state D.seen self.old).now name.now queue.now)) }
    {
        let alloc = self.alloc;
        let store = self.databases.get_mut(database);
        match store.make_root(name, queue, self.clock) {
            Ok(()) => {
                self.gets_node(database)?;
                Ok(Reply::Done)
            }
            Err(MakeRootFault::QueueExists) => {
                let queue = queue.copy(alloc)?;
                Err(Stop::Refused(Refusal::QueueExists(queue)))
            }
            Err(MakeRootFault::TooManyQueues) => {
                Err(Stop::Refused(Refusal::TooMany(Limit::Queues)))
            }
            Err(MakeRootFault::TxidsSpent) => Err(Stop::Refused(Refusal::TxidsSpent)),
            Err(MakeRootFault::NoMemory) => Err(Stop::NoMemory),
        }
    }

    /// Runs `create_leaf`: the leaf's consumer joins the queue of the provider, whose newest tick becomes the leaf's.
    fn create_leaf(&mut self, database: usize, name: &Text, provider: &Text) -> Result<Reply, Stop>
        requires database { database < length self.old.databases.names }
        requires whole { IsWhole D.seen self.old }
        ensures { Ran D.seen self.old self.new result (create_leaf (seen_state D.seen self.old) database name.now provider.now) }
    {
        let from = self.provider_for(database, name, provider)?;
        let tick = self.join(from, name)?;
        self.make_leaf(database, name, provider, tick)?;
        Ok(Reply::Done)
    }

    /// The database of a leaf's provider, if the leaf may be made.
    fn provider_for(&self, database: usize, name: &Text, provider: &Text) -> Result<usize, Stop>
        requires { database < length self.now.databases.names }
        ensures ok { IfOk result (λ from. create_leaf (seen_state D.seen self.now) database name.now provider.now ≡ leaf_from (seen_state D.seen self.now) database name.now provider.now from) }
        ensures err { IfErr result (λ stop. StopsAs stop (create_leaf (seen_state D.seen self.now) database name.now provider.now)) }
        ensures within { IfOk result (λ from. from < length self.now.databases.names) }
        ensures free { OnOk result (((seen_state D.seen self.now).database database).node ≡ None) }
        ensures provides { IfOk result (λ from. is_some (set_queue ((seen_state D.seen self.now).database from)) ≡ true) }
    {
        self.check_new(database, name)?;
        let Some((from, _)) = self.find_node(provider) else {
            let provider = provider.copy(self.alloc)?;
            return Err(Stop::Refused(Refusal::NoNode(provider)));
        };
        self.check_provider(from, provider)?;
        Ok(from)
    }

    /// Whether the node of a database is a root whose queue exists. If not, it is refused as no provider.
    pub(crate) fn check_provider(&self, database: usize, name: &Text) -> Result<(), Stop>
        requires { database < length self.now.databases.names }
        ensures ok { OnOk result (is_some (set_queue ((seen_state D.seen self.now).database database)) ≡ true) }
        ensures err { IfErr result (λ stop. StopsAs stop (found_or (set_queue ((seen_state D.seen self.now).database database)) (NotProvider name.now))) }
    {
        if !self.store(database).is_provider() {
            let name = name.copy(self.alloc)?;
            return Err(Stop::Refused(Refusal::NotProvider(name)));
        }
        Ok(())
    }

    /// A leaf's consumer joins the queue of the set in a database. The answer is the newest tick.
    fn join(&mut self, database: usize, consumer: &Text) -> Result<u64, Stop>
        requires database { database < length self.old.databases.names }
        requires provider { is_some (set_queue ((seen_state D.seen self.old).database database)) ≡ true }
        requires whole { IsWhole D.seen self.old }
        ensures { Joined D.seen self.old self.new database result consumer.now }
    {
        let alloc = self.alloc;
        let store = self.databases.get_mut(database);
        match store.join(consumer) {
            Ok(tick) => Ok(tick),
            Err(JoinFault::ConsumerExists) => {
                let consumer = consumer.copy(alloc)?;
                Err(Stop::Refused(Refusal::ConsumerExists(consumer)))
            }
            Err(JoinFault::TooManyConsumers) => {
                Err(Stop::Refused(Refusal::TooMany(Limit::Consumers)))
            }
            Err(JoinFault::IdsSpent) => Err(Stop::Refused(Refusal::IdsSpent)),
            Err(JoinFault::NoMemory) => Err(Stop::NoMemory),
        }
    }

    /// Makes a leaf in a database that has no node.
    fn make_leaf(
        &mut self,
        database: usize,
        name: &Text,
        provider: &Text,
        tick: u64,
    ) -> Result<(), NoMemory>
        requires database { database < length self.old.databases.names }
        requires free { ((seen_state D.seen self.old).database database).node ≡ None }
        requires whole { IsWhole D.seen self.old }
        ensures { OnOk result (Happened D.seen self.old self.new (within database (noded (leaf_made name.now provider.now tick)) ∷ node_made database ∷ [])) }
    {
        let store = self.databases.get_mut(database);
        store.make_leaf(name, provider, tick)?;
        self.gets_node(database)?;
        Ok(())
    }

    /// A database has a node from now on.
    fn gets_node(&mut self, database: usize) -> Result<(), NoMemory>
        requires database { database < length self.old.databases.names }
        requires whole { IsWhole D.seen self.old }
        ensures { OnOk result (Happened D.seen self.old self.new (node_made database ∷ [])) }
    {
        self.nodes.push(database)?;
        Ok(())
    }

    /// Runs `add_table`: a table of the node's database joins the node. A leaf's provider has to have it, with the same
    /// columns.
    fn add_table(&mut self, name: &Text, table: &Text) -> Result<Reply, Stop>
        requires { IsWhole D.seen self.old }
        ensures { Ran D.seen self.old self.new result (add_table (seen_state D.seen self.old) name.now table.now) }
    {
        let Some((database, node)) = self.find_node(name) else {
            let name = name.copy(self.alloc)?;
            return Err(Stop::Refused(Refusal::NoNode(name)));
        };
        let Some((number, schema)) = self.store(database).table(table) else {
            let table = table.copy(self.alloc)?;
            return Err(Stop::Refused(Refusal::NoTable(table)));
        };
        if node.has_table(table) {
            let table = table.copy(self.alloc)?;
            return Err(Stop::Refused(Refusal::AlreadyInSet(table)));
        }
        match node {
            Node::Root(root) => {
                self.check_provider(database, root.name())?;
                self.add_to_root(database, table, number)
            }
            Node::Leaf(leaf) => {
                self.check_provided(schema.columns(), leaf, table)?;
                self.add_to_leaf(database, table, number)
            }
        }
    }

    /// The node of a name, and the number of its database.
    pub(crate) fn find_node(&self, name: &Text) -> Option<(usize, &Node)>
        ensures node { MatchOption result (node_called (seen_state D.seen self.now) name.now ≡ None)
            (λ found. node_called (seen_state D.seen self.now) name.now ≡ Some (record { database = found.0; node = found.1.now })) }
        ensures there { IfSome result (λ found. ((seen_state D.seen self.now).database found.0).node ≡ Some found.1.now) }
        ensures within { IfSome result (λ found. found.0 < length self.now.databases.names) }
    {
        for database in &self.nodes {
            if let Some(node) = self.store(*database).node()
                && *name == *node.name()
            {
                return Some((*database, node));
            }
        }
        None
    }

    /// Whether a table may join a leaf: its provider has it, with these columns.
    fn check_provided(&self, columns: &[Column], leaf: &Leaf, table: &Text) -> Result<(), Stop>
        ensures ok { OnOk result (provided_as (seen_state D.seen self.now) columns.now table.now leaf.now ≡ Ok tt) }
        ensures err { IfErr result (λ stop. StopsAs stop (provided_as (seen_state D.seen self.now) columns.now table.now leaf.now)) }
    {
        let Some(provider) = self.provides(leaf.provider(), table) else {
            let table = table.copy(self.alloc)?;
            return Err(Stop::Refused(Refusal::NotInSet(table)));
        };
        match self.store(provider).table(table) {
            Some((_, schema)) if same_columns(columns, schema.columns()) => Ok(()),
            _ => {
                let table = table.copy(self.alloc)?;
                Err(Stop::Refused(Refusal::SchemaDiffers(table)))
            }
        }
    }

    /// The database of the node of this name, if the node has this table.
    pub(crate) fn provides(&self, name: &Text, table: &Text) -> Option<usize>
        ensures database { result ≡ provides table.now (node_called (seen_state D.seen self.now) name.now) }
        ensures within { IfSome result (λ database. database < length self.now.databases.names) }
    {
        let (database, node) = self.find_node(name)?;
        if node.has_table(table) {
            Some(database)
        } else {
            None
        }
    }

    /// A table joins the root of a database.
    fn add_to_root(&mut self, database: usize, table: &Text, number: u32) -> Result<Reply, Stop>
        requires database { database < length self.old.databases.names }
        requires provider { is_some (set_queue ((seen_state D.seen self.old).database database)) ≡ true }
        requires number { table_number ((seen_state D.seen self.old).database database) table.now ≡ Some number }
        requires may { may_serve (listing table.now) ((seen_state D.seen self.old).database database).node ≡ true }
        requires whole { IsWhole D.seen self.old }
        ensures { Ran D.seen self.old self.new result (done_in database Done (node_does ((seen_state D.seen self.old).database database) (listing table.now))) }
    {
        let store = self.databases.get_mut(database);
        match store.root_add(table, number) {
            Ok(None) => Ok(Reply::Done),
            Ok(Some(writer)) => Err(Stop::Refused(Refusal::TableBusy(writer))),
            Err(RootFault::TooManyTriggers) => {
                Err(Stop::Refused(Refusal::TooMany(Limit::Triggers)))
            }
            Err(RootFault::NoMemory) => Err(Stop::NoMemory),
        }
    }

    /// A table joins the leaf of a database.
    fn add_to_leaf(&mut self, database: usize, table: &Text, number: u32) -> Result<Reply, Stop>
        requires database { database < length self.old.databases.names }
        requires number { table_number ((seen_state D.seen self.old).database database) table.now ≡ Some number }
        requires may { may_serve (adding table.now) ((seen_state D.seen self.old).database database).node ≡ true }
        requires whole { IsWhole D.seen self.old }
        ensures { Ran D.seen self.old self.new result (done_in database Done (node_does ((seen_state D.seen self.old).database database) (adding table.now))) }
    {
        let store = self.databases.get_mut(database);
        match store.leaf_add(table, number) {
            Ok(None) => Ok(Reply::Done),
            Ok(Some(writer)) => Err(Stop::Refused(Refusal::TableBusy(writer))),
            Err(_) => Err(Stop::NoMemory),
        }
    }

    /// Runs `remove_table`: a table leaves the node. No leaf of a root may have it.
    fn remove_table(&mut self, name: &Text, table: &Text) -> Result<Reply, Stop>
        requires { IsWhole D.seen self.old }
        ensures { Ran D.seen self.old self.new result (remove_table (seen_state D.seen self.old) name.now table.now) }
    {
        let Some((database, node)) = self.find_node(name) else {
            let name = name.copy(self.alloc)?;
            return Err(Stop::Refused(Refusal::NoNode(name)));
        };
        if !node.has_table(table) {
            let table = table.copy(self.alloc)?;
            return Err(Stop::Refused(Refusal::NotInSet(table)));
        }
        let Some((number, _)) = self.store(database).table(table) else {
            let table = table.copy(self.alloc)?;
            return Err(Stop::Refused(Refusal::NoTable(table)));
        };
        match node {
            Node::Root(root) => {
                self.check_unused(root.name(), table)?;
                Ok(self.drop_from_root(database, table, number))
            }
            Node::Leaf(leaf) => {
                let provider = self.source(leaf, table)?;
                let consumer = self.copys_consumer(node, leaf, table)?;
                Ok(self.leave_leaf(provider, database, table, number, consumer.as_ref()))
            }
        }
    }

    /// The consumer of the copies of a leaf's tables, if the copy of this one has it.
    fn copys_consumer(
        &self,
        node: &Node,
        leaf: &Leaf,
        table: &Text,
    ) -> Result<Option<Text>, NoMemory>
        requires { node.now ≡ of_leaf leaf.now }
        ensures { IfOk result (λ consumer. parts_with consumer ≡ parts_for (Some node.now) (option_map LeafTable.state (table_of table.now leaf.now))) }
    {
        match leaf.table(table) {
            Some(table) if is_on_way(table.state()) => {
                Ok(Some(copy_consumer(self.alloc, Some(node))?))
            }
            _ => Ok(None),
        }
    }

    /// Whether no leaf of a provider has the table.
    fn check_unused(&self, provider: &Text, table: &Text) -> Result<(), Stop>
        ensures ok { OnOk result (refused_by (option_map TableInUse (first_user (seen_state D.seen self.now) provider.now table.now)) ≡ Ok tt) }
        ensures err { IfErr result (λ stop. StopsAs stop (refused_by (option_map TableInUse (first_user (seen_state D.seen self.now) provider.now table.now)))) }
    {
        match self.first_user(provider, table) {
            Some(leaf) => {
                let leaf = leaf.copy(self.alloc)?;
                Err(Stop::Refused(Refusal::TableInUse(leaf)))
            }
            None => Ok(()),
        }
    }

    /// The name of the first of a provider's leaves that has this table.
    fn first_user(&self, provider: &Text, table: &Text) -> Option<&Text>
        ensures { option_copied result ≡ first_user (seen_state D.seen self.now) provider.now table.now }
    {
        for database in &self.nodes {
            if let Some(node) = self.store(*database).node()
                && uses(node, provider, table)
            {
                return Some(node.name());
            }
        }
        None
    }

    /// A table leaves the root of a database.
    fn drop_from_root(&mut self, database: usize, table: &Text, number: u32) -> Reply
        requires database { database < length self.old.databases.names }
        requires number { table_number ((seen_state D.seen self.old).database database) table.now ≡ Some number }
        requires may { may_serve (unlisting table.now) ((seen_state D.seen self.old).database database).node ≡ true }
        requires whole { IsWhole D.seen self.old }
        ensures { Does D.seen self.old self.new result (done_in database Done (node_does ((seen_state D.seen self.old).database database) (unlisting table.now))) }
    {
        let store = self.databases.get_mut(database);
        store.root_drop(table, number);
        Reply::Done
    }

    /// Runs `table_state`: the state of a leaf's table.
    fn table_state(&self, name: &Text, table: &Text) -> Result<Reply, Stop>
        requires whole { IsWhole D.seen self.now }
        ensures { Ran D.seen self.now self.now result (table_state (seen_state D.seen self.now) name.now table.now) }
    {
        match self.find_node(name) {
            Some((_, Node::Leaf(leaf))) => match leaf.table(table) {
                Some(table) => Ok(Reply::State(table.state())),
                None => {
                    let table = table.copy(self.alloc)?;
                    Err(Stop::Refused(Refusal::NotInSet(table)))
                }
            },
            Some((_, Node::Root(_))) => {
                let name = name.copy(self.alloc)?;
                Err(Stop::Refused(Refusal::NotLeaf(name)))
            }
            None => {
                let name = name.copy(self.alloc)?;
                Err(Stop::Refused(Refusal::NoNode(name)))
            }
        }
    }
}

/// Whether a node is a leaf of this provider, and has this table.
fn uses(node: &Node, provider: &Text, table: &Text) -> bool
    ensures { result ≡ uses provider.now table.now (Some node.now) }
{
    match node {
        Node::Root(_) => false,
        Node::Leaf(leaf) => *provider == *leaf.provider() && leaf.has_table(table),
    }
}

/// The answer of a statement that has one, as a list.
fn as_list(alloc: Global, ran: Result<Reply, Stop>) -> Result<Vec<Reply>, Stop>
    ensures ok { IfOk result (λ given. as_list ran ≡ Ok given.items) }
    ensures err { IfErr result (λ stop. StopsLike ran stop) }
{
    let reply = ran?;
    Ok(single(alloc, reply)?)
}

/// One answer as a list.
fn single(alloc: Global, reply: Reply) -> Result<Vec<Reply>, NoMemory>
    ensures { IfOk result (λ given. given.items ≡ reply ∷ []) }
{
    let mut given = Vec::new(alloc);
    given.push(reply)?;
    Ok(given)
}

/// The answers of a statement, in order.
fn answer_all(who: SessionId, given: Vec<Reply>, replies: &mut Replies) -> Result<(), NoMemory>
    ensures { OnOk result (replies.new ≡ replies.old ++ map (λ reply. (who, reply)) given.items) }
{
    for reply in given {
        replies.push(who, reply)?;
    }
    Ok(())
}

/// Whether columns are the same, in order: by name, kind, and whether they are part of the key.
pub(crate) fn same_columns(columns: &[Column], others: &[Column]) -> bool
    ensures { result ≡ same_columns columns.now others.now }
{
    *columns == *others
}
