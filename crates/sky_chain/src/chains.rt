ghost use Rattle.std.specs.Prelude.{◌≡◌, ℕ, List, ◌+◌, ◌-◌, ◌<◌, ◌≤◌, [], ◌∷◌, ◌++◌, drop, max, None, Some, IsSome, IfNone, OnSome, IfOk, OnOk, OnErr};
ghost use Rattle.sky_chain.specs.Chains.{ChainsView, list_of, nodes_of, first_of, last_of, IsBetween, IsLinked, IsUnlinked, AreApart, Changes};
ghost use Rattle.sky_chain.specs.Joins.{IsAt};

use crate::links::{Ends, Link, NOWHERE, insert, join, known, take_spare};
use sky_val::NoMemory;
use std::alloc::Global;
use std::marker::Model;

/// Many lists of nodes, threaded through one vector of links.
#[derive(Debug, Drop)]
pub struct Chains {
    links: Vec<Link>,
    lists: Vec<Ends>,

    // The first of the spare nodes that have a link, and of the freed numbers of lists.
    free_node: usize,
    free_number: usize,

    // How many nodes are spare. The link of a node is made when it is first used.
    spare: usize,

    // For how many nodes there is memory.
    size: usize,
}

impl Model for Chains {
    ghost use Rattle.std.specs.Prelude.{map, vec_capacity};
    ghost use Rattle.sky_chain.specs.Chains.{ChainsView};
    ghost use Rattle.sky_chain.specs.Links.{list_in, IsKept};

    ghost Value = { ChainsView };

    ghost view = { λ c. record { lists = map (list_in c.links.items) c.lists.items; spare = c.spare; size = c.size } };

    ghost invariant = { λ c. IsKept c.links.items c.lists.items c.free_node c.free_number c.spare c.size (vec_capacity c.links) };
}

impl Chains {
    /// No list, no node. It takes no memory.
    pub fn new(alloc: Global) -> Chains
        ensures { result ≡ record { lists = []; spare = 0; size = 0 } }
    {
        Chains {
            links: Vec::new(alloc),
            lists: Vec::new(alloc),
            free_node: NOWHERE,
            free_number: NOWHERE,
            spare: 0,
            size: 0,
        }
    }

    /// A number above those of all nodes. Only `reserve` raises it. Each node is at one place of one list at most.
    pub fn size(&self) -> usize
        ensures size { result ≡ self.now.size }
        ensures apart { AreApart self.now }
    {
        self.size
    }

    /// How many nodes can be pushed before memory has to be reserved.
    pub fn spare(&self) -> usize
        ensures { result ≡ self.now.spare }
    {
        self.spare
    }

    /// Reserves memory for pushing `n` nodes, if there isn't enough. The lists stay as they are.
    pub fn reserve(&mut self, n: usize) -> Result<(), NoMemory>
        ensures lists { self.new.lists ≡ self.old.lists }
        ensures spare { OnOk result (self.new.spare ≡ max n self.old.spare) }
        ensures size { OnOk result (self.new.size + self.old.spare ≡ self.old.size + self.new.spare) }
        ensures err { OnErr result (self.new ≡ self.old) }
    {
        if n <= self.spare {
            return Ok(());
        }
        let more = n - self.spare;

        // Memory for these is there already.
        let without_link = self.size - self.links.len();
        self.links.reserve(without_link + more)?;
        self.size += more;
        self.spare = n;
        Ok(())
    }

    /// Makes a list without nodes, and gives its number, which may be a freed one.
    pub fn new_list(&mut self) -> Result<usize, NoMemory>
        ensures new { IfOk result (λ list. list_of self.old list ≡ None) }
        ensures lists { IfOk result (λ list. Changes self.old list (Some []) self.new) }
        ensures spare { self.new.spare ≡ self.old.spare }
        ensures size { self.new.size ≡ self.old.size }
        ensures err { OnErr result (self.new ≡ self.old) }
    {
        let list = self.free_number;
        if list == NOWHERE {
            let list = self.lists.len();
            self.lists.push(Ends::empty())?;
            return Ok(list);
        }
        self.free_number = self.lists[list].first;
        self.lists[list] = Ends::empty();
        Ok(list)
    }

    /// Frees the number of the list, which has no node.
    pub fn free_list(&mut self, list: usize)
        requires { list_of self.old list ≡ Some [] }
        ensures lists { Changes self.old list None self.new }
        ensures spare { self.new.spare ≡ self.old.spare }
        ensures size { self.new.size ≡ self.old.size }
    {
        self.lists[list] = Ends::freed(self.free_number);
        self.free_number = list;
    }

    /// The first node of the list.
    pub fn first(&self, list: usize) -> Option<usize>
        requires { IsSome (list_of self.now list) }
        ensures { result ≡ first_of (nodes_of self.now list) }
    {
        known(self.lists[list].first)
    }

    /// The last node of the list.
    pub fn last(&self, list: usize) -> Option<usize>
        requires { IsSome (list_of self.now list) }
        ensures { result ≡ last_of (nodes_of self.now list) }
    {
        known(self.lists[list].last)
    }

    /// The node after this one in its list.
    pub fn next(&self, node: usize) -> Option<usize>
        requires { IsLinked self.now node }
        ensures { (list : ℕ) (front back : List ℕ) → IsBetween self.now list front node back → result ≡ first_of back }
    {
        known(self.links[node].next)
    }

    /// The node before this one in its list.
    pub fn prev(&self, node: usize) -> Option<usize>
        requires { IsLinked self.now node }
        ensures { (list : ℕ) (front back : List ℕ) → IsBetween self.now list front node back → result ≡ last_of front }
    {
        known(self.links[node].prev)
    }

    /// Puts a new node at the end of the list.
    pub fn push_back(&mut self, list: usize) -> usize
        requires list { IsSome (list_of self.old list) }
        requires spare { 1 ≤ self.old.spare }
        ensures lists { Changes self.old list (Some (nodes_of self.old list ++ result ∷ [])) self.new }
        ensures spare { self.new.spare + 1 ≡ self.old.spare }
        ensures size { self.new.size ≡ self.old.size }
        ensures unlinked { IsUnlinked self.old result }
        ensures within { result < self.old.size }
    {
        let last = self.lists[list].last;
        self.push(list, last, NOWHERE)
    }

    /// Puts a new node at the front of the list.
    pub fn push_front(&mut self, list: usize) -> usize
        requires list { IsSome (list_of self.old list) }
        requires spare { 1 ≤ self.old.spare }
        ensures lists { Changes self.old list (Some (result ∷ nodes_of self.old list)) self.new }
        ensures spare { self.new.spare + 1 ≡ self.old.spare }
        ensures size { self.new.size ≡ self.old.size }
        ensures unlinked { IsUnlinked self.old result }
        ensures within { result < self.old.size }
    {
        let first = self.lists[list].first;
        self.push(list, NOWHERE, first)
    }

    /// Takes the first node out of the list, if it has one.
    pub fn pop_front(&mut self, list: usize) -> Option<usize>
        requires { IsSome (list_of self.old list) }
        ensures first { result ≡ first_of (nodes_of self.old list) }
        ensures lists { OnSome result (Changes self.old list (Some (drop 1 (nodes_of self.old list))) self.new) }
        ensures spare { OnSome result (self.new.spare ≡ self.old.spare + 1) }
        ensures size { self.new.size ≡ self.old.size }
        ensures none { IfNone result (self.new ≡ self.old) }
    {
        let node = self.first(list)?;
        self.unlink(node);
        Some(node)
    }

    /// Takes the node out of its list.
    pub fn unlink(&mut self, node: usize)
        requires { IsLinked self.old node }
        ensures lists { (list : ℕ) (front back : List ℕ) → IsBetween self.old list front node back → Changes self.old list (Some (front ++ back)) self.new }
        ensures spare { self.new.spare ≡ self.old.spare + 1 }
        ensures size { self.new.size ≡ self.old.size }
    {
        let Link { prev, next, list } = self.links[node];
        join(&mut self.links, &mut self.lists[list], prev, next);
        self.links[node] = Link::spare(self.free_node);
        self.free_node = node;
        self.spare += 1;
    }

    /// Puts a new node into the list, between two neighbours.
    fn push(&mut self, list: usize, before: usize, after: usize) -> usize
        requires place { (front : List ℕ) × (back : List ℕ) × IsAt self.old list front back before after }
        requires spare { 1 ≤ self.old.spare }
        ensures lists { (front back : List ℕ) → IsAt self.old list front back before after → Changes self.old list (Some (front ++ result ∷ back)) self.new }
        ensures spare { self.new.spare + 1 ≡ self.old.spare }
        ensures size { self.new.size ≡ self.old.size }
        ensures unlinked { IsUnlinked self.old result }
        ensures within { result < self.old.size }
    {
        let node = take_spare(&mut self.links, &mut self.free_node);
        let ends = &mut self.lists[list];
        insert(&mut self.links, ends, list, node, before, after);
        self.spare -= 1;
        node
    }
}
