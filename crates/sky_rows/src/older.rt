ghost use Rattle.std.specs.Prelude.{◌≡◌, ℕ, Bool, ◌<◌, ◌≤◌, ◌^◌, ◌↔◌, [], ◌∷◌, ◌++◌, None, Some, IsSome, IfSome, OnSome, slice_set, IfOk, OnOk, OnErr, IfErr, IsTrue};
ghost use Rattle.std.specs.Option.{option_copied};
ghost use Rattle.sky_txid.specs.Snapshot.{sees};
ghost use Rattle.sky_chain.specs.Chains.{IsLinked};
ghost use Rattle.sky_keys.specs.Versions.{with_version, without, version_of, newest_by, newest_but};
ghost use Rattle.sky_rows.specs.Versions.{IsOneOfEach};
ghost use Rattle.sky_rows.specs.Older.{node_at, list_in, older_in, IsFound, IsTakenOut, Changes, Same, HasRoomFor};

use sky_chain::Chains;
use sky_keys::Version;
use sky_txid::Snapshot;
use sky_val::NoMemory;
use std::alloc::Global;
use std::marker::Model;

/// The older versions of all keys, each key's in a list by number, the oldest first.
#[derive(Debug, Drop)]
pub(crate) struct Older {
    chains: Chains,

    // The version of each node; nothing if the node is in no list.
    nodes: Vec<Option<Version>>,
}

impl Model for Older {
    ghost use Rattle.sky_rows.specs.Older.{OlderView, IsFilled};

    ghost Value = { OlderView };

    ghost view = { λ o. record { chains = o.chains; nodes = o.nodes.items } };

    ghost invariant = { λ o. IsFilled o.chains o.nodes.items };
}

impl Older {
    /// None.
    pub(crate) fn new(alloc: Global) -> Older
        ensures { (l : ℕ) → list_in result l ≡ None }
    {
        Older {
            chains: Chains::new(alloc),
            nodes: Vec::new(alloc),
        }
    }

    /// Reserves memory for one version more, and makes a list for it if none is given.
    pub(crate) fn make_room(&mut self, list: Option<usize>) -> Result<usize, NoMemory>
        requires { IfSome list (λ l. IsSome (list_in self.old l)) }
        ensures ok { IfOk result (λ l. HasRoomFor self.old list self.new l) }
        ensures err { OnErr result (Same self.old self.new) }
    {
        self.grow()?;
        match list {
            Some(list) => Ok(list),
            None => self.chains.new_list(),
        }
    }

    /// Reserves memory for one version more, if there is none.
    fn grow(&mut self) -> Result<(), NoMemory>
        ensures lists { Same self.old self.new }
        ensures room { OnOk result (1 ≤ self.new.chains.spare) }
    {
        if self.chains.spare() > 0 {
            return Ok(());
        }
        self.nodes.reserve(1)?;
        self.chains.reserve(1)?;
        self.nodes.push_reserved(None);
        Ok(())
    }

    /// Adds a version to the list, as its newest.
    pub(crate) fn push(&mut self, list: usize, version: Version)
        requires list { IsSome (list_in self.old list) }
        requires room { 1 ≤ self.old.chains.spare }
        ensures { Changes self.old list (Some (older_in self.old list ++ version ∷ [])) self.new }
    {
        let node = self.chains.push_back(list);
        self.nodes[node] = Some(version);
    }

    /// The newest version in the list that isn't of this transaction.
    pub(crate) fn newest(&self, list: usize, except: Option<u64>) -> Option<&Version>
        requires { IsSome (list_in self.now list) }
        ensures { option_copied result ≡ newest_but except (older_in self.now list) }
    {
        let node = self.find(list, |txid| except != Some(txid))?;
        self.version(node)
    }

    /// The newest version in the list that the snapshot sees.
    pub(crate) fn newest_seen(&self, list: usize, snapshot: &Snapshot) -> Option<&Version>
        requires { IsSome (list_in self.now list) }
        ensures { option_copied result ≡ newest_by (sees snapshot.now) (older_in self.now list) }
    {
        let node = self.find(list, |txid| snapshot.sees(txid))?;
        self.version(node)
    }

    /// The transaction's version in the list.
    pub(crate) fn own(&self, list: usize, txid: u64) -> Option<&Version>
        requires list { IsSome (list_in self.now list) }
        requires one { IsOneOfEach (older_in self.now list) }
        ensures { option_copied result ≡ version_of txid (older_in self.now list) }
    {
        let node = self.find(list, |other| other == txid)?;
        self.version(node)
    }

    /// Puts the version in the place of the one that its transaction has in the list, or gives it back.
    pub(crate) fn replace(&mut self, list: usize, version: Version) -> Result<(), Version>
        requires list { IsSome (list_in self.old list) }
        requires one { IsOneOfEach (older_in self.old list) }
        ensures ok { OnOk result (Changes self.old list (Some (with_version version.txid version.row (older_in self.old list))) self.new) }
        ensures had { OnOk result (IsSome (version_of version.txid (older_in self.old list))) }
        ensures back { IfErr result (λ given. given ≡ version) }
        ensures none { OnErr result (version_of version.txid (older_in self.old list) ≡ None) }
        ensures err { OnErr result (self.new ≡ self.old) }
    {
        let txid = version.txid;
        let Some(node) = self.find(list, |other| other == txid) else {
            return Err(version);
        };
        // Called for its promise that no node is at two places: else another list might lose its version.
        let _size = self.chains.size();
        self.nodes[node] = Some(version);
        Ok(())
    }

    /// Removes the transaction's version from the list, if there is one.
    pub(crate) fn forget(&mut self, list: usize, txid: u64)
        requires list { IsSome (list_in self.old list) }
        requires one { IsOneOfEach (older_in self.old list) }
        ensures { Changes self.old list (Some (without txid (older_in self.old list))) self.new }
    {
        if let Some(node) = self.find(list, |other| other == txid) {
            self.take_out(node);
        }
    }

    /// Whether the list has no version.
    pub(crate) fn is_empty(&self, list: usize) -> bool
        requires { IsSome (list_in self.now list) }
        ensures { IsTrue result ↔ (older_in self.now list ≡ []) }
    {
        self.chains.first(list).is_none()
    }

    /// Gives up the list, which has no version.
    pub(crate) fn free(&mut self, list: usize)
        requires { list_in self.old list ≡ Some [] }
        ensures { Changes self.old list None self.new }
    {
        self.chains.free_list(list);
    }

    /// The newest node in the list whose version's transaction passes.
    fn find<F: Fn(u64) -> bool>(&self, list: usize, passes: F) -> Option<usize>
        requires list { IsSome (list_in self.now list) }
        requires calls { F.IsAlwaysCallable passes }
        ensures { (p : ℕ → Bool) → ((t : ℕ) (b : Bool) → t < 2 ^ 64 → F.post passes t b → b ≡ p t) → IsFound p self.now list result }
    {
        // Called for its promise that no node is at two places: by it the walk back ends.
        let _size = self.chains.size();
        let mut at = self.chains.last(list);
        while let Some(node) = at {
            if let Some(version) = self.version(node) {
                if passes(version.txid) {
                    return Some(node);
                }
            }
            at = self.chains.prev(node);
        }
        None
    }

    /// The version at the node.
    fn version(&self, node: usize) -> Option<&Version>
        ensures value { option_copied result ≡ node_at self.now.nodes node }
        ensures linked { OnSome result (IsLinked self.now.chains node) }
    {
        self.nodes.get(node)?.as_ref()
    }

    /// Removes the node from its list.
    fn take_out(&mut self, node: usize)
        requires { IsLinked self.old.chains node }
        ensures lists { IsTakenOut self.old node self.new }
        ensures nodes { self.new.nodes ≡ slice_set self.old.nodes node None }
    {
        // Called for its promise that no node is at two places: else another list might lose its version.
        let _size = self.chains.size();
        self.chains.unlink(node);
        self.nodes[node] = None;
    }
}
