//! Which events of a batch a leaf picks.

ghost use Rattle.std.specs.Prelude.{◌≡◌, not, false, option_copied, option_map, unwrap_or};
ghost use Rattle.sky_txid.specs.Snapshot.{sees};
ghost use Rattle.sky_model.specs.StepApply.{is_of_table, has_synced, kept_snapshot, picks};
ghost use Rattle.londiste_calls.specs.Picks.{pick_of};

use crate::change::is_change;
use londiste_state::{Leaf, TableState};
use pgq_tables::Recorded;
use sky_txid::Snapshot;
use sky_val::Text;

/// Which events of a batch a leaf picks, and whose tick is stored once they are applied.
#[derive(Debug, Drop)]
pub enum Pick {
    /// Those of the tables that are in sync. The tick is the leaf's.
    Synced,
    /// Those of one table that its copy's snapshot doesn't see. The tick is the table's.
    CopyOf(Text),
}

impl Pick {
    /// Whether a leaf picks an event.
    pub fn picks(&self, leaf: &Leaf, event: &Recorded<'_>) -> bool
        ensures { result ≡ picks leaf.now (pick_of self.now) event.now }
    {
        match self {
            Pick::Synced => is_change(event) && is_of_synced(leaf, event),
            Pick::CopyOf(table) => {
                is_change(event)
                    && is_of_table(table, event)
                    && is_unseen(leaf, table, event.ev_txid)
            }
        }
    }
}

/// Whether an event is one of a table of the leaf that is in sync.
fn is_of_synced(leaf: &Leaf, event: &Recorded<'_>) -> bool
    ensures { result ≡ unwrap_or (option_map (has_synced leaf.now) event.now.ev_extra1) false }
{
    match event.ev_extra1 {
        Some(name) => has_synced(leaf, name),
        None => false,
    }
}

/// Whether a leaf has a table of that name that is in sync.
fn has_synced(leaf: &Leaf, name: &Text) -> bool
    ensures { result ≡ has_synced leaf.now name.now }
{
    match leaf.table(name) {
        Some(table) => matches!(table.state(), TableState::Synced),
        None => false,
    }
}

/// Whether an event is one of the table of a name.
fn is_of_table(table: &Text, event: &Recorded<'_>) -> bool
    ensures { result ≡ is_of_table table.now event.now }
{
    match event.ev_extra1 {
        Some(name) => *table == *name,
        None => false,
    }
}

/// Whether a leaf's table was copied, under a snapshot that doesn't see a transaction.
fn is_unseen(leaf: &Leaf, table: &Text, txid: u64) -> bool
    ensures { result ≡ unwrap_or (option_map (λ s. not (sees s txid)) (kept_snapshot leaf.now table.now)) false }
{
    match kept_snapshot(leaf, table) {
        Some(snapshot) => !snapshot.sees(txid),
        None => false,
    }
}

/// The snapshot under which a leaf's table was copied, if it was.
fn kept_snapshot<'a>(leaf: &'a Leaf, table: &Text) -> Option<&'a Snapshot>
    ensures { option_copied result ≡ kept_snapshot leaf.now table.now }
{
    match leaf.table(table) {
        Some(table) => table.snapshot(),
        None => None,
    }
}
