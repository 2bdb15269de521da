//! Which of a leaf's tables its worker has to see to.

ghost use Rattle.std.specs.Prelude.{◌≡◌, Bool, option_copied};
ghost use Rattle.std.specs.List.{list_any};
ghost use Rattle.londiste_state.specs.declared.state.TableState.{TableState};
ghost use Rattle.sky_model.specs.ReplayMoves.{first_in, is_absent, is_handed_over, is_met, is_on_way, next_to_copy};

use londiste_state::{Leaf, TableState};
use sky_val::Text;

/// The first table in such a state.
pub(crate) fn first_in<F: Fn(TableState) -> bool>(leaf: &Leaf, is: F) -> Option<&Text>
    requires calls { F.IsAlwaysCallable is }
    ensures { (p : TableState → Bool) → ((state : TableState) (b : Bool) → F.post is state b → b ≡ p state) → option_copied result ≡ first_in p leaf.now }
{
    let table = leaf.tables().iter().find(|table| is(table.state()))?;
    Some(table.name())
}

/// The table that is to be copied next, one at a time.
pub(crate) fn next_to_copy(leaf: &Leaf) -> Option<&Text>
    ensures { option_copied result ≡ next_to_copy leaf.now }
{
    if has_one_on_way(leaf) {
        None
    } else {
        first_in(leaf, is_absent)
    }
}

/// Whether a table is on its way.
fn has_one_on_way(leaf: &Leaf) -> bool
    ensures { result ≡ list_any (λ t. is_on_way t.state) leaf.now.tables }
{
    leaf.tables().iter().any(|table| is_on_way(table.state()))
}

/// Whether a table is on its way from one that isn't copied to one in sync.
pub fn is_on_way(state: TableState) -> bool
    ensures { result ≡ is_on_way state }
{
    match state {
        TableState::Absent | TableState::Synced => false,
        _ => true,
    }
}

/// Whether a table isn't copied yet.
fn is_absent(state: TableState) -> bool
    ensures { result ≡ is_absent state }
{
    state == TableState::Absent
}

/// Whether a table is being handed over.
pub(crate) fn is_handed_over(state: TableState) -> bool
    ensures { result ≡ is_handed_over state }
{
    matches!(state, TableState::DoSync(_))
}

/// Whether a table waits for the leaf to come to its tick, and the leaf, at this one, has.
pub(crate) fn is_met(tick: u64, state: TableState) -> bool
    ensures { result ≡ is_met tick state }
{
    match state {
        TableState::WannaSync(bound) => bound <= tick,
        _ => false,
    }
}
