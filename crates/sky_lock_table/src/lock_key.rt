ghost use Rattle.std.specs.Prelude.{◌≡◌, IfOk};
ghost use Rattle.std.specs.Ordering.{eq_by_cmp};
ghost use Rattle.sky_lock_table.specs.Order.{lock_cmp};

use sky_val::{Key, NoMemory};
use std::alloc::Global;
use std::cmp::Ordering;

/// A key of a table, which a session may hold.
#[derive(Debug, PartialEq, Eq, Drop)]
pub struct LockKey {
    pub table: u32,
    pub key: Key,
}

impl PartialOrd for LockKey {
    ghost use Rattle.std.specs.Ordering.{as_partial_cmp};
    ghost use Rattle.std.specs.Cmp.{partial_order_from_agreeing_total};
    ghost use Rattle.std.proofs.Common.{refl};
    ghost use Rattle.sky_lock_table.specs.Order.{lock_cmp};
    ghost use Rattle.sky_lock_table.specs.OrderLaws.{lock_cmp-IsTotalOrder, lock_eq-ties};

    ghost partial_cmp = { as_partial_cmp lock_cmp };

    ghost laws = { partial_order_from_agreeing_total lock_cmp lock_cmp-IsTotalOrder (λ x y. refl) lock_eq-ties };

    fn partial_cmp(&self, other: &LockKey) -> Option<Ordering> {
        Some(self.cmp(other))
    }
}

impl Ord for LockKey {
    ghost use Rattle.std.proofs.Common.{refl};
    ghost use Rattle.sky_lock_table.specs.Order.{lock_cmp};
    ghost use Rattle.sky_lock_table.specs.OrderLaws.{lock_cmp-IsTotalOrder, lock_eq-ties};

    ghost cmp = { lock_cmp };

    ghost total = { lock_cmp-IsTotalOrder };

    ghost matches_partial_cmp = { λ x y. refl };

    ghost matches_eq = { lock_eq-ties };

    // Always inlined, as that of keys is, so that a map's search is a short loop.
    #[inline(always)]
    fn cmp(&self, other: &LockKey) -> Ordering {
        if self.table == other.table {
            self.key.cmp(&other.key)
        } else {
            self.table.cmp(&other.table)
        }
    }
}

impl LockKey {
    /// Whether it is the other key.
    #[inline(always)]
    pub(crate) fn is_same(&self, other: &LockKey) -> bool
        ensures { result ≡ eq_by_cmp lock_cmp self.now other.now }
    {
        self.cmp(other) == Ordering::Equal
    }

    /// An equal key.
    pub fn copy(&self, alloc: Global) -> Result<LockKey, NoMemory>
        ensures { IfOk result (λ key. key ≡ self.now) }
    {
        Ok(LockKey {
            table: self.table,
            key: self.key.copy(alloc)?,
        })
    }
}
