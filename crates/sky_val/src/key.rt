ghost use Rattle.std.specs.Prelude.{◌≡◌, [], ◌∷◌, IfOk};
ghost use Rattle.sky_val.specs.Kept.{key_values};
ghost use Rattle.sky_val.specs.Order.{key_cmp};

use crate::NoMemory;
use crate::val::{Val, copy_values};
use std::alloc::Global;
use std::cmp::Ordering;
use std::marker::Model;
use std::slice;

/// The values of a key: most keys have one, which is kept in place and takes no memory of its own.
#[derive(Debug, Drop)]
enum KeyValues {
    One(Val),
    Listed(Vec<Val>),
}

impl KeyValues {
    fn as_slice(&self) -> &[Val]
        ensures { result.now ≡ key_values self.now }
    {
        match self {
            KeyValues::One(value) => slice::from_ref(value),
            KeyValues::Listed(values) => values.as_slice(),
        }
    }

    /// Their order. It is apart from `cmp` of keys, which has to be short.
    #[inline(never)]
    fn order(&self, others: &KeyValues) -> Ordering
        ensures { result ≡ key_cmp (key_values self.now) (key_values others.now) }
    {
        match (self, others) {
            (KeyValues::One(value), KeyValues::One(other)) => value.cmp(other),
            (values, others) => values.as_slice().cmp(others.as_slice()),
        }
    }

    fn copy(&self, alloc: Global) -> Result<KeyValues, NoMemory>
        ensures { IfOk result (λ values. key_values values ≡ key_values self.now) }
    {
        match self {
            KeyValues::One(value) => Ok(KeyValues::One(value.copy(alloc)?)),
            KeyValues::Listed(values) => Ok(KeyValues::Listed(copy_values(alloc, values)?)),
        }
    }
}

/// A key of a row: the values of the key columns, in their order.
#[derive(Debug)]
pub struct Key {
    values: KeyValues,
}

// By hand, so that it is not written out at each exit of a function that owns one.
impl Drop for Key {
    fn drop(self) {
        let Key { values: _ } = self;
    }
}

impl Model for Key {
    ghost use Rattle.std.specs.Prelude.{List};
    ghost use Rattle.sky_val.specs.declared.val.Val.{Val};
    ghost use Rattle.sky_val.specs.Kept.{key_values};

    ghost Value = { List Val };

    ghost view = { λ key. key_values key.values };
}

impl Key {
    /// The key of these values.
    pub fn new(mut values: Vec<Val>) -> Key
        ensures { result ≡ values.items }
    {
        if values.len() == 1 {
            if let Some(value) = values.pop() {
                return Key {
                    values: KeyValues::One(value),
                };
            }
        }
        Key {
            values: KeyValues::Listed(values),
        }
    }

    /// The key of one value. It takes no memory.
    pub fn one(value: Val) -> Key
        ensures { result ≡ value ∷ [] }
    {
        Key {
            values: KeyValues::One(value),
        }
    }

    /// Its values, in order.
    pub fn values(&self) -> &[Val]
        ensures { result.now ≡ self.now }
    {
        self.values.as_slice()
    }

    /// An equal key.
    pub fn copy(&self, alloc: Global) -> Result<Key, NoMemory>
        ensures { IfOk result (λ key. key ≡ self.now) }
    {
        let values = self.values.copy(alloc)?;
        Ok(Key { values })
    }
}

impl PartialEq for Key {
    ghost use Rattle.std.specs.Cmp.{partial_equiv_from_equiv};
    ghost use Rattle.std.specs.Cmp.Lexicographic.{pointwise, lists_equiv};
    ghost use Rattle.sky_val.specs.contracts.val.ValEq.TheImpl.Laws as same;

    ghost eq = { pointwise ⟦<Val as PartialEq>⟧.eq };

    ghost laws = { partial_equiv_from_equiv (lists_equiv same.laws-law) };

    fn eq(&self, other: &Key) -> bool {
        self.values() == other.values()
    }
}

impl Eq for Key {
    ghost use Rattle.std.specs.Cmp.Lexicographic.{lists_equiv};
    ghost use Rattle.sky_val.specs.contracts.val.ValEq.TheImpl.Laws as same;

    ghost laws = { lists_equiv same.laws-law };
}

impl PartialOrd for Key {
    ghost use Rattle.std.specs.Ordering.{as_partial_cmp};
    ghost use Rattle.std.specs.Cmp.{partial_order_from_agreeing_total};
    ghost use Rattle.std.proofs.Common.{refl};
    ghost use Rattle.sky_val.specs.Order.{key_cmp};
    ghost use Rattle.sky_val.specs.OrderLaws.{key_cmp-IsTotalOrder, key_eq-ties};

    ghost partial_cmp = { as_partial_cmp key_cmp };

    ghost laws = { partial_order_from_agreeing_total key_cmp key_cmp-IsTotalOrder (λ x y. refl) key_eq-ties };

    fn partial_cmp(&self, other: &Key) -> Option<Ordering> {
        Some(self.cmp(other))
    }
}

impl Ord for Key {
    ghost use Rattle.std.proofs.Common.{refl};
    ghost use Rattle.sky_val.specs.Order.{key_cmp};
    ghost use Rattle.sky_val.specs.OrderLaws.{key_cmp-IsTotalOrder, key_eq-ties};

    ghost cmp = { key_cmp };

    ghost total = { key_cmp-IsTotalOrder };

    ghost matches_partial_cmp = { λ x y. refl };

    ghost matches_eq = { key_eq-ties };

    // Always inlined, with the case of numbers first, so that a map's search among keys of one number is a short loop.
    #[inline(always)]
    fn cmp(&self, other: &Key) -> Ordering {
        match (&self.values, &other.values) {
            (KeyValues::One(Val::Int(number)), KeyValues::One(Val::Int(other))) => {
                // The search asks first whether it is greater.
                if *number > *other {
                    Ordering::Greater
                } else if *number == *other {
                    Ordering::Equal
                } else {
                    Ordering::Less
                }
            }
            (values, others) => values.order(others),
        }
    }
}
