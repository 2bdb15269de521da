ghost use Rattle.std.specs.Prelude.{◌≡◌, IfOk};

use crate::NoMemory;
use crate::boxed_text::BoxedText;
use crate::column::ColKind;
use std::alloc::Global;
use std::cmp::Ordering;

/// A value in a column of a row.
#[derive(Debug, PartialEq, Eq, Drop)]
pub enum Val {
    /// No value. It comes before every other.
    Null,
    /// A number. It comes before every text.
    Int(i64),
    /// A text.
    Text(BoxedText),
}

impl Val {
    ghost use Rattle.sky_val.specs.Schemas.{is_null, is_of_kind};

    /// Whether there is no value.
    pub fn is_null(&self) -> bool
        ensures { result ≡ is_null self.now }
    {
        matches!(self, Val::Null)
    }

    /// Whether the value is of this kind. Null is of every kind.
    pub fn is_of_kind(&self, kind: ColKind) -> bool
        ensures { result ≡ is_of_kind kind self.now }
    {
        match (kind, self) {
            (_, Val::Null) => true,
            (ColKind::Int, Val::Int(_)) => true,
            (ColKind::Text, Val::Text(_)) => true,
            _ => false,
        }
    }

    /// An equal value.
    // Always inlined, so that the values of a row are copied without a call if they are numbers.
    #[inline(always)]
    pub fn copy(&self, alloc: Global) -> Result<Val, NoMemory>
        ensures { IfOk result (λ val. val ≡ self.now) }
    {
        match self {
            Val::Null => Ok(Val::Null),
            Val::Int(number) => Ok(Val::Int(*number)),
            Val::Text(text) => Ok(Val::Text(text.copy(alloc)?)),
        }
    }
}

/// A list of equal values.
pub(crate) fn copy_values(alloc: Global, values: &[Val]) -> Result<Vec<Val>, NoMemory>
    ensures { IfOk result (λ copies. copies.items ≡ values.now) }
{
    let mut copies = Vec::with_capacity(alloc, values.len())?;
    for value in values {
        copies.push_reserved(value.copy(alloc)?);
    }
    Ok(copies)
}

impl PartialOrd for Val {
    ghost use Rattle.std.specs.Ordering.{as_partial_cmp};
    ghost use Rattle.std.specs.Cmp.{partial_order_from_agreeing_total};
    ghost use Rattle.std.proofs.Common.{refl};
    ghost use Rattle.sky_val.specs.Order.{val_cmp};
    ghost use Rattle.sky_val.specs.OrderLaws.{val_cmp-IsTotalOrder, val_eq-ties};

    ghost partial_cmp = { as_partial_cmp val_cmp };

    ghost laws = { partial_order_from_agreeing_total val_cmp val_cmp-IsTotalOrder (λ x y. refl) val_eq-ties };

    fn partial_cmp(&self, other: &Val) -> Option<Ordering> {
        Some(self.cmp(other))
    }
}

impl Ord for Val {
    ghost use Rattle.std.proofs.Common.{refl};
    ghost use Rattle.sky_val.specs.Order.{val_cmp};
    ghost use Rattle.sky_val.specs.OrderLaws.{val_cmp-IsTotalOrder, val_eq-ties};

    ghost cmp = { val_cmp };

    ghost total = { val_cmp-IsTotalOrder };

    ghost matches_partial_cmp = { λ x y. refl };

    ghost matches_eq = { val_eq-ties };

    fn cmp(&self, other: &Val) -> Ordering {
        match (self, other) {
            (Val::Null, Val::Null) => Ordering::Equal,
            (Val::Null, _) => Ordering::Less,
            (_, Val::Null) => Ordering::Greater,
            (Val::Int(number), Val::Int(other)) => number.cmp(other),
            (Val::Int(_), Val::Text(_)) => Ordering::Less,
            (Val::Text(_), Val::Int(_)) => Ordering::Greater,
            (Val::Text(text), Val::Text(other)) => text.as_text().cmp(other.as_text()),
        }
    }
}
