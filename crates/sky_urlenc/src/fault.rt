//! Why a text is no row.

ghost use Rattle.std.specs.Prelude.{◌≡◌};

use sky_val::Val;
use std::alloc::{AllocError, AllocFailed};
use thiserror::Error;

/// Why a text is no row of the table: the first fault, and the byte place where its piece starts.
#[derive(Clone, Copy, Debug, PartialEq, Eq, Error)]
pub enum DecodeFault {
    /// The name or the value, decoded, isn't UTF-8.
    #[error("the piece at byte {0} is no text")]
    BadText(usize),
    /// No column has the name.
    #[error("the piece at byte {0} is for no column of the table")]
    UnknownColumn(usize),
    /// An earlier piece is for the same column.
    #[error("the piece at byte {0} is for the column of an earlier one")]
    TwiceColumn(usize),
    /// The piece gives Null to a column of the key.
    #[error("the piece at byte {0} gives Null to a column of the key")]
    NullKey(usize),
    /// The column takes numbers, and the value is no number that fits 64 bits with its sign, written as `0`, or as a
    /// digit from 1 to 9 and digits, with `-` before it or not.
    #[error("the piece at byte {0} gives no number to a column of numbers")]
    BadInt(usize),
    /// The first column that no piece is for, by its place.
    #[error("no piece is for the column at {0}")]
    MissingColumn(usize),
    /// Out of memory.
    #[error("out of memory")]
    NoMemory,
}

impl From<AllocError> for DecodeFault {
    ghost use Rattle.sky_urlenc.specs.declared.fault.DecodeFault.TheVariants.{NoMemory};

    ghost from_gives = { λ _ fault. fault ≡ NoMemory };

    fn from(_: AllocError) -> DecodeFault {
        DecodeFault::NoMemory
    }
}

impl From<AllocFailed<Val>> for DecodeFault {
    ghost use Rattle.sky_urlenc.specs.declared.fault.DecodeFault.TheVariants.{NoMemory};

    ghost from_gives = { λ _ fault. fault ≡ NoMemory };

    fn from(_: AllocFailed<Val>) -> DecodeFault {
        DecodeFault::NoMemory
    }
}
