use std::alloc::{AllocError, AllocFailed};
use thiserror::Error;

/// Why a line can't be read.
#[derive(Clone, Copy, Debug, PartialEq, Eq, Error)]
pub enum LineCause {
    #[error("not UTF-8")]
    NotUtf8,
    /// No line of the grammar begins with the line's words up to this one, of which the first is 1.
    #[error("bad word {0}")]
    BadWord(usize),
    #[error("out of memory")]
    NoMemory,
}

impl From<AllocError> for LineCause {
    ghost use Rattle.std.specs.Prelude.{◌≡◌};
    ghost use Rattle.sky_script.specs.declared.cause.LineCause.TheVariants.{NoMemory};

    ghost from_gives = { λ _ cause. cause ≡ NoMemory };

    fn from(_: AllocError) -> LineCause {
        LineCause::NoMemory
    }
}

impl<T: Drop> From<AllocFailed<T>> for LineCause {
    ghost use Rattle.std.specs.Prelude.{◌≡◌};
    ghost use Rattle.sky_script.specs.declared.cause.LineCause.TheVariants.{NoMemory};

    ghost from_gives = { λ _ cause. cause ≡ NoMemory };

    fn from(_: AllocFailed<T>) -> LineCause {
        LineCause::NoMemory
    }
}
