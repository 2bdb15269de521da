//! Texts as they are kept.

ghost use Rattle.std.specs.Prelude.{◌≡◌, IfOk, string_bytes};

use sky_val::{NoMemory, Text};
use std::alloc::Global;

/// The most bytes of a text that takes no memory of its own.
pub(crate) const MOST_IN_PLACE: usize = 22;

/// The text that a string holds. If it is short, the string's memory is given back.
pub(crate) fn kept(alloc: Global, string: String) -> Result<Text, NoMemory>
    ensures { IfOk result (λ text. text ≡ string_bytes string) }
{
    if string.len() <= MOST_IN_PLACE {
        Text::from_str(alloc, string.as_str())
    } else {
        Ok(Text::from_string(string))
    }
}
