ghost use Rattle.std.specs.Prelude.{◌≡◌, ◌∷◌, ◌++◌, OnOk, OnErr};
ghost use Rattle.std.specs.Fmt.{signed_decimal};
ghost use Rattle.sky_model.specs.Printed.{value_text, row_text};
ghost use Rattle.sky_print.specs.Kept.{Keeps};

use crate::event::append_quoted_word;
use itoa::Buffer;
use sky_val::{NoMemory, Val};

// If memory runs out, each of these may leave a part of its text, after all that was there before.

/// Appends a row of these values, without its session's name and the end of its line.
pub(crate) fn append_row(values: &[Val], into: &mut Vec<u8>) -> Result<(), NoMemory>
    ensures ok { OnOk result (into.new.items ≡ into.old.items ++ row_text values.now) }
    ensures kept { OnErr result (Keeps into.old.items into.new.items) }
{
    into.extend_from_slice(b"row")?;
    for value in values {
        append_value_word(value, into)?;
    }
    Ok(())
}

// A value, after a space.
fn append_value_word(value: &Val, into: &mut Vec<u8>) -> Result<(), NoMemory>
    ensures ok { OnOk result (into.new.items ≡ into.old.items ++ 32 ∷ value_text value.now) }
    ensures kept { OnErr result (Keeps into.old.items into.new.items) }
{
    match value {
        Val::Null => into.extend_from_slice(b" null"),
        Val::Int(number) => append_signed_word(*number, into),
        Val::Text(text) => append_quoted_word(text.as_text(), into),
    }
}

// A number with its sign, after a space.
fn append_signed_word(number: i64, into: &mut Vec<u8>) -> Result<(), NoMemory>
    ensures ok { OnOk result (into.new.items ≡ into.old.items ++ 32 ∷ signed_decimal number) }
    ensures kept { OnErr result (Keeps into.old.items into.new.items) }
{
    into.push(b' ')?;
    into.extend_from_slice(Buffer::new().format(number).as_bytes())
}
