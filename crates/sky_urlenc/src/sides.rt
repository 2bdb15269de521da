//! The sides of a piece, decoded.

ghost use Rattle.std.specs.Prelude.{◌≡◌, ◌≢◌, true, false, IfOk, OnOk, IfErr};
ghost use Rattle.std.specs.Str.{is_utf8};
ghost use Rattle.form_urlencoded.specs.Form.{decode};

use crate::decoded::decoded_text;
use crate::fault::DecodeFault;
use sky_val::Text;
use std::alloc::Global;

/// The text of a side, decoded, of a piece that starts at a place.
pub(crate) fn side_text(alloc: Global, side: &[u8], start: usize) -> Result<Text, DecodeFault>
    ensures text { IfOk result (λ text. text ≡ decode side.now) }
    ensures characters { OnOk result (is_utf8 (decode side.now) ≡ true) }
    ensures refused { IfErr result (λ fault. fault ≢ DecodeFault.NoMemory
        → (is_utf8 (decode side.now) ≡ false) × (fault ≡ DecodeFault.BadText start)) }
{
    let text = decoded_text(alloc, side)?;
    match text {
        Some(text) => Ok(text),
        None => Err(DecodeFault::BadText(start)),
    }
}
