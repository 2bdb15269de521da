//! Texts from sides of pieces, in which `+` and `%` may be read as other bytes.

ghost use Rattle.std.specs.Prelude.{◌≡◌, map, is_some, IfOk, IfSome};
ghost use Rattle.std.specs.Cow.{cow_slice_items};
ghost use Rattle.std.specs.Str.{is_utf8};
ghost use Rattle.form_urlencoded.specs.Form.{plus_to_space, decode};
ghost use Rattle.sky_urlenc.specs.Plain.{is_plain};

use percent_encoding::percent_decode;
use sky_val::{NoMemory, Text, TextFault};
use std::alloc::{AllocError, Global};
use std::borrow::CowSlice;

/// The text that a side stands for, if that is UTF-8.
pub(crate) fn decoded_text(alloc: Global, side: &[u8]) -> Result<Option<Text>, NoMemory>
    ensures text { IfOk result (λ text. IfSome text (λ text. text ≡ decode side.now)) }
    ensures characters { IfOk result (λ text. is_some text ≡ is_utf8 (decode side.now)) }
{
    if is_plain(side) {
        return text_of(alloc, side);
    }
    let bytes = decoded(alloc, side)?;
    text_of(alloc, &bytes)
}

/// Whether the bytes stand for themselves.
pub(crate) fn is_plain(bytes: &[u8]) -> bool
    ensures { result ≡ is_plain bytes.now }
{
    bytes.iter().all(|byte| *byte != b'+' && *byte != b'%')
}

/// The text that the bytes are, if they are UTF-8.
fn text_of(alloc: Global, bytes: &[u8]) -> Result<Option<Text>, NoMemory>
    ensures text { IfOk result (λ text. IfSome text (λ text. text ≡ bytes.now)) }
    ensures characters { IfOk result (λ text. is_some text ≡ is_utf8 bytes.now) }
{
    match Text::from_bytes(alloc, bytes) {
        Ok(text) => Ok(Some(text)),
        Err(TextFault::NotUtf8) => Ok(None),
        Err(TextFault::NoMemory) => Err(AllocError),
    }
}

/// The bytes of a side, decoded. It takes memory only if they differ from the side.
fn decoded(alloc: Global, side: &[u8]) -> Result<CowSlice<'_, u8>, NoMemory>
    ensures { IfOk result (λ bytes. cow_slice_items bytes ≡ decode side.now) }
{
    match with_spaces(alloc, side)? {
        CowSlice::Borrowed(bytes) => percent_decode(bytes).into_cow(alloc),
        CowSlice::Owned(spaced) => match percent_decode(&spaced).into_cow(alloc)? {
            CowSlice::Owned(bytes) => Ok(CowSlice::Owned(bytes)),
            CowSlice::Borrowed(_) => Ok(CowSlice::Owned(spaced)),
        },
    }
}

/// The bytes with a space for each `+`.
fn with_spaces(alloc: Global, side: &[u8]) -> Result<CowSlice<'_, u8>, NoMemory>
    ensures { IfOk result (λ bytes. cow_slice_items bytes ≡ map plus_to_space side.now) }
{
    if !side.contains(&b'+') {
        return Ok(CowSlice::Borrowed(side));
    }
    let spaced = side
        .iter()
        .map(|byte| if *byte == b'+' { b' ' } else { *byte });
    Ok(CowSlice::Owned(spaced.collect(alloc)?))
}
