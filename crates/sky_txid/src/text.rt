ghost use Rattle.std.specs.Prelude.{◌≡◌, ◌<◌, [], ◌∷◌, ◌++◌, map, length, take, MatchOption, IfSome, IfOk, OnOk, OnErr};
ghost use Rattle.std.specs.Fmt.{decimal};
ghost use Rattle.std.specs.List.{join_with_byte};
ghost use Rattle.sky_txid.specs.Snapshot.{SnapshotView};
ghost use Rattle.sky_txid.specs.SnapshotText.{colon, comma, snapshot_text, parts_at, parse_number, parse_list, parse_snapshot};

use crate::snapshot::SnapshotFault;
use itoa::Buffer;
use sky_val::NoMemory;
use std::alloc::Global;

/// Appends the number in decimal; at `Err`, nothing.
fn append_number(number: u64, into: &mut Vec<u8>) -> Result<(), NoMemory>
    ensures ok { OnOk result (into.new.items ≡ into.old.items ++ decimal number) }
    ensures err { OnErr result (into.new.items ≡ into.old.items) }
{
    into.extend_from_slice(Buffer::new().format(number).as_bytes())
}

// Out of memory, each of the next two may leave a part of its text, after all that was there
// before.

/// Appends the ids in decimal, with commas between them.
fn append_list(ids: &[u64], into: &mut Vec<u8>) -> Result<(), NoMemory>
    ensures ok { OnOk result (into.new.items ≡ into.old.items ++ join_with_byte comma (map decimal ids.now)) }
    ensures kept { OnErr result (take (length into.old.items) into.new.items ≡ into.old.items) }
{
    for (place, id) in ids.iter().enumerate() {
        if place > 0 {
            into.push(b',')?;
        }
        append_number(*id, into)?;
    }
    Ok(())
}

/// Appends the text of the snapshot that has these parts.
pub(crate) fn append_parts(
    xmin: u64,
    xmax: u64,
    xip: &[u64],
    into: &mut Vec<u8>,
) -> Result<(), NoMemory>
    ensures ok { let snapshot : SnapshotView = record { xmin = xmin; xmax = xmax; xip = xip.now } in
        OnOk result (into.new.items ≡ into.old.items ++ snapshot_text snapshot) }
    ensures kept { OnErr result (take (length into.old.items) into.new.items ≡ into.old.items) }
{
    append_number(xmin, into)?;
    into.push(b':')?;
    append_number(xmax, into)?;
    into.push(b':')?;
    append_list(xip, into)
}

/// The bytes before the first such byte, and those after it.
fn cut(text: &[u8], byte: u8) -> Option<(&[u8], &[u8])>
    ensures parts { MatchOption result (parts_at byte text.now ≡ text.now ∷ [])
        (λ cut. parts_at byte text.now ≡ cut.0.now ∷ parts_at byte cut.1.now) }
    ensures shorter { IfSome result (λ cut. length cut.1.now < length text.now) }
{
    for (place, other) in text.iter().enumerate() {
        if *other == byte {
            return Some((&text[..place], &text[place + 1..]));
        }
    }
    None
}

/// The three parts around two colons, if there are no more.
pub(crate) fn three_parts(text: &[u8]) -> Option<(&[u8], &[u8], &[u8])>
    ensures { MatchOption result (parse_snapshot text.now ≡ None)
        (λ parts. parts_at colon text.now ≡ parts.0.now ∷ parts.1.now ∷ parts.2.now ∷ []) }
{
    let (first, rest) = cut(text, b':')?;
    let (second, third) = cut(rest, b':')?;
    match cut(third, b':') {
        None => Some((first, second, third)),
        Some(_) => None,
    }
}

/// The number that one or more digits write, if it is below `2^64`.
pub(crate) fn number(digits: &[u8]) -> Option<u64>
    ensures { result ≡ parse_number digits.now }
{
    if digits.is_empty() {
        return None;
    }
    let mut value: u64 = 0;
    for digit in digits {
        if !digit.is_ascii_digit() {
            return None;
        }
        value = value
            .checked_mul(10)?
            .checked_add(u64::from(*digit - b'0'))?;
    }
    Some(value)
}

/// The numbers between commas; none in an empty text.
pub(crate) fn numbers(alloc: Global, text: &[u8]) -> Result<Vec<u64>, SnapshotFault>
    ensures ok { IfOk result (λ ids. parse_list text.now ≡ Some ids.items) }
    ensures bad { result ≡ Err SnapshotFault.BadSnapshot → parse_list text.now ≡ None }
{
    let mut ids = Vec::new(alloc);
    if text.is_empty() {
        return Ok(ids);
    }
    let mut rest = text;
    while let Some((item, behind)) = cut(rest, b',') {
        let id = number(item).ok_or(SnapshotFault::BadSnapshot)?;
        ids.push(id)?;
        rest = behind;
    }
    let id = number(rest).ok_or(SnapshotFault::BadSnapshot)?;
    ids.push(id)?;
    Ok(ids)
}
