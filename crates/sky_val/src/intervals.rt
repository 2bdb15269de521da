//! Intervals as they are written: a number and a unit of time.

ghost use Rattle.std.specs.Prelude.{◌≡◌, ◌≤◌, ◌||◌, not, bytes_eq, position, Some, IfSome};
ghost use Rattle.std.specs.Char.{is_ascii_digit};
ghost use Rattle.sky_val.specs.Intervals as spec;

use crate::numbers::number_of;

/// The longest interval, in microseconds.
const LONGEST: u64 = 10_000_000_000_000;

/// The microseconds of the unit of this name.
fn unit_of(name: &[u8]) -> Option<u64>
    ensures { result ≡ spec.unit_of name.now }
{
    if is_named(name, b"us", b"microsecond", b"microseconds") {
        return Some(1);
    }
    if is_named(name, b"ms", b"millisecond", b"milliseconds") {
        return Some(1_000);
    }
    if is_named(name, b"s", b"second", b"seconds") {
        return Some(1_000_000);
    }
    if is_named(name, b"min", b"minute", b"minutes") {
        return Some(60_000_000);
    }
    if is_named(name, b"h", b"hour", b"hours") {
        return Some(3_600_000_000);
    }
    if is_named(name, b"d", b"day", b"days") {
        return Some(86_400_000_000);
    }
    None
}

fn is_named(name: &[u8], short: &[u8], long: &[u8], plural: &[u8]) -> bool
    ensures { result ≡ (bytes_eq name.now short.now || (bytes_eq name.now long.now || bytes_eq name.now plural.now)) }
{
    name == short || name == long || name == plural
}

fn after_space(text: &[u8]) -> &[u8]
    ensures { result.now ≡ spec.after_space text.now }
{
    match text.split_first() {
        Some((b' ', others)) => others,
        _ => text,
    }
}

/// So many of a unit, in microseconds, if that is at most the longest interval.
fn interval_with(count: u64, unit: u64) -> Option<u64>
    ensures { result ≡ spec.interval_with (Some count) (Some unit) }
{
    match count.checked_mul(unit) {
        Some(time) if time <= LONGEST => Some(time),
        _ => None,
    }
}

/// The place at which the digits at the start end, if something follows them.
fn digits_end(text: &[u8]) -> Option<usize>
    ensures { result ≡ position (λ b. not (is_ascii_digit b)) text.now }
{
    text.iter().position(|byte| !byte.is_ascii_digit())
}

/// The interval that a text writes, in microseconds.
pub fn interval_of(text: &[u8]) -> Option<u64>
    ensures value { result ≡ spec.interval_of text.now }
    ensures most { IfSome result (λ time. time ≤ spec.longest_interval) }
{
    let end = digits_end(text)?;
    let (digits, others) = text.split_at(end);
    let count = number_of(digits, LONGEST)?;
    let unit = unit_of(after_space(others))?;
    interval_with(count, unit)
}
