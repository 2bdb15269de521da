//! Numbers as they are written: digits, the first of them a zero only if it is alone.

ghost use Rattle.std.specs.Prelude.{◌≡◌, ◌+◌, ◌-◌, ◌*◌, ◌^◌, ◌≤◌, IsTrue, MatchOption};
ghost use Rattle.std.specs.Char.{is_ascii_digit};
ghost use Rattle.std.specs.List.{list_all};
ghost use Rattle.sky_val.specs.Numbers as spec;

/// How far below zero a number may be.
const FARTHEST_BELOW: u64 = 1 << 63;

fn all_digits(bytes: &[u8]) -> bool
    ensures { result ≡ list_all is_ascii_digit bytes.now }
{
    bytes.iter().all(|byte| byte.is_ascii_digit())
}

fn is_number(text: &[u8]) -> bool
    ensures { result ≡ spec.is_number text.now }
{
    match text.split_first() {
        Some((first, others)) => all_digits(text) && (others.is_empty() || *first != b'0'),
        None => false,
    }
}

/// The number that a digit writes after one, if it fits 64 bits.
fn with_digit(number: u64, digit: u8) -> Option<u64>
    requires { IsTrue (is_ascii_digit digit) }
    ensures { let with = number * 10 + (digit - 48) in MatchOption result (2 ^ 64 ≤ with) (λ more. more ≡ with) }
{
    let tens = number.checked_mul(10)?;
    tens.checked_add(u64::from(digit - b'0'))
}

/// The number that digits write, if it fits 64 bits.
fn number_from(digits: &[u8]) -> Option<u64>
    requires { IsTrue (list_all is_ascii_digit digits.now) }
    ensures { let whole = spec.number_from 0 digits.now in
        MatchOption result (2 ^ 64 ≤ whole) (λ number. number ≡ whole) }
{
    let mut number = 0;
    for digit in digits {
        number = with_digit(number, *digit)?;
    }
    Some(number)
}

/// The number that digits write, if they write one and it is at most `most`.
pub fn number_of(text: &[u8], most: u64) -> Option<u64>
    ensures { result ≡ spec.number_of most text.now }
{
    if !is_number(text) {
        return None;
    }
    match number_from(text) {
        Some(number) if number <= most => Some(number),
        _ => None,
    }
}

/// The number at this distance below zero, if there is one: not for 0, nor below the least number of 64 bits.
fn below_zero(distance: u64) -> Option<i64>
    requires { distance ≤ 2 ^ 63 }
    ensures { result ≡ spec.below_zero distance }
{
    if distance == 0 {
        return None;
    }
    Some(-((distance - 1) as i64) - 1)
}

/// The number that a text writes, with `-` before one below zero.
pub fn int_of(text: &[u8]) -> Option<i64>
    ensures { result ≡ spec.int_of text.now }
{
    match text.split_first() {
        Some((b'-', digits)) => below_zero(number_of(digits, FARTHEST_BELOW)?),
        _ => Some(number_of(text, FARTHEST_BELOW - 1)? as i64),
    }
}
