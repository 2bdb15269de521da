//! The tests of single words.

ghost use Rattle.std.specs.Prelude.{◌≡◌, ◌≤◌, ◌==◌, ◌&&◌, not, true, false, Some, IfOk, IfSome, length, take, option_map, string_bytes};
ghost use Rattle.std.specs.List.{list_all};
ghost use Rattle.sky_model.specs.Kinds as kind;

use sky_val::{NoMemory, Text, interval_of};
use std::alloc::Global;

/// The most bytes of a name, and of two with a dot between.
const LONGEST_NAME: usize = 63;

/// The longest time by which the clock moves at once: a day, in microseconds.
const LONGEST_ADVANCE: u64 = 86_400_000_000;

fn begins_name(byte: u8) -> bool
    ensures { result ≡ kind.begins_name byte }
{
    byte.is_ascii_lowercase() || byte == b'_'
}

/// Of each byte whether it may be in a name after the first. Looking it up takes fewer steps than comparing.
const CONTINUES_NAME: [bool; 256] = [
    false, false, false, false, false, false, false, false, false, false, false, false, false,
    false, false, false, false, false, false, false, false, false, false, false, false, false,
    false, false, false, false, false, false, false, false, false, false, false, false, false,
    false, false, false, false, false, false, false, false, false, true, true, true, true, true,
    true, true, true, true, true, false, false, false, false, false, false, false, false, false,
    false, false, false, false, false, false, false, false, false, false, false, false, false,
    false, false, false, false, false, false, false, false, false, false, false, false, false,
    false, false, true, false, true, true, true, true, true, true, true, true, true, true, true,
    true, true, true, true, true, true, true, true, true, true, true, true, true, true, true,
    false, false, false, false, false, false, false, false, false, false, false, false, false,
    false, false, false, false, false, false, false, false, false, false, false, false, false,
    false, false, false, false, false, false, false, false, false, false, false, false, false,
    false, false, false, false, false, false, false, false, false, false, false, false, false,
    false, false, false, false, false, false, false, false, false, false, false, false, false,
    false, false, false, false, false, false, false, false, false, false, false, false, false,
    false, false, false, false, false, false, false, false, false, false, false, false, false,
    false, false, false, false, false, false, false, false, false, false, false, false, false,
    false, false, false, false, false, false, false, false, false, false, false, false, false,
    false, false, false, false, false, false, false, false, false, false, false, false, false,
    false, false, false,
];

fn continues_name(byte: u8) -> bool
    ensures { result ≡ kind.continues_name byte }
{
    CONTINUES_NAME[byte as usize]
}

// Never inlined, and so are the loops of the tests below: among other code each would take more steps a byte.
#[inline(never)]
fn all_continue_name(bytes: &[u8]) -> bool
    ensures { result ≡ list_all kind.continues_name bytes.now }
{
    bytes.iter().all(|byte| continues_name(*byte))
}

/// A place before which each byte may be in a name: of the first byte that may not, or of the end.
#[inline(never)]
pub(crate) fn name_end(bytes: &[u8]) -> usize
    ensures within { result ≤ length bytes.now }
    ensures before { list_all kind.continues_name (take result bytes.now) ≡ true }
{
    for (i, byte) in bytes.iter().enumerate() {
        if !continues_name(*byte) {
            return i;
        }
    }
    bytes.len()
}

/// Whether bytes are a name that may each be in one.
pub(crate) fn is_whole_name(bytes: &[u8]) -> bool
    requires { list_all kind.continues_name bytes.now ≡ true }
    ensures { result ≡ kind.is_name bytes.now }
{
    match bytes.split_first() {
        Some((first, _)) => bytes.len() <= LONGEST_NAME && begins_name(*first),
        None => false,
    }
}

fn is_identifier(word: &[u8]) -> bool
    ensures { result ≡ kind.is_identifier word.now }
{
    match word.split_first() {
        Some((first, others)) => begins_name(*first) && all_continue_name(others),
        None => false,
    }
}

pub(crate) fn is_name(word: &str) -> bool
    ensures { result ≡ kind.is_name word.now }
{
    word.len() <= LONGEST_NAME && is_identifier(word.as_bytes())
}

/// The place of the first byte that is this one.
pub(crate) fn first_place(byte: u8, word: &[u8]) -> Option<usize>
    ensures { result ≡ kind.first_place byte word.now }
{
    word.iter().position(|other| *other == byte)
}

fn is_one_name_or_two(word: &[u8]) -> bool
    ensures { result ≡ kind.names_around (kind.first_place 46 word.now) word.now }
{
    match first_place(b'.', word) {
        Some(dot) => is_identifier(&word[..dot]) && is_identifier(&word[dot + 1..]),
        None => is_identifier(word),
    }
}

pub(crate) fn is_dotted(word: &str) -> bool
    ensures { result ≡ kind.is_dotted word.now }
{
    word.len() <= LONGEST_NAME && is_one_name_or_two(word.as_bytes())
}

/// Whether a byte between quotes is itself, and no quote.
fn stands_for_itself(byte: u8) -> bool
    ensures { result ≡ (not (byte == 39) && kind.is_text_byte byte) }
{
    // Most bytes are above a quote, so that they take one comparison.
    byte > b'\'' || (byte != b'\'' && byte != b'\n' && byte != 0)
}

/// A place before which each byte stands for itself: of the first byte that doesn't, or of the end.
#[inline(never)]
pub(crate) fn text_end(bytes: &[u8]) -> usize
    ensures within { result ≤ length bytes.now }
    ensures before { list_all (λ b. not (b == 39) && kind.is_text_byte b) (take result bytes.now) ≡ true }
{
    for (i, byte) in bytes.iter().enumerate() {
        if !stands_for_itself(*byte) {
            return i;
        }
    }
    bytes.len()
}

#[inline(never)]
fn all_stand_for_themselves(bytes: &[u8]) -> bool
    ensures { result ≡ list_all (λ b. not (b == 39) && kind.is_text_byte b) bytes.now }
{
    bytes.iter().all(|byte| stands_for_itself(*byte))
}

/// What is before the closing quote, if no byte of it stands for another. Most texts are so, and are taken as they are.
fn as_written(inside: &str) -> Option<&str>
    ensures { IfSome result (λ text. kind.text_from false inside.now ≡ Some text.now) }
{
    match inside.as_bytes().split_last() {
        Some((b'\'', text)) if all_stand_for_themselves(text) => Some(&inside[..text.len()]),
        _ => None,
    }
}

/// The text from after its opening quote on, if the word ends with its closing quote.
fn unquoted(alloc: Global, inside: &str) -> Result<Option<String>, NoMemory>
    ensures { IfOk result (λ text. option_map (λ string. string_bytes string) text ≡ kind.text_from false inside.now) }
{
    let mut text = String::with_capacity(alloc, inside.len())?;
    // Where the bytes begin that go into the text at the next quote.
    let mut from = 0;
    // Whether the byte before is a quote: the closing one, or the first of two.
    let mut quote = false;
    for (i, byte) in inside.as_bytes().iter().enumerate() {
        if *byte == b'\'' {
            if quote {
                from = i;
            } else {
                text.push_str(&inside[from..i])?;
            }
            quote = !quote;
            continue;
        }
        if quote || *byte == b'\n' || *byte == 0 {
            return Ok(None);
        }
    }
    if quote { Ok(Some(text)) } else { Ok(None) }
}

/// The text of a quoted word, if it is one.
pub(crate) fn quoted_text(alloc: Global, word: &str) -> Result<Option<Text>, NoMemory>
    ensures { IfOk result (λ text. text ≡ kind.quoted_text word.now) }
{
    let Some((b'\'', _)) = word.as_bytes().split_first() else {
        return Ok(None);
    };
    let inside = &word[1..];
    if let Some(text) = as_written(inside) {
        return Ok(Some(Text::from_str(alloc, text)?));
    }
    match unquoted(alloc, inside)? {
        Some(text) => Ok(Some(Text::from_string(text))),
        None => Ok(None),
    }
}

/// Whether a byte may be outside quotes.
fn is_bare(byte: u8) -> bool
    ensures { result ≡ kind.is_bare byte }
{
    byte.is_ascii_graphic() && byte != b'\''
}

#[inline(never)]
fn all_bare(bytes: &[u8]) -> bool
    ensures { result ≡ list_all kind.is_bare bytes.now }
{
    bytes.iter().all(|byte| is_bare(*byte))
}

/// Whether a word is one without quotes.
pub(crate) fn is_bare_word(word: &str) -> bool
    ensures { result ≡ kind.is_bare_word word.now }
{
    !word.is_empty() && all_bare(word.as_bytes())
}

/// An interval, unless it is empty or longer than a day.
fn advance_by(interval: u64) -> Option<i64>
    ensures { result ≡ kind.advance_by (Some interval) }
{
    if (1..=LONGEST_ADVANCE).contains(&interval) {
        Some(interval as i64)
    } else {
        None
    }
}

/// What `+` and an interval say.
fn advance_in(text: &[u8]) -> Option<i64>
    ensures { result ≡ kind.advance_in text.now }
{
    advance_by(interval_of(text.strip_prefix(b"+")?)?)
}

/// By how much the clock moves: `+` and an interval, in quotes or not.
pub(crate) fn advance_of(alloc: Global, word: &str) -> Result<Option<i64>, NoMemory>
    ensures { IfOk result (λ time. time ≡ kind.advance_of word.now) }
{
    if is_bare_word(word) {
        return Ok(advance_in(word.as_bytes()));
    }
    match quoted_text(alloc, word)? {
        Some(text) => Ok(advance_in(text.bytes())),
        None => Ok(None),
    }
}
