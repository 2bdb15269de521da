//! A text that takes no memory of its own.

ghost use Rattle.std.specs.Prelude.{◌≡◌, ◌≤◌, ◌↔◌, length, IsSome, IfSome};

use std::marker::Model;
use std::str;

/// How many bytes a text that is kept in place may have.
const MOST_IN_PLACE: usize = 22;

/// A text of at most 22 bytes, in place.
#[derive(Drop)]
pub(crate) struct ShortText {
    bytes: [u8; MOST_IN_PLACE],
    len: u8,
    // This aligns it, so that it is moved by words.
    words: [u64; 0],
}

impl Model for ShortText {
    ghost use Rattle.std.specs.Prelude.{ℕ, ◌≤◌, List, take, IsUtf8};

    ghost Value = { List ℕ };

    ghost view = { λ short. take short.len short.bytes };

    ghost invariant = { λ short. (short.len ≤ 22) × ∥ IsUtf8 (take short.len short.bytes) ∥₁ };
}

impl ShortText {
    /// The same text, if it is short.
    pub(crate) fn new(text: &str) -> Option<ShortText>
        ensures short { IsSome result ↔ (length text.now ≤ 22) }
        ensures value { IfSome result (λ short. short ≡ text.now) }
    {
        if text.len() > MOST_IN_PLACE {
            return None;
        }
        let mut bytes = [0; MOST_IN_PLACE];
        bytes[..text.len()].copy_from_slice(text.as_bytes());
        Some(ShortText {
            bytes,
            len: text.len() as u8,
            words: [],
        })
    }

    /// The text.
    pub(crate) fn as_str(&self) -> &str
        ensures { result.now ≡ self.now }
    {
        unsafe { str::from_utf8_unchecked(&self.bytes[..self.len as usize]) }
    }

    /// An equal text.
    pub(crate) fn copy(&self) -> ShortText
        ensures { result ≡ self.now }
    {
        ShortText {
            bytes: self.bytes,
            len: self.len,
            words: [],
        }
    }
}
