ghost use Rattle.std.specs.Prelude.{◌≡◌, ◌↔◌, IfOk, OnOk, IsUtf8, bytes_eq, string_bytes};
ghost use Rattle.std.specs.Cmp.Lexicographic.{slice_cmp};
ghost use Rattle.std.specs.Cmp.Rules.{comparing, hashing};
ghost use Rattle.std.specs.Ordering.{nat_cmp, as_partial_cmp};
ghost use Rattle.std.specs.Hash as fed;
ghost use Rattle.std.proofs.Common.{rules};

use crate::short_text::ShortText;
use std::alloc::{AllocError, Global};
use std::cmp::Ordering;
use std::fmt;
use std::hash::{Hash, Hasher};
use std::marker::Model;
use thiserror::Error;

/// Why bytes are no text.
#[derive(Clone, Copy, Debug, PartialEq, Eq, Error)]
pub enum TextFault {
    #[error("the bytes are not UTF-8")]
    NotUtf8,
    #[error("out of memory")]
    NoMemory,
}

/// The bytes of a text: most texts are short, and take no memory of their own.
#[derive(Drop)]
enum Kept {
    InPlace(ShortText),
    Apart(String),
}

impl Kept {
    ghost use Rattle.sky_val.specs.Kept.{kept_bytes};

    fn new(alloc: Global, text: &str) -> Result<Kept, AllocError>
        ensures { IfOk result (λ kept. kept_bytes kept ≡ text.now) }
    {
        match ShortText::new(text) {
            Some(short) => Ok(Kept::InPlace(short)),
            None => Ok(Kept::Apart(String::from_str(alloc, text)?)),
        }
    }

    fn as_str(&self) -> &str
        ensures { result.now ≡ kept_bytes self.now }
    {
        match self {
            Kept::InPlace(short) => short.as_str(),
            Kept::Apart(long) => long.as_str(),
        }
    }

    fn copy(&self, alloc: Global) -> Result<Kept, AllocError>
        ensures { IfOk result (λ kept. kept_bytes kept ≡ kept_bytes self.now) }
    {
        match self {
            Kept::InPlace(short) => Ok(Kept::InPlace(short.copy())),
            Kept::Apart(long) => Ok(Kept::Apart(String::from_str(alloc, long.as_str())?)),
        }
    }
}

/// A text: bytes that are UTF-8.
pub struct Text {
    kept: Kept,
}

// By hand, so that it is not written out at each exit of a function that owns one.
impl Drop for Text {
    fn drop(self) {
        let Text { kept: _ } = self;
    }
}

impl Model for Text {
    ghost use Rattle.std.specs.Prelude.{ℕ, List};

    ghost Value = { List ℕ };

    ghost use Rattle.sky_val.specs.Kept.{kept_bytes};

    ghost view = { λ t. kept_bytes t.kept };
}

impl Text {
    /// The same text.
    pub fn from_str(alloc: Global, text: &str) -> Result<Text, AllocError>
        ensures { IfOk result (λ copy. copy ≡ text.now) }
    {
        let kept = Kept::new(alloc, text)?;
        Ok(Text { kept })
    }

    /// The text that these bytes are.
    pub fn from_bytes(alloc: Global, bytes: &[u8]) -> Result<Text, TextFault>
        ensures ok { IfOk result (λ text. text ≡ bytes.now) }
        ensures utf8 { OnOk result (IsUtf8 bytes.now) }
        ensures not_utf8 { (result ≡ Err TextFault.NotUtf8) ↔ ¬ (IsUtf8 bytes.now) }
    {
        let Ok(text) = std::str::from_utf8(bytes) else {
            return Err(TextFault::NotUtf8);
        };
        match Text::from_str(alloc, text) {
            Ok(text) => Ok(text),
            Err(_) => Err(TextFault::NoMemory),
        }
    }

    /// The text that a string holds. It takes no memory.
    pub fn from_string(string: String) -> Text
        ensures { result ≡ string_bytes string }
    {
        Text {
            kept: Kept::Apart(string),
        }
    }

    /// Its bytes.
    pub fn bytes(&self) -> &[u8]
        ensures value { result.now ≡ self.now }
        ensures utf8 { IsUtf8 self.now }
    {
        self.kept.as_str().as_bytes()
    }

    /// The same as `bytes`, as std's type for it.
    pub fn as_str(&self) -> &str
        ensures { result.now ≡ self.now }
    {
        self.kept.as_str()
    }

    /// An equal text.
    pub fn copy(&self, alloc: Global) -> Result<Text, AllocError>
        ensures { IfOk result (λ text. text ≡ self.now) }
    {
        let kept = self.kept.copy(alloc)?;
        Ok(Text { kept })
    }
}

/// An equal text, if there is one.
pub fn copy_option(alloc: Global, text: &Option<Text>) -> Result<Option<Text>, AllocError>
    ensures { IfOk result (λ copy. copy ≡ text.now) }
{
    match text {
        Some(text) => Ok(Some(text.copy(alloc)?)),
        None => Ok(None),
    }
}

impl PartialEq for Text {
    ghost eq = { bytes_eq };

    ghost laws = { Prim.search (comparing, rules) };

    fn eq(&self, other: &Text) -> bool {
        self.bytes() == other.bytes()
    }
}

impl Eq for Text {
    ghost laws = { Prim.search (comparing, rules) };
}

impl PartialOrd for Text {
    ghost partial_cmp = { as_partial_cmp (slice_cmp nat_cmp) };

    ghost laws = { Prim.search (comparing, rules) };

    fn partial_cmp(&self, other: &Text) -> Option<Ordering> {
        Some(self.cmp(other))
    }
}

impl Ord for Text {
    ghost cmp = { slice_cmp nat_cmp };

    ghost total = { Prim.search (comparing, rules) };

    ghost matches_partial_cmp = { Prim.search (comparing, rules) };

    ghost matches_eq = { Prim.search (comparing, rules) };

    fn cmp(&self, other: &Text) -> Ordering {
        self.bytes().cmp(other.bytes())
    }
}

impl Hash for Text {
    ghost hash_input = { fed.slice fed.u8 };

    ghost respects_eq = { Prim.search (hashing, rules) };

    fn hash<H: Hasher>(&self, state: &mut H) {
        self.bytes().hash(state);
    }
}

impl fmt::Debug for Text {
    fn fmt<W: fmt::Write>(&self, f: &mut fmt::Formatter<W>) -> fmt::Result {
        self.as_str().fmt(f)
    }
}
