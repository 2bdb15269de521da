ghost use Rattle.std.specs.Prelude.{◌≡◌, IfOk, bytes_eq};
ghost use Rattle.std.specs.Cmp.Rules.{comparing};
ghost use Rattle.std.proofs.Common.{rules};

use crate::NoMemory;
use crate::text::Text;
use std::alloc::Global;
use std::fmt;
use std::marker::Model;

/// A text in one word, so that a value that may be a text is small if it is a number.
#[derive(Drop)]
pub struct BoxedText {
    text: Box<Text>,
}

impl Model for BoxedText {
    ghost use Rattle.std.specs.Prelude.{ℕ, List};

    ghost Value = { List ℕ };

    ghost view = { λ boxed. boxed.text.value };
}

impl BoxedText {
    /// The same text.
    pub fn new(alloc: Global, text: Text) -> Result<BoxedText, NoMemory>
        ensures { IfOk result (λ boxed. boxed ≡ text) }
    {
        let text = Box::new(alloc, text)?;
        Ok(BoxedText { text })
    }

    /// The text.
    pub fn as_text(&self) -> &Text
        ensures { result.now ≡ self.now }
    {
        &self.text
    }

    /// An equal text.
    // Never inlined, so that the copy of a value is short code if it is a number.
    #[inline(never)]
    pub fn copy(&self, alloc: Global) -> Result<BoxedText, NoMemory>
        ensures { IfOk result (λ copy. copy ≡ self.now) }
    {
        let text = self.text.copy(alloc)?;
        BoxedText::new(alloc, text)
    }
}

impl PartialEq for BoxedText {
    ghost eq = { bytes_eq };

    ghost laws = { Prim.search (comparing, rules) };

    fn eq(&self, other: &BoxedText) -> bool {
        self.as_text() == other.as_text()
    }
}

impl Eq for BoxedText {
    ghost laws = { Prim.search (comparing, rules) };
}

impl fmt::Debug for BoxedText {
    fn fmt<W: fmt::Write>(&self, f: &mut fmt::Formatter<W>) -> fmt::Result {
        self.as_text().fmt(f)
    }
}
