//! The words of a line, read one after another.

ghost use Rattle.std.specs.Prelude.{◌≡◌, ◌≢◌, ◌+◌, ◌-◌, ◌<◌, List, [], ◌∷◌, ◌++◌, Bool, true, false, IfOk, IfErr, IfNone, IfSome, OnOk, MatchOption, Result, Ok, Err, None, length, option_copied};
ghost use Rattle.sky_model.specs.declared.stmt.Stmt.{Stmt};
ghost use Rattle.sky_model.specs.Words.{words};
ghost use Rattle.sky_model.specs.Kinds.{Kind, Name, Dotted, Number, OptText, Raw, Of, value};
ghost use Rattle.sky_model.specs.Kinds as kind;
ghost use Rattle.sky_model.specs.Grammar.{GrammarRow, stop, literal, either, many, next, optional, text_of, some_until, line_of_words, run_of, statement_of};
ghost use Rattle.sky_script.specs.Unread.{words_in, in_quotes, EndsWord};
ghost use Rattle.sky_script.specs.Reading.{Answers, IsAnswer, Reads};

use crate::cause::LineCause;
use crate::forms::read_form;
use crate::kinds::{
    advance_of, is_bare_word, is_dotted, is_name, is_whole_name, name_end, quoted_text, text_end,
};
use crate::row_words::{column_of, ignore_of, set_of, value_of};
use sky_model::{ColumnNames, Fixed, Set, Stmt};
use sky_val::{Column, Text, Val, number_of};
use std::alloc::Global;
use std::marker::Model;

/// A line's words from some place on.
#[derive(Drop)]
pub struct Words<'a> {
    // None after the last word; an empty rest still has an empty word.
    rest: Option<&'a str>,
    taken: usize,
}

impl<'a> Model for Words<'a> {
    ghost use Rattle.std.specs.Prelude.{◌+◌, ◌≤◌, ◌^◌, option_copied};
    ghost use Rattle.sky_script.specs.Unread.{Unread, words_in, most_in};

    ghost Value = { Unread };

    ghost view = { λ w. record { number = w.taken + 1; left = words_in (option_copied w.rest) } };

    // A line is shorter than 2^63 bytes, so its words can be counted.
    ghost invariant = { λ w. w.taken + most_in (option_copied w.rest) ≤ 2 ^ 63 };
}

/// The place of the space that ends the word which bytes begin with, or else of their end.
// Never inlined: among other code the loop would take more steps a byte.
#[inline(never)]
fn word_end(bytes: &[u8]) -> usize
    ensures { EndsWord result bytes.now }
{
    // Most words have no quote, and most bytes are above a space and a quote: one comparison for each.
    for (i, byte) in bytes.iter().enumerate() {
        if *byte > b'\'' {
            continue;
        }
        if *byte == b' ' {
            return i;
        }
        if *byte == b'\'' {
            return quoted_end(bytes);
        }
    }
    bytes.len()
}

/// The same, if quotes may be in the word.
#[inline(never)]
fn quoted_end(bytes: &[u8]) -> usize
    ensures { EndsWord result bytes.now }
{
    let mut quoted = false;
    for (i, byte) in bytes.iter().enumerate() {
        if *byte > b'\'' {
            continue;
        }
        if *byte == b' ' && !quoted {
            return i;
        }
        if *byte == b'\'' {
            quoted = !quoted;
        }
    }
    bytes.len()
}

/// The word that a text begins with, and what follows the space that ends it.
fn split_word(text: &str) -> (&str, Option<&str>)
    ensures split { words text.now ≡ result.0.now ∷ words_in (option_copied result.1) }
    ensures shorter { IfSome result.1 (λ rest. length rest.now < length text.now) }
{
    let end = word_end(text.as_bytes());
    if end == text.len() {
        return (text, None);
    }
    (&text[..end], Some(&text[end + 1..]))
}

/// What is between the quotes of the word that a text begins with, and what follows the space that ends the word: only
/// if each byte between them stands for itself. Most texts are so, and each byte of these is compared once.
fn split_text(text: &str) -> Option<(&str, Option<&str>)>
    ensures split { IfSome result (λ found. words text.now ≡ in_quotes found.0.now ∷ words_in (option_copied found.1)) }
    ensures text { IfSome result (λ found. kind.quoted_text (in_quotes found.0.now) ≡ Some found.0.now) }
    ensures shorter { IfSome result (λ found. IfSome found.1 (λ rest. length rest.now < length text.now)) }
{
    let Some((b'\'', _)) = text.as_bytes().split_first() else {
        return None;
    };
    let inside = &text[1..];
    let bytes = inside.as_bytes();
    let end = text_end(bytes);
    if end == bytes.len() || bytes[end] != b'\'' {
        return None;
    }
    if end + 1 == bytes.len() {
        return Some((&inside[..end], None));
    }
    if bytes[end + 1] != b' ' {
        return None;
    }
    Some((&inside[..end], Some(&inside[end + 2..])))
}

/// The name that a text begins with, and what follows the space that ends its first word: only if that word is the name
/// and a colon. The lines that sessions make begin so, and each byte of the name is then looked at once.
fn split_session(text: &str) -> Option<(&str, Option<&str>)>
    ensures split { IfSome result (λ found. words text.now ≡ (found.0.now ++ 58 ∷ []) ∷ words_in (option_copied found.1)) }
    ensures name { IfSome result (λ found. kind.is_name found.0.now ≡ true) }
    ensures shorter { IfSome result (λ found. IfSome found.1 (λ rest. length rest.now < length text.now)) }
{
    let bytes = text.as_bytes();
    let end = name_end(bytes);
    if end == bytes.len() || bytes[end] != b':' || !is_whole_name(&bytes[..end]) {
        return None;
    }
    if end + 1 == bytes.len() {
        return Some((&text[..end], None));
    }
    if bytes[end + 1] != b' ' {
        return None;
    }
    Some((&text[..end], Some(&text[end + 2..])))
}

fn fixed_text(fixed: Fixed) -> &'static str
    ensures { result.now ≡ text_of fixed }
{
    match fixed {
        Fixed::Repeatable => "repeatable",
        Fixed::Read => "read",
        Fixed::Table => "table",
        Fixed::Set => "set",
        Fixed::Backup => "backup",
        Fixed::On => "on",
        Fixed::Off => "off",
    }
}

impl<'a> Words<'a> {
    /// All the words of a line.
    pub fn new(line: &'a str) -> Words<'a>
        ensures { result ≡ record { number = 1; left = words line.now } }
    {
        Words {
            rest: Some(line),
            taken: 0,
        }
    }

    /// Takes the next word.
    fn next(&mut self) -> Option<&'a str>
        ensures word { MatchOption result (self.old.left ≡ [])
            (λ word. (self.old.left ≡ word.now ∷ self.new.left) × (self.new.number ≡ self.old.number + 1)) }
        ensures none { IfNone result (self.new ≡ self.old) }
    {
        let (word, rest) = split_word(self.rest?);
        self.rest = rest;
        self.taken += 1;
        Some(word)
    }

    /// Takes the next word, or gives the cause if there is none.
    pub(crate) fn word(&mut self) -> Result<&'a str, LineCause>
        ensures word { IfOk result (λ word. (self.old.left ≡ word.now ∷ self.new.left) × (self.new.number ≡ self.old.number + 1)) }
        ensures none { IfErr result (λ cause. (self.old.left ≡ []) × (cause ≡ LineCause.BadWord self.old.number)) }
    {
        self.next().ok_or(self.missing())
    }

    /// The cause if the line ends too early.
    fn missing(&self) -> LineCause
        ensures { result ≡ LineCause.BadWord self.now.number }
    {
        LineCause::BadWord(self.taken + 1)
    }

    /// The cause if the word that was taken last is bad.
    pub(crate) fn refused(&self) -> LineCause
        ensures { result ≡ LineCause.BadWord (self.now.number - 1) }
    {
        LineCause::BadWord(self.taken)
    }
}

// A reader of a word promises its answer for every row of the grammar that begins with such a word. The contract of a
// statement form's function follows for the form's own row.
#[tactic(auto, using(crate::proofs::ReadingLemmas::one_word), unfolding(crate::specs::Reading::Answers))]
impl<'a> Words<'a> {
    /// Whether no word is left.
    pub(crate) fn at_end(&self) -> bool
        ensures at_end { result ≡ true →
            (stmt : Stmt) (row : GrammarRow) → Answers (Ok stmt) (either (stop stmt) row) self.now }
        ensures goes_on { result ≡ false →
            (r : Result Stmt LineCause) (stmt : Stmt) (row : GrammarRow) →
            Answers r row self.now → Answers r (either (stop stmt) row) self.now }
        ensures none { result ≡ true → self.now.left ≡ [] }
        ensures some { result ≡ false → self.now.left ≢ [] }
    {
        self.rest.is_none()
    }

    /// The line's end.
    pub(crate) fn end(&self) -> Result<(), LineCause>
        ensures ok { IfOk result (λ _. (stmt : Stmt) → Answers (Ok stmt) (stop stmt) self.now) }
        ensures err { IfErr result (λ cause. (stmt : Stmt) → Answers (Err cause) (stop stmt) self.now) }
    {
        match self.rest {
            None => Ok(()),
            Some(_) => Err(self.missing()),
        }
    }

    /// A fixed word.
    pub(crate) fn fixed(&mut self, fixed: Fixed) -> Result<(), LineCause>
        ensures ok { IfOk result (λ _. (r : Result Stmt LineCause) (row : GrammarRow) →
            Answers r row self.new → Answers r (literal fixed row) self.old) }
        ensures err { IfErr result (λ cause. (row : GrammarRow) → Answers (Err cause) (literal fixed row) self.old) }
    {
        if self.word()? != fixed_text(fixed) {
            return Err(self.refused());
        }
        Ok(())
    }

    /// Takes a fixed word if it comes next, after words of a kind that it isn't of.
    pub(crate) fn take_fixed(&mut self, fixed: Fixed) -> bool
        ensures ends { result ≡ true →
            (k : Kind) (r : Result Stmt LineCause) (f : List (Of k) → GrammarRow) → value k (text_of fixed) ≡ None →
            Answers r (f []) self.new → Answers r (many k (λ vs. literal fixed (f vs))) self.old }
        ensures goes_on { result ≡ false →
            (k : Kind) (r : Result Stmt LineCause) (f : List (Of k) → GrammarRow) →
            Answers r (some_until fixed k f) self.old → Answers r (many k (λ vs. literal fixed (f vs))) self.old }
        ensures same { result ≡ false → self.new ≡ self.old }
    {
        let Some(rest) = self.rest else {
            return false;
        };
        let (word, rest) = split_word(rest);
        if word != fixed_text(fixed) {
            return false;
        }
        self.rest = rest;
        self.taken += 1;
        true
    }

    /// Takes a fixed word, if it comes next. Without it the row can't continue with the same word.
    pub(crate) fn skip(&mut self, fixed: Fixed) -> bool
        ensures { (f : Bool → GrammarRow) → next (f false) (text_of fixed) ≡ [] →
            (r : Result Stmt LineCause) → Answers r (f result) self.new → Answers r (optional fixed f) self.old }
    {
        match self.rest {
            Some(rest) if split_word(rest).0 == fixed_text(fixed) => self.next().is_some(),
            _ => false,
        }
    }
}

impl<'a> Words<'a> {
    /// The session's name: the first word without the colon at its end.
    pub fn session(&mut self) -> Result<&'a str, LineCause>
        requires { self.old.number ≡ 1 }
        ensures ok { IfOk result (λ session. line_of_words self.old.left ≡ run_of session.now (statement_of self.new.left)) }
        ensures second { OnOk result (self.new.number ≡ 2) }
        ensures err { IfErr result (λ cause. IsAnswer (Err cause) (line_of_words self.old.left)) }
    {
        match self.plain_session() {
            Some(name) => Ok(name),
            None => self.any_session(),
        }
    }

    /// Takes the session's word if it is one, and gives the name.
    fn plain_session(&mut self) -> Option<&'a str>
        ensures name { IfSome result (λ name. kind.is_name name.now ≡ true) }
        ensures word { IfSome result (λ name. (self.old.left ≡ (name.now ++ 58 ∷ []) ∷ self.new.left) × (self.new.number ≡ self.old.number + 1)) }
        ensures none { IfNone result (self.new ≡ self.old) }
    {
        let (name, rest) = split_session(self.rest?)?;
        self.rest = rest;
        self.taken += 1;
        Some(name)
    }

    /// The same as `session`, of any word.
    #[inline(never)]
    fn any_session(&mut self) -> Result<&'a str, LineCause>
        requires { self.old.number ≡ 1 }
        ensures ok { IfOk result (λ session. line_of_words self.old.left ≡ run_of session.now (statement_of self.new.left)) }
        ensures second { OnOk result (self.new.number ≡ 2) }
        ensures err { IfErr result (λ cause. IsAnswer (Err cause) (line_of_words self.old.left)) }
    {
        let word = self.word()?;
        let Some(name) = word.as_bytes().strip_suffix(b":") else {
            return Err(self.refused());
        };
        let name = &word[..name.len()];
        if !is_name(name) {
            return Err(self.refused());
        }
        Ok(name)
    }

    /// The first word of a line's statement, which follows its session's word.
    pub fn form(&mut self) -> Result<&'a str, LineCause>
        requires { self.old.number ≡ 2 }
        ensures ok { IfOk result (λ form. self.old.left ≡ form.now ∷ self.new.left) }
        ensures third { OnOk result (self.new.number ≡ 3) }
        ensures err { IfErr result (λ cause. IsAnswer (Err cause) (statement_of self.old.left)) }
    {
        self.word()
    }

    /// The statement with this first word.
    pub fn statement(&mut self, alloc: Global, form: &str) -> Result<Stmt, LineCause>
        requires { self.old.number ≡ 3 }
        ensures { IsAnswer result (statement_of (form.now ∷ self.old.left)) }
    {
        read_form(alloc, form.as_bytes(), self)
    }

    /// Takes a word in quotes, if one comes next whose bytes each stand for themselves, and gives what is between them.
    fn plain_text(&mut self) -> Option<&'a str>
        ensures text { IfSome result (λ text. kind.quoted_text (in_quotes text.now) ≡ Some text.now) }
        ensures word { IfSome result (λ text. (self.old.left ≡ in_quotes text.now ∷ self.new.left) × (self.new.number ≡ self.old.number + 1)) }
        ensures none { IfNone result (self.new ≡ self.old) }
    {
        let (text, rest) = split_text(self.rest?)?;
        self.rest = rest;
        self.taken += 1;
        Some(text)
    }
}

#[tactic(auto, using(crate::proofs::ReadingLemmas::one_word), unfolding(crate::specs::Reading::Answers))]
impl<'a> Words<'a> {
    pub(crate) fn name(&mut self, alloc: Global) -> Result<Text, LineCause>
        ensures { Reads Name result self.old self.new }
    {
        let word = self.word()?;
        if !is_name(word) {
            return Err(self.refused());
        }
        Ok(Text::from_str(alloc, word)?)
    }

    pub(crate) fn dotted(&mut self, alloc: Global) -> Result<Text, LineCause>
        ensures { Reads Dotted result self.old self.new }
    {
        let word = self.word()?;
        if !is_dotted(word) {
            return Err(self.refused());
        }
        Ok(Text::from_str(alloc, word)?)
    }

    pub(crate) fn number(&mut self, most: u64) -> Result<u64, LineCause>
        ensures { Reads (Number most) result self.old self.new }
    {
        let word = self.word()?;
        number_of(word.as_bytes(), most).ok_or(self.refused())
    }

    pub(crate) fn opt_text(&mut self, alloc: Global) -> Result<Option<Text>, LineCause>
        ensures { Reads OptText result self.old self.new }
    {
        match self.plain_text() {
            Some(text) => Ok(Some(Text::from_str(alloc, text)?)),
            None => self.null_or_text(alloc),
        }
    }

    // Never inlined, so that the text above is made where it is needed.
    #[inline(never)]
    fn null_or_text(&mut self, alloc: Global) -> Result<Option<Text>, LineCause>
        ensures { Reads OptText result self.old self.new }
    {
        let word = self.word()?;
        if word == "null" {
            return Ok(None);
        }
        match quoted_text(alloc, word)? {
            Some(text) => Ok(Some(text)),
            None => Err(self.refused()),
        }
    }

    pub(crate) fn raw(&mut self, alloc: Global) -> Result<Text, LineCause>
        ensures { Reads Raw result self.old self.new }
    {
        let word = self.word()?;
        if is_bare_word(word) {
            return Ok(Text::from_str(alloc, word)?);
        }
        quoted_text(alloc, word)?.ok_or(self.refused())
    }

    pub(crate) fn value(&mut self, alloc: Global) -> Result<Val, LineCause>
        ensures { Reads kind.Value result self.old self.new }
    {
        let word = self.word()?;
        value_of(alloc, word)?.ok_or(self.refused())
    }

    pub(crate) fn column(&mut self, alloc: Global) -> Result<Column, LineCause>
        ensures { Reads kind.Column result self.old self.new }
    {
        let word = self.word()?;
        column_of(alloc, word)?.ok_or(self.refused())
    }

    pub(crate) fn set(&mut self, alloc: Global) -> Result<Set, LineCause>
        ensures { Reads kind.Set result self.old self.new }
    {
        let word = self.word()?;
        set_of(alloc, word)?.ok_or(self.refused())
    }

    pub(crate) fn ignore(&mut self, alloc: Global) -> Result<ColumnNames, LineCause>
        ensures { Reads kind.Ignore result self.old self.new }
    {
        let word = self.word()?;
        ignore_of(alloc, word)?.ok_or(self.refused())
    }

    pub(crate) fn advance(&mut self, alloc: Global) -> Result<i64, LineCause>
        ensures { Reads kind.Advance result self.old self.new }
    {
        let word = self.word()?;
        advance_of(alloc, word)?.ok_or(self.refused())
    }
}
