ghost use Rattle.std.specs.Prelude.{◌≡◌, ◌↔◌, true, false, Ok, IfOk, IsUtf8};
ghost use Rattle.sky_model.specs.Words as line_words;
ghost use Rattle.sky_model.specs.Grammar.{line_of_words, line_of};
ghost use Rattle.sky_model.specs.declared.line.Line.TheVariants.{Blank};
ghost use Rattle.sky_model.specs.InForm.{IsLineInForm};
ghost use Rattle.sky_script.specs.Reading.{IsAnswer};

use crate::cause::LineCause;
use crate::words::Words;
use sky_model::Line;
use sky_val::Text;
use std::alloc::Global;

/// What a line says that is neither empty nor a comment.
fn run_line(alloc: Global, line: &str) -> Result<Line, LineCause>
    ensures { IsAnswer result (line_of_words (line_words.words line.now)) }
{
    let mut words = Words::new(line);
    let session = Text::from_str(alloc, words.session()?)?;
    let form = words.form()?;
    // A statement is large, and `?` would move it once more.
    match words.statement(alloc, form) {
        Ok(stmt) => Ok(Line::Run(session, stmt)),
        Err(cause) => Err(cause),
    }
}

/// Whether a line is empty or a comment.
pub fn is_blank(line: &str) -> bool
    ensures blank { result ≡ true → line_of line.now ≡ Ok Blank }
    ensures run { result ≡ false → line_of line.now ≡ line_of_words (line_words.words line.now) }
{
    match line.as_bytes().first() {
        None | Some(b'#') => true,
        Some(_) => false,
    }
}

/// What a line of characters says.
fn read_line(alloc: Global, line: &str) -> Result<Line, LineCause>
    ensures { IsAnswer result (line_of line.now) }
{
    if is_blank(line) {
        return Ok(Line::Blank);
    }
    run_line(alloc, line)
}

/// What a line says that is text already.
pub fn parse_text(alloc: Global, line: &str) -> Result<Line, LineCause>
    ensures answer { IsAnswer result (line_of line.now) }
    ensures in_form { IfOk result (λ says. IsLineInForm says) }
    // The prover knows this of a `str` that is an argument, and not of one that came in an `Option`.
    ensures utf8 { IsUtf8 line.now }
{
    read_line(alloc, line)
}

/// What a line says; its line feed is not among its bytes.
pub fn parse_line(alloc: Global, line: &[u8]) -> Result<Line, LineCause>
    ensures not_utf8 { result ≡ Err LineCause.NotUtf8 ↔ ¬ (IsUtf8 line.now) }
    ensures answer { IsUtf8 line.now → IsAnswer result (line_of line.now) }
    ensures in_form { IfOk result (λ says. IsLineInForm says) }
{
    // The only test for UTF-8: what is taken of the line from here on is a text because the line is one.
    match str::from_utf8(line) {
        Ok(line) => parse_text(alloc, line),
        Err(_) => Err(LineCause::NotUtf8),
    }
}
