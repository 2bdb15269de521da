ghost use Rattle.std.specs.Prelude.{◌≡◌, true, IfErr, IfOk, string_bytes};
ghost use Rattle.std.specs.List.{list_any};
ghost use Rattle.clap.specs.Words.{HasMatchesOf, app_of, found_of, kind_of, rows_of, takes};
ghost use Rattle.sky_model.specs.Transcript.{is_run};
ghost use Rattle.sky_program.specs.Statuses.{texts};
ghost use Rattle.sky_program.specs.Words.{app, bare, begins_with_dash, is_refused, mode_in, says_run, values_in};

use clap::error::ErrorKind;
use clap::{Arg, ArgAction, ArgMatches, Command, Error};
use std::alloc::{AllocError, Global};

/// The most words that the program takes.
const MOST_WORDS: usize = 4;

/// Whether the words are the one word `run`. More words than it takes, and a word that begins
/// with `-`, are refused before the parse.
pub fn is_run(alloc: Global, words: &Vec<String>) -> Result<bool, AllocError>
    ensures { IfOk result (λ known. known ≡ is_run (texts words.now.items)) }
{
    let words = words.as_slice();
    if is_refused(words) {
        return Ok(false);
    }
    match parse(alloc, words) {
        Ok(matches) => Ok(says_run(&matches)),
        Err(error) if error.kind() == ErrorKind::OutOfMemory => Err(AllocError),
        Err(_) => Ok(false),
    }
}

// Whether there are too many words, or one begins with `-`.
fn is_refused(words: &[String]) -> bool
    ensures { result ≡ is_refused words.now }
{
    words.len() > MOST_WORDS || has_dash(words)
}

fn has_dash(words: &[String]) -> bool
    ensures { result ≡ list_any (λ word. begins_with_dash (string_bytes word)) words.now }
{
    words.iter().any(|word| word.as_str().starts_with('-'))
}

fn parse<'a>(alloc: Global, words: &'a [String]) -> Result<ArgMatches<'a>, Error>
    ensures ok { IfOk result (HasMatchesOf app (texts words.entry.now)) }
    ensures err { IfErr result (λ error. takes app (texts words.entry.now) ≡ true → kind_of error ≡ ErrorKind.OutOfMemory) }
{
    command(alloc)?.try_get_matches_from(words)
}

// The command: a mode, and its values.
fn command<'a>(alloc: Global) -> Result<Command<'a>, AllocError>
    ensures { IfOk result (λ command. app_of command ≡ app) }
{
    let mode = Arg::new(alloc, "mode").index(1).required(true);
    let command = bare(alloc).arg(mode)?;
    command.arg(Arg::new(alloc, "values").index(2).action(ArgAction::Append))
}

// The command without its arguments.
fn bare<'a>(alloc: Global) -> Command<'a>
    ensures { app_of result ≡ bare }
{
    Command::new(alloc, "pgqrun")
        .no_binary_name(true)
        .disable_help_flag(true)
        .disable_version_flag(true)
}

// Whether the mode is `run`, which has no values.
fn says_run(matches: &ArgMatches) -> bool
    ensures { result ≡ says_run (mode_in (rows_of (found_of matches.now))) (values_in (rows_of (found_of matches.now))) }
{
    match (matches.get_str("mode"), matches.get_strs("values")) {
        (Some(mode), None) => mode == "run",
        _ => false,
    }
}
