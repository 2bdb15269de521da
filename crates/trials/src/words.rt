use anyhow::{Context, anyhow};
use std::alloc::{AllocError, Global};
use std::fmt::Debug;

/// Whether a row of a table is a case, and neither empty nor a comment.
pub(crate) fn is_case(row: &str) -> bool {
    !row.is_empty() && !row.starts_with('#')
}

/// The first word, and the words after it. One space is between two words.
pub fn first_word(words: &str) -> (&str, &str) {
    words.split_once(' ').unwrap_or((words, ""))
}

/// The number that the first word is, and the words after it.
pub fn first_number(words: &str) -> anyhow::Result<(u32, &str)> {
    let (word, rest) = first_word(words);
    let number = word.parse::<u32>().context(words)?;
    Ok((number, rest))
}

/// What a call gave, as Rust shows it.
pub fn shown<T: Debug + Drop>(
    alloc: Global,
    given: Result<T, AllocError>,
) -> anyhow::Result<String> {
    let given = given?;
    Ok(format!(in alloc; "{given:?}")?)
}

/// The answer of a row that asks nothing.
pub fn ok(alloc: Global) -> anyhow::Result<String> {
    Ok(String::from_str(alloc, "ok")?)
}

/// The error of a row whose first word is no command of its table.
pub fn no_command() -> anyhow::Error {
    anyhow!("no such command")
}
