use londiste_state::TableState;
use std::alloc::Global;
use trials::{first_word, no_command, shown};

/// How the states of tables are written, and which state may follow which.
pub fn answer(alloc: Global, command: &str, words: &str) -> anyhow::Result<String> {
    match command {
        "state" => written(alloc, words),
        "move" => may_move(alloc, words),
        _ => Err(no_command()),
    }
}

// The state of a text, and how it is written; or the text's fault.
fn written(alloc: Global, text: &str) -> anyhow::Result<String> {
    let state = match TableState::parse(text.as_bytes()) {
        Ok(state) => state,
        Err(fault) => return Ok(format!(in alloc; "{fault:?}")?),
    };
    let mut bytes = Vec::new(alloc);
    state.print(&mut bytes)?;
    let text = str::from_utf8(&bytes)?;
    Ok(format!(in alloc; "{state:?} {text}")?)
}

fn may_move(alloc: Global, words: &str) -> anyhow::Result<String> {
    let (from, to) = first_word(words);
    let from = TableState::parse(from.as_bytes())?;
    let to = TableState::parse(to.as_bytes())?;
    shown(alloc, Ok(TableState::allowed(&from, &to)))
}
