use sky_val::{Event, Text};
use std::alloc::Global;
use trials::{no_command, shown};

/// The copy of an event.
pub fn answer(alloc: Global, command: &str, words: &str) -> anyhow::Result<String> {
    match command {
        "event" => event(alloc, words),
        _ => Err(no_command()),
    }
}

// An event that has the words as its last texts.
fn event(alloc: Global, words: &str) -> anyhow::Result<String> {
    let event = event_of(texts(alloc, words)?);
    shown(alloc, event.copy(alloc))
}

fn event_of(mut texts: Vec<Text>) -> Event {
    Event {
        ev_id: 1,
        ev_time: 2,
        ev_txid: 3,
        ev_owner: Some(4),
        ev_retry: Some(5),
        ev_extra4: texts.pop(),
        ev_extra3: texts.pop(),
        ev_extra2: texts.pop(),
        ev_extra1: texts.pop(),
        ev_data: texts.pop(),
        ev_type: texts.pop(),
    }
}

fn texts(alloc: Global, words: &str) -> anyhow::Result<Vec<Text>> {
    let mut texts = Vec::new(alloc);
    for word in words.split(' ') {
        texts.push(Text::from_bytes(alloc, word.as_bytes())?)?;
    }
    Ok(texts)
}
