use sky_script::parse_line;
use std::alloc::Global;
use trials::{no_command, ok};

/// Whether a line is one of the grammar, or why not.
pub fn answer(alloc: Global, command: &str, line: &str) -> anyhow::Result<String> {
    match command {
        "line" => read(alloc, line),
        _ => Err(no_command()),
    }
}

fn read(alloc: Global, line: &str) -> anyhow::Result<String> {
    match parse_line(alloc, line.as_bytes()) {
        Ok(_) => ok(alloc),
        Err(cause) => Ok(format!(in alloc; "{cause}")?),
    }
}
