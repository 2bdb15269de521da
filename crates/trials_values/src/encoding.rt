use anyhow::{Context, bail};
use sky_urlenc::{decode_row, encode_row};
use sky_val::{Row, Schema, Text, copy_columns};
use std::alloc::Global;
use trials::{first_number, no_command, ok, schema};

/// Texts that are read as rows of a table.
#[derive(Drop)]
pub struct Encoding {
    schema: Option<Schema>,
}

impl Encoding {
    pub fn new() -> Encoding {
        Encoding { schema: None }
    }

    pub fn answer(&mut self, alloc: Global, command: &str, text: &str) -> anyhow::Result<String> {
        match command {
            "table" => self.take_table(alloc, text),
            "name" => self.take_name(alloc, text),
            "decode" => self.decode(alloc, text),
            _ => Err(no_command()),
        }
    }

    // The table of the rows below.
    fn take_table(&mut self, alloc: Global, text: &str) -> anyhow::Result<String> {
        self.schema = Some(schema(alloc, text)?);
        ok(alloc)
    }

    // Another name for the column at a place. No script can have it.
    fn take_name(&mut self, alloc: Global, words: &str) -> anyhow::Result<String> {
        let (place, name) = first_number(words)?;
        let name = name.replace(alloc, "\\0", "\0")?;
        let name = name.replace(alloc, "\\t", "\t")?;
        let schema = self.schema.as_ref().context("no table")?;
        self.schema = Some(renamed(alloc, schema, place as usize, name.as_str())?);
        ok(alloc)
    }

    // The row of a text, written again, and its values; or the text's fault.
    fn decode(&self, alloc: Global, text: &str) -> anyhow::Result<String> {
        let schema = self.schema.as_ref().context("no table")?;
        match decode_row(alloc, schema, text.as_bytes()) {
            Ok(row) => written(alloc, schema, &row),
            Err(fault) => Ok(format!(in alloc; "{fault:?}")?),
        }
    }
}

fn written(alloc: Global, schema: &Schema, row: &Row) -> anyhow::Result<String> {
    let text = encode_row(alloc, schema, row)?;
    Ok(format!(in alloc; "{} {row:?}", text.as_str())?)
}

// The same columns, with another name at a place.
fn renamed(alloc: Global, schema: &Schema, place: usize, name: &str) -> anyhow::Result<Schema> {
    let mut columns = copy_columns(alloc, schema.columns())?;
    if place >= columns.len() || name.is_empty() {
        bail!("no name of a column");
    }
    columns[place].name = Text::from_bytes(alloc, name.as_bytes())?;
    Ok(Schema::new(columns)?)
}
