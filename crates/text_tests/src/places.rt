//! Words and punctuators in each kind of place where one could stand.

use crate::refusals::fault_line;
use anyhow::{Error, bail};
use js_parser::parse;
use std::alloc::Global;
use test_tables::{Row, Table, Tally, text_of};

/// The list of a file with this name.
pub fn list_named<'a>(tables: &'a [Table], name: &str) -> Result<&'a Table, Error> {
    for table in tables {
        if table.name.as_str() == name && table.kind.as_str() == "list" {
            return Ok(table);
        }
    }
    bail!("no list has the name {name}")
}

/// A row has a list of words, a list of places, and what comes of each of the words in each of the places.
pub fn run(
    rt: &HostRuntime,
    tally: &mut Tally,
    tables: &[Table],
    table: &Table,
) -> Result<(), Error> {
    for row in table.rows.as_slice() {
        let words = list_named(tables, row.field(0)?)?;
        let places = list_named(tables, row.field(1)?)?;
        for place in places.rows.as_slice() {
            let found = wrong(rt.alloc(), words, place, row.field(2)?)?;
            tally.check(rt, place, "", &found)?;
        }
    }
    Ok(())
}

/// The texts of words in a place that are not answered as they are to be, with their answers.
fn wrong(alloc: Global, words: &Table, place: &Row, wanted: &str) -> Result<String, Error> {
    let mut wrong = String::new(alloc);
    let before = text_of(alloc, place.field(0)?)?;
    let behind = text_of(alloc, place.field(1)?)?;
    for row in words.rows.as_slice() {
        let word = text_of(alloc, row.field(0)?)?;
        let text = format!(in alloc; "{before}{word}{behind}")?;
        let found = taken(alloc, &text)?;
        if found != right(alloc, &word, before.len(), wanted)? {
            write!(wrong, "{text}: {found}; ")?;
        }
    }
    Ok(wrong)
}

fn taken(alloc: Global, text: &str) -> Result<String, Error> {
    if text.len() > 1000 {
        bail!("a text is too long");
    }
    match parse(alloc, text.as_bytes()) {
        Ok(_script) => Ok(String::from_str(alloc, "taken")?),
        Err(fault) => fault_line(alloc, &fault),
    }
}

/// The answer to a text in which a word stands at a byte.
fn right(alloc: Global, word: &str, byte: usize, wanted: &str) -> Result<String, Error> {
    match wanted {
        "foreign" => Ok(format!(in alloc; "OutOfProfile {byte} {word}")?),
        "misplaced" => Ok(format!(in alloc; "Unexpected {byte}")?),
        "ended" => Ok(format!(in alloc; "Unexpected {}", byte.saturating_add(word.len()))?),
        _ => Ok(String::from_str(alloc, wanted)?),
    }
}
