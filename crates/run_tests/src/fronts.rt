//! What the rows of a table have in common, and texts with parts that are repeated.

use crate::sums::sum_of;
use anyhow::{Error, bail};
use std::alloc::Global;
use test_tables::{Row, Table, bytes_of};

/// The first fields of the rows that say something of the rows below them.
const WORDS: [&str; 7] = ["front", "end", "told", "status", "words", "reads", "writes"];

/// Whether a row says something of those below it.
pub fn is_common(row: &Row) -> Result<bool, Error> {
    let field = row.field(0)?;
    Ok(WORDS.iter().any(|word| *word == field))
}

/// What the last row above this place says of a word, or nothing.
pub fn common<'a>(table: &'a Table, place: usize, word: &str) -> Result<&'a str, Error> {
    for passed in 0..place {
        let Some(row) = table.rows.get(place - 1 - passed) else {
            continue;
        };
        if row.field(0)? == word {
            return row.field(1);
        }
    }
    Ok("∅")
}

/// The host script of a row: its field, between what the rows above say stands before and behind it.
pub fn script_at(alloc: Global, table: &Table, place: usize, row: &Row) -> Result<Vec<u8>, Error> {
    let front = common(table, place, "front")?;
    let end = common(table, place, "end")?;
    let field = row.field(0)?;
    expanded(alloc, &format!(in alloc; "{front}{field}{end}")?)
}

/// The bytes of a text. `«3×TEXT»` is TEXT three times, with the number of each, from 0, for its `#`.
pub fn expanded(alloc: Global, text: &str) -> Result<Vec<u8>, Error> {
    let text = priced(alloc, text)?;
    let mut bytes = Vec::new(alloc);
    for piece in text.split('«') {
        match piece.split_once('»') {
            Some((repeated, rest)) => {
                push_repeated(alloc, &mut bytes, repeated)?;
                bytes.extend_from_slice(&bytes_of(alloc, rest)?)?;
            }
            None => bytes.extend_from_slice(&bytes_of(alloc, piece)?)?,
        }
    }
    Ok(bytes)
}

/// A text with a number of cells in place of each sum of prices that stands between `⟨` and `⟩`.
pub fn priced(alloc: Global, text: &str) -> Result<String, Error> {
    let mut priced = String::new(alloc);
    for piece in text.split('⟨') {
        match piece.split_once('⟩') {
            Some((sum, rest)) => {
                let cells = sum_of(sum)?;
                priced.push_str(&format!(in alloc; "{cells}{rest}")?)?;
            }
            None => priced.push_str(piece)?,
        }
    }
    Ok(priced)
}

fn push_repeated(alloc: Global, bytes: &mut Vec<u8>, repeated: &str) -> Result<(), Error> {
    let Some((times, text)) = repeated.split_once('×') else {
        bail!("a « has no × behind it: {repeated}");
    };
    for number in 0..times.parse::<u32>()? {
        let text = numbered(alloc, text, number)?;
        bytes.extend_from_slice(&bytes_of(alloc, &text)?)?;
    }
    Ok(())
}

/// A text with a number in place of each `#`.
pub fn numbered(alloc: Global, text: &str, number: u32) -> Result<String, Error> {
    let number = format!(in alloc; "{number}")?;
    Ok(text.replace(alloc, "#", &number)?)
}
