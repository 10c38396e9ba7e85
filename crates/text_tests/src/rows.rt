//! Rows of a text and its answer.

use crate::built::built;
use crate::copies::{arguments_line, copy_line};
use crate::lists::items_line;
use crate::nodes::{declared_line, forms_line, nodes_line};
use crate::refusals::{checked_line, fault_line};
use crate::texts::{keys_line, pair_line, units_line, whole_line};
use crate::tokens::tokens_line;
use crate::trees::trees_line;
use anyhow::{Error, bail};
use js_lexer::lex;
use js_literals::{arguments, literal};
use js_parser::parse;
use js_scripts::read_script;
use js_syntax::Script;
use std::alloc::Global;
use test_tables::{Row, Table, Tally, bytes_of, text_of};

/// No text of a row is longer.
const MOST: usize = 1 << 30;

/// Runs the rows of a table.
pub fn run(rt: &HostRuntime, tally: &mut Tally, table: &Table) -> Result<(), Error> {
    let alloc = rt.alloc();
    for row in table.rows.as_slice() {
        let (text, wanted) = match row.fields.len() {
            5 => (nested(alloc, row)?, row.field(4)?),
            _ => (bytes_of(alloc, row.field(0)?)?, row.field(1)?),
        };
        let wanted = text_of(alloc, wanted)?;
        let found = answer(alloc, table.kind.as_str(), &text)?;
        if !is_told(&found, &wanted) {
            tally.fail(rt, row, &wanted, &found)?;
        }
    }
    Ok(())
}

/// Whether an answer is the one that is wanted; a `…` in that stands for anything.
fn is_told(found: &str, wanted: &str) -> bool {
    match wanted.split_once('…') {
        Some((start, end)) => found.starts_with(start) && found.ends_with(end),
        None => found == wanted,
    }
}

/// The text of a row of five: what opens a form, how often, what stands innermost, what closes it as often.
fn nested(alloc: Global, row: &Row) -> Result<Vec<u8>, Error> {
    let opening = bytes_of(alloc, row.field(0)?)?;
    let times = row.field(1)?.parse::<u32>()?;
    let closing = bytes_of(alloc, row.field(3)?)?;
    let mut text = Vec::new(alloc);
    for _ in 0..times {
        text.extend_from_slice(&opening)?;
    }
    text.extend_from_slice(&bytes_of(alloc, row.field(2)?)?)?;
    for _ in 0..times {
        text.extend_from_slice(&closing)?;
    }
    Ok(text)
}

/// What a text is, to rows of this kind.
fn answer(alloc: Global, kind: &str, text: &[u8]) -> Result<String, Error> {
    if text.len() > MOST {
        bail!("a text is too long");
    }
    match kind {
        "tokens" => match lex(alloc, text) {
            Ok(tokens) => tokens_line(alloc, &tokens),
            Err(fault) => fault_line(alloc, &fault),
        },
        "literal" => match literal(alloc, text) {
            Ok(copy) => copy_line(alloc, &copy),
            Err(fault) => fault_line(alloc, &fault),
        },
        "arguments" => match arguments(alloc, text) {
            Ok(told) => arguments_line(alloc, &told),
            Err(fault) => fault_line(alloc, &fault),
        },
        "read" => match read_script(alloc, text) {
            Ok(checked) => forms_line(alloc, checked.script()),
            Err(fault) => fault_line(alloc, &fault),
        },
        "units" => units_line(alloc, text),
        "pair" | "whole" | "keys" | "items" | "built" => plain_answer(alloc, kind, text),
        _ => match parse(alloc, text) {
            Ok(script) => script_answer(alloc, kind, script),
            Err(fault) => fault_line(alloc, &fault),
        },
    }
}

fn plain_answer(alloc: Global, kind: &str, text: &[u8]) -> Result<String, Error> {
    let text = String::from_utf8_lossy(alloc, text)?;
    match kind {
        "pair" => pair_line(alloc, &text),
        "whole" => whole_line(alloc, &text),
        "keys" => keys_line(alloc, &text),
        "items" => items_line(alloc, &text),
        _ => checked_line(alloc, built(alloc, &text)?),
    }
}

fn script_answer(alloc: Global, kind: &str, script: Script) -> Result<String, Error> {
    match kind {
        "nodes" => nodes_line(alloc, &script, false),
        "trees" => trees_line(alloc, &script),
        "taken" => Ok(String::from_str(alloc, "taken")?),
        "checked" => checked_line(alloc, Some(script)),
        "declared" => declared_line(alloc, &script),
        _ => bail!("{kind} is no kind of rows"),
    }
}
