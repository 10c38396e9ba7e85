//! Scripts in a context: how they end, the ticks that they take and the cells that they charge.

use crate::contexts::{Context, carry_out, new_context, read_text};
use crate::printed::end_text;
use crate::sums::{answer_of, limit_of, sum_of, total_of};
use crate::trials::{AMPLE, from_end};
use anyhow::Error;
use std::alloc::Global;
use test_tables::{Row, Table, Tally, text_of};

/// A row is in a new context, unless it says `then`.
pub fn run(rt: &HostRuntime, tally: &mut Tally, table: &Table) -> Result<(), Error> {
    let alloc = rt.alloc();
    let mut context = new_context(alloc, AMPLE)?;
    for row in table.rows.as_slice() {
        let how = if row.fields.len() > 4 {
            row.field(0)?
        } else {
            ""
        };
        if !how.starts_with("then") {
            context = new_context(alloc, limit_in(how)?)?;
        }
        run_row(rt, tally, &mut context, row, how)?;
    }
    Ok(())
}

/// The limit of a row's heap: that of a context, and `cells=`.
fn limit_in(how: &str) -> Result<u32, Error> {
    match number_in(how, "cells=")? {
        Some(cells) => limit_of(sum_of("c")?.saturating_add(cells)),
        None => Ok(AMPLE),
    }
}

/// The sum behind a word, where it is told.
fn number_in(how: &str, word: &str) -> Result<Option<u64>, Error> {
    for part in how.split(' ') {
        if let Some(sum) = part.strip_prefix(word) {
            return Ok(Some(sum_of(sum)?));
        }
    }
    Ok(None)
}

/// The last fields are the text, the answer, the ticks and the cells; `_` is not compared.
fn run_row(
    rt: &HostRuntime,
    tally: &mut Tally,
    context: &mut Context,
    row: &Row,
    how: &str,
) -> Result<(), Error> {
    let alloc = rt.alloc();
    let cells = from_end(row, 1)?;
    let total = if cells == "_" { 0 } else { total_of(cells)? };
    let answer = answer_of(alloc, from_end(row, 3)?)?;
    let wanted = format!(in alloc; "{answer}; {} ticks, {total} cells", from_end(row, 2)?)?;
    let budget = match number_in(how, "ticks=")? {
        Some(ticks) => limit_of(ticks)?,
        None => AMPLE,
    };
    let text = text_of(alloc, from_end(row, 4)?)?;
    let told = told_of_text(alloc, context, &text, budget, cells == "_")?;
    tally.check(rt, row, &wanted, &told)
}

/// What comes of a text, without its cells where they aren't asked.
fn told_of_text(
    alloc: Global,
    context: &mut Context,
    text: &str,
    budget: u32,
    is_unasked: bool,
) -> Result<String, Error> {
    let checked = match read_text(alloc, text.as_bytes())? {
        Ok(checked) => checked,
        Err(refusal) => return Ok(format!(in alloc; "{refusal}; 0 ticks, 0 cells")?),
    };
    let run = carry_out(alloc, context, checked, budget)?;
    let cells = if is_unasked { 0 } else { run.cells };
    let answer = end_text(alloc, &context.heap, run.end)?;
    Ok(format!(in alloc; "{answer}; {} ticks, {cells} cells", run.ticks)?)
}
