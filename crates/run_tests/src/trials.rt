//! Rows tried with room enough, with exactly their cells, and with one cell less at each charge.

use crate::sums::{answer_of, limit_of, sum_of, total_of};
use crate::{changes, members, operators};
use anyhow::Error;
use charged_heap::Heap;
use std::alloc::Global;
use test_tables::{Row, Table, Tally};

/// Room enough for each row.
pub const AMPLE: u32 = 1_000_000;

/// What came of a trial.
#[derive(Drop)]
struct Trial {
    answer: String,
    /// The cells that were charged before it.
    before: u32,
    /// Those that are charged after it.
    after: u32,
}

pub fn run(rt: &HostRuntime, tally: &mut Tally, table: &Table) -> Result<(), Error> {
    for row in table.rows.as_slice() {
        let cells = from_end(row, 1)?;
        match cells.strip_prefix("in ") {
            Some(limit) => run_within(rt, tally, &table.kind, row, limit)?,
            None => run_row(rt, tally, &table.kind, row, cells)?,
        }
    }
    Ok(())
}

/// The field of this number from the end, of which the last is 1.
pub fn from_end(row: &Row, number: usize) -> Result<&str, Error> {
    row.field(row.fields.len().saturating_sub(number))
}

/// A row that says in a heap of which limit it is tried.
fn run_within(
    rt: &HostRuntime,
    tally: &mut Tally,
    kind: &str,
    row: &Row,
    limit: &str,
) -> Result<(), Error> {
    let trial = trial_of(rt.alloc(), kind, row, limit_of(sum_of(limit)?)?)?;
    let wanted = answer_of(rt.alloc(), from_end(row, 2)?)?;
    tally.check(rt, row, &wanted, &trial.answer)
}

fn run_row(
    rt: &HostRuntime,
    tally: &mut Tally,
    kind: &str,
    row: &Row,
    cells: &str,
) -> Result<(), Error> {
    let total = total_of(cells)?;
    let wanted = answer_of(rt.alloc(), from_end(row, 2)?)?;
    let before = run_in(rt, tally, kind, row, AMPLE, &wanted, total)?;
    let mut charged = u64::from(before);
    if !cells.starts_with('-') {
        for charge in cells.split(", ") {
            let asked = sum_of(charge)?;
            run_short(rt, tally, kind, row, before, charged, asked)?;
            charged = charged.saturating_add(asked);
        }
    }
    run_in(rt, tally, kind, row, limit_of(charged)?, &wanted, total)?;
    Ok(())
}

/// One cell is missing for a charge: it is refused, and what was charged before stays.
fn run_short(
    rt: &HostRuntime,
    tally: &mut Tally,
    kind: &str,
    row: &Row,
    before: u32,
    charged: u64,
    asked: u64,
) -> Result<(), Error> {
    if asked == 0 {
        return Ok(());
    }
    let limit = charged.saturating_add(asked).saturating_sub(1);
    let refused = format!(in rt.alloc(); "memory charged={charged} asked={asked} limit={limit}")?;
    let made = i64::try_from(charged.saturating_sub(u64::from(before)))?;
    run_in(rt, tally, kind, row, limit_of(limit)?, &refused, made)?;
    Ok(())
}

/// In a heap with this limit the row gives that answer for so many cells; the cells before.
fn run_in(
    rt: &HostRuntime,
    tally: &mut Tally,
    kind: &str,
    row: &Row,
    limit: u32,
    answer: &str,
    cells: i64,
) -> Result<u32, Error> {
    let alloc = rt.alloc();
    let trial = trial_of(alloc, kind, row, limit)?;
    let taken = i64::from(trial.after) - i64::from(trial.before);
    let wanted = format!(in alloc; "{answer}; {cells} cells")?;
    let told = format!(in alloc; "{}; {taken} cells", trial.answer)?;
    tally.check(rt, row, &wanted, &told)?;
    Ok(trial.before)
}

fn trial_of(alloc: Global, kind: &str, row: &Row, limit: u32) -> Result<Trial, Error> {
    let mut heap = Heap::new(alloc, limit);
    let (before, answer) = match kind {
        "operator" => operators::try_row(alloc, &mut heap, row)?,
        "member" => members::try_row(alloc, &mut heap, row)?,
        _ => changes::try_row(alloc, &mut heap, row)?,
    };
    Ok(Trial {
        answer,
        before,
        after: heap.charged(),
    })
}
