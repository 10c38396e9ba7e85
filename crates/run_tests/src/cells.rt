//! A cell: what it performs one after another, what it tells of itself, and its journal at the end.

use crate::fronts::priced;
use crate::told::{told_of_call, told_of_outcome};
use anyhow::{Error, bail};
use isolate_core::Cell;
use ivm_text::{Items, Want};
use std::alloc::Global;
use task_history::{Entry, Out, Shared, Task, TaskKind};
use test_tables::{Row, Table, Tally, bytes_of};

/// Takes the turns of a table, whose first row gives the limit in cells, and then tries its journal.
pub fn run(rt: &HostRuntime, tally: &mut Tally, table: &Table) -> Result<(), Error> {
    let alloc = rt.alloc();
    let mut cell = Cell::new(alloc, 0, limit_of(alloc, table)?)?;
    for row in table.rows.as_slice() {
        take_turn(rt, tally, &mut cell, row)?;
    }
    let mut place = 0;
    for row in table.rows.as_slice() {
        if row.field(0)? == "entry" {
            run_entry(rt, tally, cell.journal().get(place), row)?;
            place = usize::saturating_add(place, 1);
        }
    }
    Ok(())
}

fn limit_of(alloc: Global, table: &Table) -> Result<u32, Error> {
    match table.rows.first() {
        Some(row) => Ok(priced(alloc, row.field(1)?)?.parse::<u32>()?),
        None => bail!("{}: no limit", table.place),
    }
}

/// The entry is that of the row.
fn run_entry(
    rt: &HostRuntime,
    tally: &mut Tally,
    entry: Option<&Entry>,
    row: &Row,
) -> Result<(), Error> {
    let alloc = rt.alloc();
    let told = match entry {
        Some(entry) => told_of_entry(alloc, entry)?,
        None => String::from_str(alloc, "no entry")?,
    };
    tally.check(rt, row, &priced(alloc, row.field(1)?)?, &told)
}

/// Does what a row says with the cell, if it says anything of it.
fn take_turn(rt: &HostRuntime, tally: &mut Tally, cell: &mut Cell, row: &Row) -> Result<(), Error> {
    let alloc = rt.alloc();
    match row.field(0)? {
        "context" | "eval" => perform(cell, row, task_of(alloc, row)?),
        "stop" => {
            cell.dispose();
            Ok(())
        }
        "cell" => {
            let state = if cell.is_ended() { "ended" } else { "live" };
            let entries = cell.journal().len();
            let told = format!(in alloc; "{state}, {entries} entries, {} cells", cell.charged())?;
            tally.check(rt, row, &priced(alloc, row.field(1)?)?, &told)
        }
        "limit" | "entry" => Ok(()),
        _ => bail!("{}: no such row", row.place),
    }
}

fn perform(cell: &mut Cell, row: &Row, task: Task) -> Result<(), Error> {
    if !cell.may_perform(&task) {
        bail!("{}: a task that doesn't fit", row.place);
    }
    cell.perform(task)?;
    Ok(())
}

/// The task of a row: its call and, where it runs a text in the first context, its ticks and the text.
fn task_of(alloc: Global, row: &Row) -> Result<Task, Error> {
    let call = match row.field(1)? {
        "no call" => None,
        number => Some(number.parse::<u32>()?),
    };
    if row.field(0)? == "context" {
        let kind = TaskKind::Context;
        return Ok(Task {
            call,
            budget: 10,
            kind,
        });
    }
    let mut text = Items::new(alloc);
    for byte in bytes_of(alloc, row.field(3)?)? {
        text.push(byte)?;
    }
    Ok(Task {
        call,
        budget: row.field(2)?.parse::<u32>()?,
        kind: TaskKind::Eval {
            context: 0,
            text: Shared::new(alloc, text)?,
            want: Want::Value,
        },
    })
}

/// `task to call 7: value 42, 7 ticks, 13 cells`. A stop has no task.
fn told_of_entry(alloc: Global, entry: &Entry) -> Result<String, Error> {
    let mut told = String::from_str(alloc, if entry.task.is_some() { "task" } else { "stop" })?;
    for out in entry.outs.as_slice() {
        match out {
            Out::Reply { call, .. } => {
                let call = told_of_call(alloc, *call)?;
                told.push_str(&format!(in alloc; " to {call}")?)?;
            }
            _ => told.push_str(" another out")?,
        }
    }
    let outcome = told_of_outcome(alloc, &entry.outcome)?;
    let (ticks, cells) = (entry.ticks, entry.cells);
    told.push_str(&format!(in alloc; ": {outcome}, {ticks} ticks, {cells} cells")?)?;
    Ok(told)
}
