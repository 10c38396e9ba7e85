//! Operators on two values, and on one.

use crate::named::{binary_named, unary_named};
use crate::printed::given_text;
use crate::trials::AMPLE;
use crate::values::{needs, value_of};
use anyhow::{Error, bail};
use charged_heap::Heap;
use js_ops::{binary, unary};
use std::alloc::Global;
use test_tables::{Row, Table, Tally};

/// The cells of a row's operands, and what its operator gives.
pub fn try_row(alloc: Global, heap: &mut Heap, row: &Row) -> Result<(u32, String), Error> {
    match row.fields.len() {
        5 => try_two(alloc, heap, row.field(0)?, row.field(1)?, row.field(2)?),
        4 => try_one(alloc, heap, row.field(0)?, row.field(1)?),
        _ => bail!("{}: one operand or two", row.place),
    }
}

fn try_two(
    alloc: Global,
    heap: &mut Heap,
    left: &str,
    operator: &str,
    right: &str,
) -> Result<(u32, String), Error> {
    let left = value_of(alloc, heap, left)?;
    let right = value_of(alloc, heap, right)?;
    needs(heap.is_sound_value(left))?;
    needs(heap.is_sound_value(right))?;
    let before = heap.charged();
    let given = binary(alloc, heap, binary_named(operator)?, left, right);
    Ok((before, given_text(alloc, heap, given)?))
}

fn try_one(
    alloc: Global,
    heap: &mut Heap,
    operator: &str,
    operand: &str,
) -> Result<(u32, String), Error> {
    let operand = value_of(alloc, heap, operand)?;
    needs(heap.is_sound_value(operand))?;
    let before = heap.charged();
    let given = unary(alloc, heap, unary_named(operator)?, operand);
    Ok((before, given_text(alloc, heap, given)?))
}

/// The first row has the right operands; each other one an operator, a left operand and answers.
pub fn run_pairs(rt: &HostRuntime, tally: &mut Tally, table: &Table) -> Result<(), Error> {
    let Some((first, rows)) = table.rows.as_slice().split_first() else {
        bail!("{}: no row", table.place);
    };
    for row in rows {
        if row.fields.len() != first.fields.len().saturating_add(1) {
            bail!("{}: an answer for each right operand", row.place);
        }
        let answers = row.fields.as_slice().iter().skip(2);
        for (right, answer) in first.fields.as_slice().iter().skip(1).zip(answers) {
            run_pair(rt, tally, row, right, answer)?;
        }
    }
    Ok(())
}

/// An answer `-` is the TypeError of a wrong kind; each other one is a value.
fn run_pair(
    rt: &HostRuntime,
    tally: &mut Tally,
    row: &Row,
    right: &str,
    answer: &str,
) -> Result<(), Error> {
    let alloc = rt.alloc();
    let wanted = match answer {
        "-" => String::from_str(alloc, "throw TypeError(\"wrong kind of operand\")")?,
        _ => format!(in alloc; "value {answer}")?,
    };
    let mut heap = Heap::new(alloc, AMPLE);
    let (_, told) = try_two(alloc, &mut heap, row.field(1)?, row.field(0)?, right)?;
    tally.check(rt, row, &wanted, &told)
}
