//! Members of values: what a key reads, what a write leaves, `push` and `pop`.

use crate::printed::given_text;
use crate::sums::{answer_of, limit_of, sum_of, total_of};
use crate::trials::from_end;
use crate::values::{needs, numbers_of, units_of, value_of};
use anyhow::{Error, bail};
use charged_heap::{Fail, Heap, Value};
use js_members::{pop, push, read, write};
use std::alloc::Global;
use test_tables::{Row, Table, Tally};

/// The cells of a row's value, and what comes of what is done with it.
pub fn try_row(alloc: Global, heap: &mut Heap, row: &Row) -> Result<(u32, String), Error> {
    let base = value_of(alloc, heap, row.field(0)?)?;
    let before = heap.charged();
    let given = act(alloc, heap, base, row.field(1)?, row.field(2)?)?;
    Ok((before, given_text(alloc, heap, given)?))
}

/// Reads a key, writes the number 7 to one, pushes numbers, or pops one.
fn act(
    alloc: Global,
    heap: &mut Heap,
    base: Value,
    action: &str,
    operand: &str,
) -> Result<Result<Value, Fail>, Error> {
    needs(heap.is_sound_value(base))?;
    match action {
        "read" => Ok(read(alloc, heap, base, &units_of(alloc, operand)?)),
        "write" => write_seven(alloc, heap, base, operand),
        "push" => {
            let arguments = numbers_of(alloc, operand)?;
            needs(heap.are_sound_values(&arguments))?;
            Ok(push(alloc, heap, base, arguments.as_slice()))
        }
        "pop" => Ok(pop(alloc, heap, base)),
        _ => bail!("{action}: no action of the rows"),
    }
}

/// What is written is read again.
fn write_seven(
    alloc: Global,
    heap: &mut Heap,
    base: Value,
    key: &str,
) -> Result<Result<Value, Fail>, Error> {
    let key = units_of(alloc, key)?;
    needs(heap.is_sound_value(base))?;
    let given = write(alloc, heap, base, &key, Value::Num(7));
    if given != Ok(Value::Num(7)) {
        return Ok(given);
    }
    needs(heap.is_sound_value(base))?;
    Ok(read(alloc, heap, base, &key))
}

/// Rows over one array: the first has the array and its heap's limit.
pub fn run_array(rt: &HostRuntime, tally: &mut Tally, table: &Table) -> Result<(), Error> {
    let alloc = rt.alloc();
    let Some((first, rows)) = table.rows.as_slice().split_first() else {
        bail!("{}: no row", table.place);
    };
    let mut heap = Heap::new(alloc, limit_of(sum_of(first.field(1)?)?)?);
    let array = value_of(alloc, &mut heap, first.field(0)?)?;
    for row in rows {
        let before = heap.charged();
        let given = act(alloc, &mut heap, array, row.field(0)?, row.field(1)?)?;
        let answer = given_text(alloc, &heap, given)?;
        check_step(rt, tally, row, &answer, before, heap.charged())?;
    }
    Ok(())
}

/// Whether a step over a heap gave its answer for its cells, the last two fields of its row.
pub fn check_step(
    rt: &HostRuntime,
    tally: &mut Tally,
    row: &Row,
    answer: &str,
    before: u32,
    after: u32,
) -> Result<(), Error> {
    let alloc = rt.alloc();
    let wanted = answer_of(alloc, from_end(row, 2)?)?;
    let wanted = format!(in alloc; "{wanted}; {} cells", total_of(from_end(row, 1)?)?)?;
    let taken = i64::from(after) - i64::from(before);
    let told = format!(in alloc; "{answer}; {taken} cells")?;
    tally.check(rt, row, &wanted, &told)
}
