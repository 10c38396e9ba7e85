//! Rows of a field and its answer: prices, array indices, values, nodes as operators.

use crate::made::item_of;
use crate::named::kind_named;
use crate::printed::write_value;
use crate::values::{needs, units_of, value_of};
use anyhow::Error;
use charged_heap::{Heap, Item, index_of, price_of};
use js_ops::{Operator, same, truthy, type_of};
use std::alloc::Global;
use test_tables::{Table, Tally};

pub fn run(rt: &HostRuntime, tally: &mut Tally, table: &Table) -> Result<(), Error> {
    for row in table.rows.as_slice() {
        let told = fact_of(rt.alloc(), &table.kind, row.field(0)?)?;
        tally.check(rt, row, row.field(1)?, &told)?;
    }
    Ok(())
}

fn fact_of(alloc: Global, kind: &str, field: &str) -> Result<String, Error> {
    match kind {
        "price" => Ok(format!(in alloc; "{}", price_of(&item_of(alloc, field)?))?),
        "index" => index_text(alloc, field),
        "size" => size_text(alloc),
        "node" => node_text(alloc, field),
        _ => value_text(alloc, field),
    }
}

fn index_text(alloc: Global, field: &str) -> Result<String, Error> {
    match index_of(&units_of(alloc, field)?) {
        Some(index) => Ok(format!(in alloc; "{index}")?),
        None => Ok(String::from_str(alloc, "none")?),
    }
}

/// Whether an item takes at most 96 bytes, beside what it owns.
fn size_text(alloc: Global) -> Result<String, Error> {
    let small = size_of::<Item>() <= 96;
    Ok(String::from_str(alloc, if small { "at most 96 bytes" } else { "more" })?)
}

/// The operator that a node is.
fn node_text(alloc: Global, field: &str) -> Result<String, Error> {
    let kind = kind_named(field)?;
    Ok(format!(in alloc; "{:?}", Operator::of_kind(kind))?)
}

/// A value as it is written, its type, whether it counts as true, and whether it is itself.
fn value_text(alloc: Global, field: &str) -> Result<String, Error> {
    let mut heap = Heap::new(alloc, 1000);
    let value = value_of(alloc, &mut heap, field)?;
    needs(heap.is_sound_value(value))?;
    let kind = type_of(&heap, value);
    let truth = truthy(&heap, value);
    let itself = same(&heap, value, value);
    let mut out = String::new(alloc);
    write_value(alloc, &mut out, &heap, value)?;
    Ok(format!(in alloc; "{out}, {kind:?}, {truth}, {itself}")?)
}
