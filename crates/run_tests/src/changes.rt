//! Changes of a heap: of its first item, or items that are added.
ghost use Rattle.std.specs.Prelude.{◌≡◌, ◌<◌, length};
ghost use Rattle.charged_heap.specs.Store.{item_at, place_count};

use crate::made::{HANDLER, item_of};
use crate::printed::given_text;
use crate::values::{error_text, needs, units_of};
use anyhow::{Error, bail};
use charged_heap::{Fail, Heap, HeapFault, Item, PromiseState, Value};
use ivm_text::Units;
use js_ops::throw;
use std::alloc::Global;
use test_tables::Row;

/// The cells of a row's item, and what comes of the change.
pub fn try_row(alloc: Global, heap: &mut Heap, row: &Row) -> Result<(u32, String), Error> {
    heap.add(item_of(alloc, row.field(0)?)?)?;
    let before = heap.charged();
    let change = row.field(1)?;
    let (word, rest) = match change.split_once(' ') {
        Some(parts) => parts,
        None => (change, ""),
    };
    if word == "make" || word == "throw" {
        let given = make(alloc, heap, rest)?;
        return Ok((before, given_text(alloc, heap, given)?));
    }
    let answer = match change_first(alloc, heap, word, rest)? {
        Ok(()) => String::from_str(alloc, "done")?,
        Err(fault) => given_text(alloc, heap, Err(Fail::from(fault)))?,
    };
    Ok((before, answer))
}

/// Throws a new error, or makes a string.
fn make(alloc: Global, heap: &mut Heap, field: &str) -> Result<Result<Value, Fail>, Error> {
    match error_text(field) {
        Some((kind, message)) => Ok(throw(heap, kind, units_of(alloc, message)?)),
        None => Ok(make_text(heap, units_of(alloc, field)?)),
    }
}

/// A new string as a value.
fn make_text(heap: &mut Heap, units: Units) -> Result<Value, Fail> {
    Ok(Value::Item(charged_heap::make(heap, Item::Text(units))?))
}

/// What may ask for cells.
fn change_first(
    alloc: Global,
    heap: &mut Heap,
    word: &str,
    rest: &str,
) -> Result<Result<(), HeapFault>, Error> {
    match word {
        "add" => Ok(heap.add(item_of(alloc, rest)?).map(|_| ())),
        "twice" => add_two(alloc, heap, rest),
        "room" => Ok(heap.room(rest.parse::<u64>()?)),
        "property" => {
            needs(heap.is_plain(0))?;
            Ok(heap.set(0, &units_of(alloc, rest)?, Value::Null))
        }
        "element" => {
            needs(heap.is_array(0))?;
            Ok(heap.push(0, Value::Null))
        }
        "fill" => Ok(fill(heap, rest.parse::<u32>()?)),
        "binding" => {
            needs(heap.is_scope(0))?;
            Ok(heap.declare(0, &Units::new(alloc), false))
        }
        "reaction" => {
            needs(heap.is_promise(0))?;
            Ok(heap.react(0, HANDLER))
        }
        _ => {
            change_free(alloc, heap, word)?;
            Ok(Ok(()))
        }
    }
}

/// Two of an item in one charge.
fn add_two(alloc: Global, heap: &mut Heap, field: &str) -> Result<Result<(), HeapFault>, Error> {
    let mut two = Vec::new(alloc);
    two.push(item_of(alloc, field)?)?;
    two.push(item_of(alloc, field)?)?;
    Ok(heap.add_all(two))
}

/// Adds elements to the first item until one is refused, at most so many.
fn fill(heap: &mut Heap, most: u32) -> Result<(), HeapFault> {
    for _ in 0..most {
        if heap.is_array(0) {
            heap.push(0, Value::Null)?;
        }
    }
    Ok(())
}

/// What asks for no cells.
fn change_free(alloc: Global, heap: &mut Heap, word: &str) -> Result<(), Error> {
    match word {
        "put" => {
            needs(heap.len() > 0)?;
            put_first(heap);
        }
        "pop" => {
            needs(heap.is_array(0))?;
            let _last = heap.pop(0);
        }
        "note" => {
            needs(heap.is_scope(0))?;
            heap.declare_function(0, &Units::new(alloc))?;
        }
        "resolve" => {
            needs(heap.is_promise(0))?;
            heap.resolve(0, PromiseState::Adopting);
        }
        "release" => {
            needs(heap.is_reference(0))?;
            heap.release(0);
        }
        _ => bail!("{word}: no change of a heap"),
    }
    Ok(())
}

/// How many elements or bindings the first item has.
fn places(heap: &Heap) -> u32
    requires { 0 < length heap.now.items }
    ensures { result ≡ place_count (item_at heap.now 0) }
{
    match heap.get(0) {
        Item::Array(values) => values.len(),
        Item::Scope { bindings, .. } => bindings.len(),
        _ => 0,
    }
}

fn put_first(heap: &mut Heap)
    requires { 0 < length heap.old.items }
{
    if places(heap) > 0 {
        heap.put(0, 0, Value::Num(1));
    }
}
