//! How values and the ends of runs are written: in the words of docs/FORMATS.md, else as literals.

use anyhow::{Error, bail};
use charged_heap::{Fail, Heap, Item, Props, Value, Values, key_order};
use ivm_text::Units;
use script_meaning::{Completion, StopCause};
use std::alloc::Global;

/// Of a value so many pieces are written, and then `..`: an object may hold itself.
const PIECES: usize = 200;

/// What is still to be written.
#[derive(Clone, Copy)]
enum Piece<'a> {
    Value(Value),
    Key(&'a Units),
    Word(&'static str),
}

/// What a call gave.
pub fn given_text(alloc: Global, heap: &Heap, given: Result<Value, Fail>) -> Result<String, Error> {
    let end = match given {
        Ok(value) => Completion::Normal(value),
        Err(Fail::Throw(value)) => Completion::Throw(value),
        Err(Fail::Over(overrun)) => Completion::Stop(StopCause::Memory(overrun)),
        Err(Fail::NoMemory) => bail!("no memory"),
    };
    end_text(alloc, heap, end)
}

/// How a run ended.
pub fn end_text(alloc: Global, heap: &Heap, end: Completion) -> Result<String, Error> {
    let mut out = String::new(alloc);
    match end {
        Completion::Normal(value) => {
            out.push_str("value ")?;
            write_value(alloc, &mut out, heap, value)?;
        }
        Completion::Throw(value) => {
            out.push_str("throw ")?;
            write_value(alloc, &mut out, heap, value)?;
        }
        Completion::Stop(StopCause::Timeout) => out.push_str("timeout")?,
        Completion::Stop(StopCause::Memory(overrun)) => write!(
            out,
            "memory charged={} asked={} limit={}",
            overrun.charged, overrun.asked, overrun.limit
        )?,
    }
    Ok(out)
}

/// A value with all that it holds.
pub fn write_value(
    alloc: Global,
    out: &mut String,
    heap: &Heap,
    value: Value,
) -> Result<(), Error> {
    let mut pieces = Vec::new(alloc);
    pieces.push(Piece::Value(value))?;
    for _ in 0..PIECES {
        match pieces.pop() {
            Some(Piece::Value(value)) => write_one(alloc, out, heap, &mut pieces, value)?,
            Some(Piece::Key(key)) => write_string(out, key)?,
            Some(Piece::Word(word)) => out.push_str(word)?,
            None => return Ok(()),
        }
    }
    out.push_str("..")?;
    Ok(())
}

fn write_one<'a>(
    alloc: Global,
    out: &mut String,
    heap: &'a Heap,
    pieces: &mut Vec<Piece<'a>>,
    value: Value,
) -> Result<(), Error> {
    match value {
        Value::Undefined => out.push_str("undefined")?,
        Value::Null => out.push_str("null")?,
        Value::Bool(truth) => write!(out, "{truth}")?,
        Value::Num(number) => write!(out, "{number}")?,
        Value::Builtin(builtin) => write!(out, "function {builtin:?}")?,
        Value::Item(n) if n < heap.len() => write_item(alloc, out, heap, pieces, heap.get(n))?,
        Value::Item(_) => out.push_str("no item")?,
    }
    Ok(())
}

/// The item's first piece; the others, the last of them first, are left to be written.
fn write_item<'a>(
    alloc: Global,
    out: &mut String,
    heap: &Heap,
    pieces: &mut Vec<Piece<'a>>,
    item: &'a Item,
) -> Result<(), Error> {
    match item {
        Item::Text(units) => write_string(out, units)?,
        Item::Error(kind, message) => {
            write!(out, "{kind:?}(")?;
            write_message(out, heap, *message)?;
            out.push(')')?;
        }
        Item::Array(values) => {
            out.push('[')?;
            push_elements(pieces, values)?;
        }
        Item::Plain(props) => {
            out.push('{')?;
            push_properties(alloc, pieces, props)?;
        }
        Item::Closure { .. } => out.push_str("function")?,
        _ => out.push_str("another item")?,
    }
    Ok(())
}

fn push_elements(pieces: &mut Vec<Piece<'_>>, values: &Values) -> Result<(), Error> {
    if values.len() == 0 {
        pieces.push(Piece::Word("]"))?;
    }
    let mut is_last = true;
    for value in values.as_slice().iter().rev() {
        pieces.push(Piece::Word(if is_last { "]" } else { "," }))?;
        pieces.push(Piece::Value(*value))?;
        is_last = false;
    }
    Ok(())
}

fn push_properties<'a>(
    alloc: Global,
    pieces: &mut Vec<Piece<'a>>,
    props: &'a Props,
) -> Result<(), Error> {
    if props.len() == 0 {
        pieces.push(Piece::Word("}"))?;
    }
    let mut is_last = true;
    for place in key_order(alloc, props)?.iter().rev() {
        if *place < props.len() {
            let (key, value) = props.entry(*place);
            pieces.push(Piece::Word(if is_last { "}" } else { "," }))?;
            pieces.push(Piece::Value(value))?;
            pieces.push(Piece::Word(":"))?;
            pieces.push(Piece::Key(key))?;
            is_last = false;
        }
    }
    Ok(())
}

fn write_message(out: &mut String, heap: &Heap, n: u32) -> Result<(), Error> {
    if n < heap.len() {
        if let Item::Text(units) = heap.get(n) {
            write_string(out, units)?;
        }
    }
    Ok(())
}

/// A string in quotes. A unit that isn't printable ASCII is written by its number.
fn write_string(out: &mut String, units: &Units) -> Result<(), Error> {
    out.push('"')?;
    for place in 0..units.len() {
        if let Some(unit) = units.get(place) {
            write_unit(out, unit)?;
        }
    }
    out.push('"')?;
    Ok(())
}

fn write_unit(out: &mut String, unit: u16) -> Result<(), Error> {
    match unit {
        0x22 => out.push_str("\\\"")?,
        0x5c => out.push_str("\\\\")?,
        0x20..=0x7e => out.push(unit as u8 as char)?,
        _ => write!(out, "\\u{unit:04x}")?,
    }
    Ok(())
}
