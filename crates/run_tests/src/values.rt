//! Values, as rows write them. README.md tells how.
ghost use Rattle.std.specs.Prelude.{OnOk, IsTrue};

use crate::made::item_of;
use crate::named::{builtin_named, error_named};
use anyhow::{Error, bail};
use charged_heap::{Heap, Item, Props, Value, Values};
use ivm_text::{ErrorKind, Items, Units};
use std::alloc::Global;

/// What a row needs, or else it can't be tried.
pub fn needs(holds: bool) -> Result<(), Error>
    ensures { OnOk result (IsTrue holds) }
{
    if holds {
        Ok(())
    } else {
        bail!("a number names no such item")
    }
}

/// Makes the value of a field in a heap. Each that is an item is a new item.
pub fn value_of(alloc: Global, heap: &mut Heap, field: &str) -> Result<Value, Error> {
    if let Some(value) = plain_value(field) {
        return Ok(value);
    }
    if let Some(name) = field.strip_prefix("function ") {
        return Ok(Value::Builtin(builtin_named(name)?));
    }
    match error_text(field) {
        Some((kind, message)) => error_of(alloc, heap, kind, message),
        None => Ok(Value::Item(heap.add(item_of(alloc, field)?)?)),
    }
}

fn plain_value(field: &str) -> Option<Value> {
    match field {
        "undefined" => Some(Value::Undefined),
        "null" => Some(Value::Null),
        "true" => Some(Value::Bool(true)),
        "false" => Some(Value::Bool(false)),
        _ => match field.parse::<i64>() {
            Ok(number) => Some(Value::Num(number)),
            Err(_) => None,
        },
    }
}

/// The constructor of a field `TypeError("bad")`, and its message.
pub fn error_text(field: &str) -> Option<(ErrorKind, &str)> {
    let Some((name, message)) = field.split_once('(') else {
        return None;
    };
    match (error_named(name), message.strip_suffix(')')) {
        (Some(kind), Some(message)) => Some((kind, message)),
        _ => None,
    }
}

/// An error behind its message.
fn error_of(
    alloc: Global,
    heap: &mut Heap,
    kind: ErrorKind,
    message: &str,
) -> Result<Value, Error> {
    let text = heap.add(Item::Text(units_of(alloc, message)?))?;
    Ok(Value::Item(heap.add(Item::Error(kind, text))?))
}

/// The string of a field: `"abc"`, where `\ud83d` is the unit of this number.
pub fn units_of(alloc: Global, field: &str) -> Result<Units, Error> {
    let mut pieces = between(field, '"', '"')?.split("\\u");
    let mut units = match pieces.next() {
        Some(piece) => Units::from_text(alloc, piece)?,
        None => Units::new(alloc),
    };
    for piece in pieces {
        push_piece(&mut units, piece)?;
    }
    Ok(units)
}

/// A unit by its four digits, and what stands behind them.
fn push_piece(units: &mut Units, piece: &str) -> Result<(), Error> {
    let Some((digits, rest)) = piece.split_at_checked(4) else {
        bail!("{piece}: a unit has four digits");
    };
    units.push_code(u32::from(u16::from_str_radix(digits, 16)?))?;
    for letter in rest.chars() {
        units.push_code(u32::from(letter))?;
    }
    Ok(())
}

/// The numbers of a field `[1,2]`.
pub fn numbers_of(alloc: Global, field: &str) -> Result<Values, Error> {
    let mut values = Items::new(alloc);
    for number in between(field, '[', ']')?.split_terminator(',') {
        values.push(Value::Num(number.parse::<i64>()?))?;
    }
    Ok(values)
}

/// The properties of a field `{"a":1,"b":2}`.
pub fn props_of(alloc: Global, field: &str) -> Result<Props, Error> {
    let mut props = Props::new(alloc)?;
    for property in between(field, '{', '}')?.split_terminator(',') {
        let Some((key, number)) = property.split_once(':') else {
            bail!("{field}: a property has a key and a number");
        };
        let value = Value::Num(number.parse::<i64>()?);
        props.put(alloc, &units_of(alloc, key)?, value)?;
    }
    Ok(props)
}

fn between(field: &str, first: char, last: char) -> Result<&str, Error> {
    match field
        .strip_prefix(first)
        .and_then(|rest| rest.strip_suffix(last))
    {
        Some(inside) => Ok(inside),
        None => bail!("{field}: not between {first} and {last}"),
    }
}
