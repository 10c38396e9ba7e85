//! The items of a heap, as rows name them: `array 3` has three elements.

use crate::values::{numbers_of, props_of, units_of};
use anyhow::{Error, bail};
use charged_heap::{Binding, Bindings, Item, Names, PromiseState, Reaction, Value};
use ivm_text::{Copy as PlainCopy, ErrorKind, Handle, Items, Leaf, TypeOf, Units};
use std::alloc::Global;

pub const HANDLER: Reaction = Reaction {
    good: Value::Undefined,
    bad: Value::Null,
    next: None,
};

const HANDLE: Handle = Handle {
    isolate: 0,
    row: 0,
    kind: TypeOf::Object,
};

/// The item that a field names.
pub fn item_of(alloc: Global, field: &str) -> Result<Item, Error> {
    if field.starts_with('"') {
        return Ok(Item::Text(units_of(alloc, field)?));
    }
    if field.starts_with('[') {
        return Ok(Item::Array(numbers_of(alloc, field)?));
    }
    if field.starts_with('{') {
        return Ok(Item::Plain(props_of(alloc, field)?));
    }
    match field.split_once(' ') {
        Some((word, count)) => with_parts(alloc, word, count.parse::<u32>()?),
        None => single(alloc, field),
    }
}

/// A string of so many units, or an item with so many parts.
fn with_parts(alloc: Global, word: &str, count: u32) -> Result<Item, Error> {
    match word {
        "string" => string(alloc, count),
        "array" => array(alloc, count),
        "scope" => scope(alloc, count),
        "promise" => promise(alloc, count),
        _ => bail!("{word}: no item with parts"),
    }
}

fn string(alloc: Global, count: u32) -> Result<Item, Error> {
    let mut units = Units::new(alloc);
    for _ in 0..count {
        units.push_code(97)?;
    }
    Ok(Item::Text(units))
}

fn array(alloc: Global, count: u32) -> Result<Item, Error> {
    let mut values = Items::new(alloc);
    for _ in 0..count {
        values.push(Value::Null)?;
    }
    Ok(Item::Array(values))
}

fn scope(alloc: Global, count: u32) -> Result<Item, Error> {
    let mut bindings = Bindings::new(alloc);
    for _ in 0..count {
        let binding = Binding {
            name: Units::new(alloc),
            constant: false,
            value: None,
        };
        bindings.push(alloc, binding)?;
    }
    Ok(Item::Scope {
        parent: None,
        bindings,
        functions: Names::new(),
    })
}

fn promise(alloc: Global, count: u32) -> Result<Item, Error> {
    let mut reactions = Items::new(alloc);
    for _ in 0..count {
        reactions.push(HANDLER)?;
    }
    Ok(Item::Promise {
        state: PromiseState::Pending,
        reactions,
    })
}

fn single(alloc: Global, word: &str) -> Result<Item, Error> {
    Ok(match word {
        "error" => Item::Error(ErrorKind::Error, 0),
        "closure" => Item::Closure {
            script: 0,
            node: 0,
            scope: 0,
            global: 0,
            receiver: Value::Undefined,
        },
        "settler" => Item::Settler {
            promise: 0,
            good: true,
        },
        "reference" => Item::Reference {
            to: HANDLE,
            released: false,
        },
        "deref" => Item::Deref(HANDLE),
        "external" => Item::External(copy(alloc)),
        "into" => Item::Into(copy(alloc)),
        "callback" => Item::Callback(0),
        "row" => Item::Row(Value::Null),
        "script" => Item::Script(0),
        _ => bail!("{word}: no value and no item"),
    })
}

fn copy(alloc: Global) -> PlainCopy {
    PlainCopy {
        nodes: Items::new(alloc),
        root: Leaf::Null,
    }
}
