//! What a key reads of a value, before anything is made in the heap.
ghost use Rattle.std.specs.Prelude.{◌≡◌, ◌<◌, ◌∷◌, [], IfOk, IfSome};
ghost use Rattle.ivm_text.specs.declared.key_order.TheConstants.{INDEX_END};
ghost use Rattle.charged_heap.specs.Closed.{IsSoundValue};
ghost use Rattle.js_members.specs.Reads.{array_member, array_reading, error_member, error_name, item_reading, or_undefined, reading_of, text_member, text_reading, unit_reading};

use crate::MemberName;
use crate::names::member_name;
use charged_heap::{Builtin, Heap, Item, Value, Values};
use ivm_text::{ErrorKind, NoMemory, Units, index_of};
use js_ops::ScriptError;
use std::alloc::Global;

/// What a key reads of a value.
#[derive(Debug, Drop)]
pub enum Reading {
    /// A value that is there already.
    Held(Value),
    /// A string that is to be made.
    Made(Units),
    /// An error that is to be made and thrown.
    Fault(ScriptError),
}

fn or_undefined(value: Option<Value>) -> Reading
    ensures { result ≡ or_undefined value }
{
    match value {
        Some(value) => Reading::Held(value),
        None => Reading::Held(Value::Undefined),
    }
}

fn array_member(values: &Values, name: Option<MemberName>) -> Reading
    ensures { result ≡ array_member values.now name }
{
    match name {
        Some(MemberName::Length) => Reading::Held(Value::Num(values.len() as i64)),
        Some(MemberName::Push) => Reading::Held(Value::Builtin(Builtin::ArrayPush)),
        Some(MemberName::Pop) => Reading::Held(Value::Builtin(Builtin::ArrayPop)),
        Some(MemberName::Name | MemberName::Message) | None => Reading::Held(Value::Undefined),
    }
}

/// What an array has at an index, or else under a name.
fn array_reading(values: &Values, index: Option<u64>, name: Option<MemberName>) -> Reading
    requires { IfSome index (λ k. k < INDEX_END) }
    ensures { result ≡ array_reading values.now index name }
{
    match index {
        Some(index) => or_undefined(values.get(index as u32).copied()),
        None => array_member(values, name),
    }
}

/// The string of one unit.
fn one_unit(alloc: Global, unit: u16) -> Result<Units, NoMemory>
    ensures { IfOk result (λ units. units ≡ unit ∷ []) }
{
    let mut units = Units::new(alloc);
    units.push_code(unit as u32)?;
    Ok(units)
}

/// What a string has under a name. A length that is no number would need more memory than there is.
fn text_member(units: &Units, name: Option<MemberName>) -> Result<Reading, NoMemory>
    ensures { IfOk result (λ reading. reading ≡ text_member units.now name) }
{
    match name {
        Some(MemberName::Length) => match i64::try_from(units.len()) {
            Ok(length) => Ok(Reading::Held(Value::Num(length))),
            Err(_) => Err(NoMemory),
        },
        _ => Ok(Reading::Held(Value::Undefined)),
    }
}

/// What a string has at an index, or else under a name.
fn text_reading(
    alloc: Global,
    units: &Units,
    index: Option<u64>,
    name: Option<MemberName>,
) -> Result<Reading, NoMemory>
    requires { IfSome index (λ k. k < INDEX_END) }
    ensures { IfOk result (λ reading. reading ≡ text_reading units.now index name) }
{
    let Some(index) = index else {
        return text_member(units, name);
    };
    match units.get(index as usize) {
        Some(unit) => Ok(Reading::Made(one_unit(alloc, unit)?)),
        None => Ok(Reading::Held(Value::Undefined)),
    }
}

fn error_name(kind: ErrorKind) -> &'static [u8]
    ensures { result.now ≡ error_name kind }
{
    match kind {
        ErrorKind::Error => b"Error",
        ErrorKind::TypeError => b"TypeError",
        ErrorKind::RangeError => b"RangeError",
        ErrorKind::ReferenceError => b"ReferenceError",
        ErrorKind::SyntaxError => b"SyntaxError",
    }
}

/// What an error has under a name; its message is a string by number.
fn error_member(
    alloc: Global,
    kind: ErrorKind,
    message: u32,
    name: Option<MemberName>,
) -> Result<Reading, NoMemory>
    ensures { IfOk result (λ reading. reading ≡ error_member kind message name) }
{
    match name {
        Some(MemberName::Name) => Ok(Reading::Made(Units::from_latin1(alloc, error_name(kind))?)),
        Some(MemberName::Message) => Ok(Reading::Held(Value::Item(message))),
        _ => Ok(Reading::Held(Value::Undefined)),
    }
}

/// What a key reads of an item.
fn item_reading(alloc: Global, item: &Item, key: &Units) -> Result<Reading, NoMemory>
    ensures { IfOk result (λ reading. reading ≡ item_reading item.now key.now) }
{
    match item {
        Item::Text(units) => text_reading(alloc, units, index_of(key), member_name(key)),
        Item::Plain(props) => Ok(or_undefined(props.get(key))),
        Item::Array(values) => Ok(array_reading(values, index_of(key), member_name(key))),
        Item::Error(kind, message) => error_member(alloc, *kind, *message, member_name(key)),
        _ => Ok(Reading::Held(Value::Undefined)),
    }
}

/// What a key reads of a value.
#[tactic(auto, unfolding(crate::specs::Reads::reading_of))]
pub(crate) fn reading_of(
    alloc: Global,
    heap: &Heap,
    base: Value,
    key: &Units,
) -> Result<Reading, NoMemory>
    requires { IsSoundValue heap.now base }
    ensures { IfOk result (λ reading. reading ≡ reading_of heap.now base key.now) }
{
    match base {
        Value::Undefined | Value::Null => Ok(Reading::Fault(ScriptError::NoObject)),
        Value::Item(n) => item_reading(alloc, heap.get(n), key),
        Value::Bool(_) | Value::Num(_) | Value::Builtin(_) => Ok(Reading::Held(Value::Undefined)),
    }
}
