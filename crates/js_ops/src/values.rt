//! What values are: true or false, the same as others, of which type.
ghost use Rattle.std.specs.Prelude.{◌≡◌, ◌↔◌, Some, None, IfSome, IfNone, IsTrue, length};
ghost use Rattle.charged_heap.specs.Closed.{IsSoundValue};
ghost use Rattle.js_ops.specs.Values.{units_in, string_at, is_item_true, truthy, is_same_text, is_builtin, same, IsSame, type_of_item, type_of, type_text};

use charged_heap::{Builtin, Heap, Item, Value};
use ivm_text::{TypeOf, Units};

/// The units of an item that is a string; none of all other items.
pub(crate) fn units_in(item: &Item) -> Option<&Units>
    ensures some { IfSome result (λ units. units_in item.now ≡ Some units.now) }
    ensures none { IfNone result (units_in item.now ≡ None) }
{
    match item {
        Item::Text(units) => Some(units),
        _ => None,
    }
}

/// The units of a value that is a string; none of all other values.
pub(crate) fn string_at(heap: &Heap, value: Value) -> Option<&Units>
    requires { IsSoundValue heap.now value }
    ensures some { IfSome result (λ units. string_at heap.now value ≡ Some units.now) }
    ensures none { IfNone result (string_at heap.now value ≡ None) }
{
    match value {
        Value::Item(n) => units_in(heap.get(n)),
        _ => None,
    }
}

fn is_item_true(item: &Item) -> bool
    ensures { result ≡ is_item_true item.now }
{
    match item {
        Item::Text(units) => units.len() != 0,
        _ => true,
    }
}

/// Whether a value is true where a condition is asked (ECMA-262, ToBoolean).
pub fn truthy(heap: &Heap, value: Value) -> bool
    requires { IsSoundValue heap.now value }
    ensures { result ≡ truthy heap.now value }
{
    match value {
        Value::Undefined | Value::Null => false,
        Value::Bool(truth) => truth,
        Value::Num(number) => number != 0,
        Value::Item(n) => is_item_true(heap.get(n)),
        Value::Builtin(_) => true,
    }
}

fn is_same_text(left: &Item, right: &Item) -> bool
    ensures { result ≡ is_same_text left.now right.now }
{
    match (left, right) {
        (Item::Text(left), Item::Text(right)) => left == right,
        _ => false,
    }
}

fn is_builtin(left: Builtin, right: Builtin) -> bool
    ensures { result ≡ is_builtin left right }
{
    left == right
}

/// Whether two values are of the same kind and the same value (ECMA-262, IsStrictlyEqual): strings by
/// their units, all other items by identity.
pub fn same(heap: &Heap, left: Value, right: Value) -> bool
    requires left { IsSoundValue heap.now left }
    requires right { IsSoundValue heap.now right }
    ensures value { result ≡ same heap.now left right }
    ensures law { IsTrue result ↔ IsSame heap.now left right }
{
    match (left, right) {
        (Value::Undefined, Value::Undefined) => true,
        (Value::Null, Value::Null) => true,
        (Value::Bool(left), Value::Bool(right)) => left == right,
        (Value::Num(left), Value::Num(right)) => left == right,
        (Value::Item(left), Value::Item(right)) => {
            left == right || is_same_text(heap.get(left), heap.get(right))
        }
        (Value::Builtin(left), Value::Builtin(right)) => is_builtin(left, right),
        _ => false,
    }
}

fn type_of_item(item: &Item) -> TypeOf
    ensures { result ≡ type_of_item item.now }
{
    match item {
        Item::Text(_) => TypeOf::Text,
        Item::Closure { .. } | Item::Settler { .. } | Item::Callback(_) => TypeOf::Function,
        _ => TypeOf::Object,
    }
}

/// The type of a value. It is `Null` exactly for null, which the operator `typeof` calls an object.
pub fn type_of(heap: &Heap, value: Value) -> TypeOf
    requires { IsSoundValue heap.now value }
    ensures { result ≡ type_of heap.now value }
{
    match value {
        Value::Undefined => TypeOf::Undefined,
        Value::Null => TypeOf::Null,
        Value::Bool(_) => TypeOf::Boolean,
        Value::Num(_) => TypeOf::Number,
        Value::Item(n) => type_of_item(heap.get(n)),
        Value::Builtin(_) => TypeOf::Function,
    }
}

/// What the operator `typeof` calls a type.
pub(crate) fn type_text(kind: TypeOf) -> &'static [u8]
    ensures { result.now ≡ type_text kind }
{
    match kind {
        TypeOf::Undefined => b"undefined",
        TypeOf::Null | TypeOf::Object => b"object",
        TypeOf::Boolean => b"boolean",
        TypeOf::Number => b"number",
        TypeOf::Text => b"string",
        TypeOf::Function => b"function",
    }
}
