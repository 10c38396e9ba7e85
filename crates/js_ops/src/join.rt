//! Texts joined by `+`.
ghost use Rattle.std.specs.Prelude.{◌≡◌, Some, None, IfOk, MatchOption};
ghost use Rattle.charged_heap.specs.Closed.{IsSoundValue};
ghost use Rattle.js_ops.specs.Values.{string_at, primitive_text};
ghost use Rattle.js_ops.specs.Operators.{joined_values};

use crate::values::string_at;
use crate::{Answer, ScriptError};
use charged_heap::{Heap, Value};
use ivm_text::{NoMemory, Units};
use std::alloc::Global;

/// The text of a primitive that is no string; none of all other values.
fn primitive_text(alloc: Global, value: Value) -> Result<Option<Units>, NoMemory>
    ensures { IfOk result (λ text. text ≡ primitive_text value) }
{
    let text = match value {
        Value::Undefined => Units::from_latin1(alloc, b"undefined")?,
        Value::Null => Units::from_latin1(alloc, b"null")?,
        Value::Bool(true) => Units::from_latin1(alloc, b"true")?,
        Value::Bool(false) => Units::from_latin1(alloc, b"false")?,
        Value::Num(number) => Units::decimal(alloc, number)?,
        Value::Item(_) | Value::Builtin(_) => return Ok(None),
    };
    Ok(Some(text))
}

/// A string with a string or with a primitive, on either side.
pub(crate) fn joined_values(
    alloc: Global,
    heap: &Heap,
    left: Value,
    right: Value,
) -> Result<Answer, NoMemory>
    requires left { IsSoundValue heap.now left }
    requires right { IsSoundValue heap.now right }
    ensures { IfOk result (λ answer. answer ≡ joined_values left right (string_at heap.now left) (string_at heap.now right)) }
{
    match (string_at(heap, left), string_at(heap, right)) {
        (None, None) => Ok(Answer::Fault(ScriptError::WrongKind)),
        (Some(first), None) => match primitive_text(alloc, right)? {
            Some(second) => Ok(Answer::Text(first.join(alloc, &second)?)),
            None => Ok(Answer::Fault(ScriptError::WrongKind)),
        },
        (None, Some(second)) => match primitive_text(alloc, left)? {
            Some(first) => Ok(Answer::Text(first.join(alloc, second)?)),
            None => Ok(Answer::Fault(ScriptError::WrongKind)),
        },
        (Some(first), Some(second)) => Ok(Answer::Text(first.join(alloc, second)?)),
    }
}
