//! Comparisons of numbers and of strings.
ghost use Rattle.std.specs.Prelude.{◌≡◌};
ghost use Rattle.charged_heap.specs.Closed.{IsSoundValue};
ghost use Rattle.js_ops.specs.Operators.{compares_numbers, compares_texts, comparison_of};

use crate::values::string_at;
use crate::{Answer, Comparison, ScriptError};
use charged_heap::{Heap, Value};
use ivm_text::Units;

fn compares_numbers(operator: Comparison, left: i64, right: i64) -> bool
    ensures { result ≡ compares_numbers operator left right }
{
    match operator {
        Comparison::Less => left < right,
        Comparison::More => right < left,
        Comparison::AtMost => left <= right,
        Comparison::AtLeast => right <= left,
    }
}

fn compares_texts(operator: Comparison, left: &Units, right: &Units) -> bool
    ensures { result ≡ compares_texts operator left.now right.now }
{
    match operator {
        Comparison::Less => left.less(right),
        Comparison::More => right.less(left),
        Comparison::AtMost => !right.less(left),
        Comparison::AtLeast => !left.less(right),
    }
}

/// Two numbers or two strings compared.
pub(crate) fn comparison_of(heap: &Heap, operator: Comparison, left: Value, right: Value) -> Answer
    requires left { IsSoundValue heap.now left }
    requires right { IsSoundValue heap.now right }
    ensures { result ≡ comparison_of heap.now operator left right }
{
    if let (Value::Num(left), Value::Num(right)) = (left, right) {
        return Answer::Truth(compares_numbers(operator, left, right));
    }
    match (string_at(heap, left), string_at(heap, right)) {
        (Some(left), Some(right)) => Answer::Truth(compares_texts(operator, left, right)),
        _ => Answer::Fault(ScriptError::WrongKind),
    }
}
