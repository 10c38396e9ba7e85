//! What each operator comes to on its operands.
ghost use Rattle.std.specs.Prelude.{◌≡◌, IfOk};
ghost use Rattle.charged_heap.specs.Closed.{IsSoundValue};
ghost use Rattle.js_ops.specs.Operators.{calculation, binary_answer, sign_of, signed, unary_answer};

use crate::calculate::{calculated, in_range, of_number};
use crate::compare::comparison_of;
use crate::join::joined_values;
use crate::values::{same, truthy, type_of, type_text};
use crate::{Answer, Arithmetic, BinaryOperator, ScriptError, UnaryOperator};
use charged_heap::{Heap, Value};
use ivm_text::{NoMemory, Units};
use std::alloc::Global;

/// Arithmetic on two numbers, or `+` on texts.
fn calculation(
    alloc: Global,
    heap: &Heap,
    operator: Arithmetic,
    left: Value,
    right: Value,
) -> Result<Answer, NoMemory>
    requires left { IsSoundValue heap.now left }
    requires right { IsSoundValue heap.now right }
    ensures { IfOk result (λ answer. answer ≡ calculation heap.now operator left right) }
{
    if let (Value::Num(left), Value::Num(right)) = (left, right) {
        return Ok(of_number(calculated(operator, left, right)));
    }
    match operator {
        Arithmetic::Add => joined_values(alloc, heap, left, right),
        _ => Ok(Answer::Fault(ScriptError::WrongKind)),
    }
}

/// What an operator of two operands comes to.
pub(crate) fn binary_answer(
    alloc: Global,
    heap: &Heap,
    operator: BinaryOperator,
    left: Value,
    right: Value,
) -> Result<Answer, NoMemory>
    requires left { IsSoundValue heap.now left }
    requires right { IsSoundValue heap.now right }
    ensures { IfOk result (λ answer. answer ≡ binary_answer heap.now operator left right) }
{
    match operator {
        BinaryOperator::Calculate(operator) => calculation(alloc, heap, operator, left, right),
        BinaryOperator::Compare(operator) => Ok(comparison_of(heap, operator, left, right)),
        BinaryOperator::Same => Ok(Answer::Truth(same(heap, left, right))),
        BinaryOperator::NotSame => Ok(Answer::Truth(!same(heap, left, right))),
    }
}

/// What `-`, `+`, `++` and `--` come to on a number.
fn sign_of(operator: UnaryOperator, number: i64) -> Answer
    ensures { result ≡ sign_of operator number }
{
    match operator {
        UnaryOperator::Minus => of_number(calculated(Arithmetic::Sub, 0, number)),
        UnaryOperator::Plus => of_number(in_range(number)),
        UnaryOperator::Raise => of_number(calculated(Arithmetic::Add, number, 1)),
        UnaryOperator::Lower => of_number(calculated(Arithmetic::Sub, number, 1)),
        UnaryOperator::Not | UnaryOperator::TypeOf => Answer::Fault(ScriptError::WrongKind),
    }
}

/// What they come to on a value.
fn signed(operator: UnaryOperator, operand: Value) -> Answer
    ensures { result ≡ signed operator operand }
{
    match operand {
        Value::Num(number) => sign_of(operator, number),
        _ => Answer::Fault(ScriptError::WrongKind),
    }
}

/// What an operator of one operand comes to.
pub(crate) fn unary_answer(
    alloc: Global,
    heap: &Heap,
    operator: UnaryOperator,
    operand: Value,
) -> Result<Answer, NoMemory>
    requires { IsSoundValue heap.now operand }
    ensures { IfOk result (λ answer. answer ≡ unary_answer heap.now operator operand) }
{
    match operator {
        UnaryOperator::Not => Ok(Answer::Truth(!truthy(heap, operand))),
        UnaryOperator::TypeOf => {
            let text = type_text(type_of(heap, operand));
            Ok(Answer::Text(Units::from_latin1(alloc, text)?))
        }
        UnaryOperator::Minus | UnaryOperator::Plus | UnaryOperator::Raise | UnaryOperator::Lower =>
            Ok(signed(operator, operand)),
    }
}
