//! The operators, with what they make in the heap.
ghost use Rattle.std.specs.Prelude.{◌≡◌};
ghost use Rattle.charged_heap.specs.Closed.{IsClosed, IsSoundValue};
ghost use Rattle.charged_heap.specs.Growth.{Grows};
ghost use Rattle.charged_heap.specs.Ends.{Meets, IsSoundResult};
ghost use Rattle.js_ops.specs.Outcome.{outcome_of, binary_outcome, unary_outcome};

use crate::decide::{binary_answer, unary_answer};
use crate::{Answer, BinaryOperator, UnaryOperator, refuse};
use charged_heap::{Fail, Heap, Item, Value, make};
use std::alloc::Global;

/// Carries an answer out: makes its string, or its error and throws it.
fn carry_out(alloc: Global, heap: &mut Heap, answer: Answer) -> Result<Value, Fail>
    ensures gives { Meets result heap.new (outcome_of answer heap.old) }

    ensures grown { Grows heap.old heap.new }
    ensures closed { IsClosed heap.old → IsClosed heap.new }
    ensures sound { IsSoundResult heap.new result }
{
    match answer {
        Answer::Truth(truth) => Ok(Value::Bool(truth)),
        Answer::Number(number) => Ok(Value::Num(number)),
        Answer::Text(units) => Ok(Value::Item(make(heap, Item::Text(units))?)),
        Answer::Fault(error) => refuse(alloc, heap, error),
    }
}

/// Applies an operator to two operands.
///
/// It gives the operator's value, which is a new string where it is one. `Throw` comes exactly where the
/// operator isn't defined on the operands: with a new TypeError `wrong kind of operand`, or a RangeError
/// `number out of range`, `not a whole quotient` or `division by zero`. `Over` comes exactly where the
/// cells of the string, or of the error's message and then of the error, don't fit; what was made before
/// stays in the heap. `NoMemory` may come.
#[tactic(auto, unfolding(crate::specs::Outcome::binary_outcome))]
pub fn binary(
    alloc: Global,
    heap: &mut Heap,
    operator: BinaryOperator,
    left: Value,
    right: Value,
) -> Result<Value, Fail>
    requires left { IsSoundValue heap.old left }
    requires right { IsSoundValue heap.old right }

    ensures gives { Meets result heap.new (binary_outcome operator left right heap.old) }

    ensures grown { Grows heap.old heap.new }
    ensures closed { IsClosed heap.old → IsClosed heap.new }
    ensures sound { IsSoundResult heap.new result }
{
    let answer = binary_answer(alloc, heap, operator, left, right)?;
    carry_out(alloc, heap, answer)
}

/// Applies an operator to one operand. It gives a value, throws and is refused as `binary`.
#[tactic(auto, unfolding(crate::specs::Outcome::unary_outcome))]
pub fn unary(
    alloc: Global,
    heap: &mut Heap,
    operator: UnaryOperator,
    operand: Value,
) -> Result<Value, Fail>
    requires { IsSoundValue heap.old operand }

    ensures gives { Meets result heap.new (unary_outcome operator operand heap.old) }

    ensures grown { Grows heap.old heap.new }
    ensures closed { IsClosed heap.old → IsClosed heap.new }
    ensures sound { IsSoundResult heap.new result }
{
    let answer = unary_answer(alloc, heap, operator, operand)?;
    carry_out(alloc, heap, answer)
}
