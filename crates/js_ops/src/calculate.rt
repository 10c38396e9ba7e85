//! Arithmetic on whole numbers from -(2^53 - 1) to 2^53 - 1.
ghost use Rattle.std.specs.Prelude.{◌≡◌};
ghost use Rattle.js_ops.specs.Numbers.{in_range, quotient, remainder, calculated};
ghost use Rattle.js_ops.specs.Operators.{of_number};

use crate::{Answer, Arithmetic, ScriptError};

// 2^53 - 1
const GREATEST: i64 = 9_007_199_254_740_991;

/// The number, where it is in range.
pub(crate) fn in_range(number: i64) -> Result<i64, ScriptError>
    ensures { result ≡ in_range number }
{
    if number >= -GREATEST && number <= GREATEST {
        Ok(number)
    } else {
        Err(ScriptError::OutOfRange)
    }
}

fn quotient(left: i64, right: i64) -> Result<i64, ScriptError>
    ensures { result ≡ quotient left right }
{
    if right == 0 {
        return Err(ScriptError::DivisionByZero);
    }
    if left.wrapping_rem(right) != 0 {
        return Err(ScriptError::NotWhole);
    }
    match left.checked_div(right) {
        Some(number) => in_range(number),
        None => Err(ScriptError::OutOfRange),
    }
}

fn remainder(left: i64, right: i64) -> Result<i64, ScriptError>
    ensures { result ≡ remainder left right }
{
    if right == 0 {
        return Err(ScriptError::DivisionByZero);
    }
    in_range(left.wrapping_rem(right))
}

/// The result of an operator on two numbers.
pub(crate) fn calculated(operator: Arithmetic, left: i64, right: i64) -> Result<i64, ScriptError>
    ensures { result ≡ calculated operator left right }
{
    let number = match operator {
        Arithmetic::Add => left.checked_add(right),
        Arithmetic::Sub => left.checked_sub(right),
        Arithmetic::Mul => left.checked_mul(right),
        Arithmetic::Div => return quotient(left, right),
        Arithmetic::Rem => return remainder(left, right),
    };
    match number {
        Some(number) => in_range(number),
        None => Err(ScriptError::OutOfRange),
    }
}

/// A number, or why there is none.
pub(crate) fn of_number(number: Result<i64, ScriptError>) -> Answer
    ensures { result ≡ of_number number }
{
    match number {
        Ok(number) => Answer::Number(number),
        Err(fault) => Answer::Fault(fault),
    }
}
