//! The member functions of arrays.
ghost use Rattle.std.specs.Prelude.{◌≡◌, IfSome, length};
ghost use Rattle.std.specs.List.{All};
ghost use Rattle.charged_heap.specs.Closed.{IsClosed, IsSoundValue};
ghost use Rattle.charged_heap.specs.Growth.{Grows};
ghost use Rattle.charged_heap.specs.Store.{IsAt, IsArray, elements, item_at};
ghost use Rattle.charged_heap.specs.Ends.{Meets, IsSoundResult};
ghost use Rattle.js_members.specs.Arrays.{array_at, array_number, pushed, popped, push_outcome, pop_outcome};

use charged_heap::{Fail, Heap, Item, Value};
use js_ops::{ScriptError, refuse};
use std::alloc::Global;

/// The number of a value that is an array; none of all other values.
fn array_at(heap: &Heap, value: Value) -> Option<u32>
    requires { IsSoundValue heap.now value }
    ensures number { result ≡ array_at heap.now value }
    ensures array { IfSome result (IsAt IsArray heap.now) }
{
    match value {
        Value::Item(n) => match heap.get(n) {
            Item::Array(_) => Some(n),
            _ => None,
        },
        _ => None,
    }
}

/// How many elements an array has.
fn count_at(heap: &Heap, n: u32) -> u32
    requires { IsAt IsArray heap.now n }
    ensures { result ≡ length (elements (item_at heap.now n)) }
{
    match heap.get(n) {
        Item::Array(values) => values.len(),
        _ => unreachable!(),
    }
}

/// Adds values at an array's end, one after the other, and gives its new length.
fn push_all(heap: &mut Heap, n: u32, values: &[Value]) -> Result<Value, Fail>
    requires array { IsAt IsArray heap.old n }
    requires values { All (IsSoundValue heap.old) values.now }

    ensures gives { Meets result heap.new (pushed n values.now heap.old) }

    ensures grown { Grows heap.old heap.new }
    ensures closed { IsClosed heap.old → IsClosed heap.new }
    ensures sound { IsSoundResult heap.new result }
{
    for value in values {
        heap.push(n, *value)?;
    }
    Ok(Value::Num(count_at(heap, n) as i64))
}

/// Calls `push` of an array (ECMA-262, Array.prototype.push) with these arguments, and gives the
/// array's new length.
///
/// `Throw` comes exactly where the receiver is no array: with a new TypeError `bad argument`. `Over`
/// comes where the cell of an argument doesn't fit; the arguments before it stay in the array. It also
/// comes where the cells of the error's message, and then of the error, don't fit. `NoMemory` may come.
#[tactic(auto, unfolding(crate::specs::Arrays::push_outcome))]
pub fn push(
    alloc: Global,
    heap: &mut Heap,
    receiver: Value,
    arguments: &[Value],
) -> Result<Value, Fail>
    requires receiver { IsSoundValue heap.old receiver }
    requires arguments { All (IsSoundValue heap.old) arguments.now }

    ensures gives { Meets result heap.new (push_outcome receiver arguments.now heap.old) }

    ensures grown { Grows heap.old heap.new }
    ensures closed { IsClosed heap.old → IsClosed heap.new }
    ensures sound { IsSoundResult heap.new result }
{
    match array_at(heap, receiver) {
        Some(n) => push_all(heap, n, arguments),
        None => refuse(alloc, heap, ScriptError::BadArgument),
    }
}

/// Takes an array's last element off, and gives it; undefined where the array is empty.
fn pop_at(heap: &mut Heap, n: u32) -> Value
    requires { IsAt IsArray heap.old n }

    ensures value { popped n (elements (item_at heap.old n)) heap.old ≡ (Ok result, heap.new) }

    ensures grown { Grows heap.old heap.new }
    ensures closed { IsClosed heap.old → IsClosed heap.new }
    ensures sound { IsClosed heap.old → IsSoundValue heap.new result }
{
    heap.pop(n).unwrap_or(Value::Undefined)
}

/// Calls `pop` of an array (ECMA-262, Array.prototype.pop), whose arguments are all dropped. It gives
/// the last element, which the array then lacks, and its cell back; and undefined where the array is empty.
///
/// `Throw` comes exactly where the receiver is no array: with a new TypeError `bad argument`. `Over`
/// comes exactly where then the cells of the error's message, and then of the error, don't fit.
/// `NoMemory` may come there too.
#[tactic(auto, unfolding(crate::specs::Arrays::pop_outcome))]
pub fn pop(alloc: Global, heap: &mut Heap, receiver: Value) -> Result<Value, Fail>
    requires { IsSoundValue heap.old receiver }

    ensures gives { Meets result heap.new (pop_outcome receiver heap.old) }

    ensures grown { Grows heap.old heap.new }
    ensures closed { IsClosed heap.old → IsClosed heap.new }
    ensures sound { IsClosed heap.old → IsSoundResult heap.new result }
{
    match array_at(heap, receiver) {
        Some(n) => Ok(pop_at(heap, n)),
        None => refuse(alloc, heap, ScriptError::BadArgument),
    }
}
