//! Calls of built-in functions, and of what can't be called.
ghost use Rattle.std.specs.Prelude.{◌≡◌, IsErr};
ghost use Rattle.std.specs.List.{All};
ghost use Rattle.charged_heap.specs.Closed.{IsClosed, IsSoundValue};
ghost use Rattle.charged_heap.specs.Growth.{Grows};
ghost use Rattle.charged_heap.specs.Ends.{Meets, IsSoundResult};
ghost use Rattle.script_meaning.specs.Functions.{no_function, builtin_outcome};

use charged_heap::{Builtin, Fail, Heap, Value};
use ivm_text::{ErrorKind, Units};
use std::alloc::Global;

/// Throws the error of a call of what is no function: a new TypeError `not a function`.
pub(crate) fn refuse_call(alloc: Global, heap: &mut Heap) -> Result<Value, Fail>
    ensures gives { Meets result heap.new (no_function heap.old) }
    ensures err { IsErr result }

    ensures grown { Grows heap.old heap.new }
    ensures closed { IsClosed heap.old → IsClosed heap.new }
    ensures sound { IsSoundResult heap.new result }
{
    let message = Units::from_latin1(alloc, b"not a function")?;
    js_ops::throw(heap, ErrorKind::TypeError, message)
}

/// Calls a built-in function. The tick of its call is taken before.
///
/// `Throw` comes with a new error: as `push` and `pop` throw, and TypeError `not a function` for those
/// that aren't built yet. `Over` comes exactly where the cells of what is made don't fit; what was made
/// before stays in the heap. `NoMemory` may come.
pub fn call_builtin(
    alloc: Global,
    heap: &mut Heap,
    which: Builtin,
    receiver: Value,
    arguments: &[Value],
) -> Result<Value, Fail>
    requires receiver { IsSoundValue heap.old receiver }
    requires arguments { All (IsSoundValue heap.old) arguments.now }

    ensures gives { Meets result heap.new (builtin_outcome which receiver arguments.now heap.old) }

    ensures grown { Grows heap.old heap.new }
    ensures closed { IsClosed heap.old → IsClosed heap.new }
    ensures sound { IsClosed heap.old → IsSoundResult heap.new result }
{
    match which {
        Builtin::ArrayPush => js_members::push(alloc, heap, receiver, arguments),
        Builtin::ArrayPop => js_members::pop(alloc, heap, receiver),
        _ => refuse_call(alloc, heap),
    }
}
