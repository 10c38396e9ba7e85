//! Errors made in the heap and thrown.
ghost use Rattle.std.specs.Prelude.{◌≡◌, IsErr};
ghost use Rattle.charged_heap.specs.Closed.{IsClosed};
ghost use Rattle.charged_heap.specs.Growth.{Grows};
ghost use Rattle.charged_heap.specs.Ends.{Meets, IsSoundResult};
ghost use Rattle.js_ops.specs.Outcome.{thrown};

use charged_heap::{Fail, Heap, Item, Value, make};
use ivm_text::{ErrorKind, Units};

/// Throws a new error: its message is made first, and then the error, each with its own charge.
///
/// It is always an `Err`: `Throw` with the error, or `Over` exactly where the cells of the message or
/// then those of the error don't fit. A message that was made stays. `NoMemory` may come at either.
pub fn throw(heap: &mut Heap, kind: ErrorKind, message: Units) -> Result<Value, Fail>
    ensures gives { Meets result heap.new (thrown kind message heap.old) }
    ensures err { IsErr result }

    ensures grown { Grows heap.old heap.new }
    ensures closed { IsClosed heap.old → IsClosed heap.new }
    ensures sound { IsSoundResult heap.new result }
{
    let text = make(heap, Item::Text(message))?;
    let error = make(heap, Item::Error(kind, text))?;
    Err(Fail::Throw(Value::Item(error)))
}
