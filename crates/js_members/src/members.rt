//! Reads and writes of members, with what they make in the heap.
ghost use Rattle.std.specs.Prelude.{◌≡◌};
ghost use Rattle.charged_heap.specs.Closed.{IsClosed, IsSoundValue};
ghost use Rattle.charged_heap.specs.Growth.{Grows};
ghost use Rattle.charged_heap.specs.Ends.{Meets, IsSoundResult};
ghost use Rattle.js_members.specs.Reads.{reading_outcome, read_outcome, IsSoundReading};
ghost use Rattle.js_members.specs.Writes.{target_outcome, write_outcome, FitsTarget};

use crate::reading::reading_of;
use crate::target::target_of;
use crate::{Reading, Target};
use charged_heap::{Fail, Heap, Item, Value, make};
use ivm_text::Units;
use js_ops::refuse;
use std::alloc::Global;

/// Carries a reading out: makes its string, or its error and throws it.
fn carry_out(alloc: Global, heap: &mut Heap, reading: Reading) -> Result<Value, Fail>
    ensures gives { Meets result heap.new (reading_outcome reading heap.old) }

    ensures grown { Grows heap.old heap.new }
    ensures closed { IsClosed heap.old → IsClosed heap.new }
    ensures sound { IsSoundReading heap.old reading → IsSoundResult heap.new result }
{
    match reading {
        Reading::Held(value) => Ok(value),
        Reading::Made(units) => Ok(Value::Item(make(heap, Item::Text(units))?)),
        Reading::Fault(fault) => refuse(alloc, heap, fault),
    }
}

/// Reads a member of a value (ECMA-262, GetValue).
///
/// It gives what stands at the key, and undefined where nothing does. A unit of a string and the name of
/// an error are new strings. `Throw` comes exactly where the value is undefined or null: with a new
/// TypeError `property of undefined or null`. `Over` comes exactly where the cells of the string, or of
/// the error's message and then of the error, don't fit; what was made before stays in the heap.
/// `NoMemory` may come.
#[tactic(auto, unfolding(crate::specs::Reads::read_outcome), using(crate::proofs::Sound::reading_sound))]
pub fn read(alloc: Global, heap: &mut Heap, base: Value, key: &Units) -> Result<Value, Fail>
    requires { IsSoundValue heap.old base }

    ensures gives { Meets result heap.new (read_outcome base key.now heap.old) }

    ensures grown { Grows heap.old heap.new }
    ensures closed { IsClosed heap.old → IsClosed heap.new }
    ensures sound { IsClosed heap.old → IsSoundResult heap.new result }
{
    let reading = reading_of(alloc, heap, base, key)?;
    carry_out(alloc, heap, reading)
}

/// Writes to where a write goes, and gives the value that was written.
fn write_to(
    alloc: Global,
    heap: &mut Heap,
    target: Target,
    key: &Units,
    value: Value,
) -> Result<Value, Fail>
    requires target { FitsTarget heap.old target }
    requires value { IsSoundValue heap.old value }

    ensures gives { Meets result heap.new (target_outcome target key.now value heap.old) }

    ensures grown { Grows heap.old heap.new }
    ensures closed { IsClosed heap.old → IsClosed heap.new }
    ensures sound { IsSoundResult heap.new result }
{
    match target {
        Target::Property(n) => heap.set(n, key, value)?,
        Target::Element(n, place) => heap.put(n, place, value),
        Target::End(n) => heap.push(n, value)?,
        Target::Refused(fault) => return refuse(alloc, heap, fault),
    }
    Ok(value)
}

/// Writes a member of a value (ECMA-262, PutValue), and gives the value that was written.
///
/// `Throw` comes with a new error: TypeError `property of undefined or null` where the value is one of
/// these; RangeError `index past the end` for an array index above the array's length; TypeError
/// `cannot write this member` for all but the properties of plain objects and the indices of arrays.
/// `Over` comes exactly where the cells of a new property or element, or of the error's message and then
/// of the error, don't fit; what was made before stays in the heap. `NoMemory` may come.
#[tactic(auto, unfolding(crate::specs::Writes::write_outcome))]
pub fn write(
    alloc: Global,
    heap: &mut Heap,
    base: Value,
    key: &Units,
    value: Value,
) -> Result<Value, Fail>
    requires base { IsSoundValue heap.old base }
    requires value { IsSoundValue heap.old value }

    ensures gives { Meets result heap.new (write_outcome base key.now value heap.old) }

    ensures grown { Grows heap.old heap.new }
    ensures closed { IsClosed heap.old → IsClosed heap.new }
    ensures sound { IsSoundResult heap.new result }
{
    let target = target_of(heap, base, key);
    write_to(alloc, heap, target, key, value)
}
