//! The values of rows: how their properties are read and written.
ghost use Rattle.std.specs.Prelude.{◌≡◌, ◌<◌, IfOk, IfSome, Some, length};
ghost use Rattle.charged_heap.specs.Closed.{IsClosed as IsClosedStore, IsSoundValue};
ghost use Rattle.isolate_meaning.specs.State.{AreClosed, HeapIsClosed};
ghost use Rattle.isolate_meaning.specs.Tasks.{own_property, own_property_in, property_read, property_written, row_value};
ghost use Rattle.isolate_core.specs.Contents.{contents_of};
ghost use Rattle.isolate_core.specs.Done.{done_of};

use crate::contents::Contents;
use crate::done::{Done, refused};
use crate::values::reading;
use charged_heap::{Heap, Item, Value};
use ivm_text::{NoMemory, Units};
use js_members::write;
use std::alloc::Global;
use task_history::Outcome;

/// The value of a row.
#[tactic(auto, using(crate::proofs::Growing::row_there, crate::proofs::Growing::row_sound))]
fn row_value(contents: &Contents, row: u32) -> Value
    requires closed { AreClosed (contents_of contents.now) }
    requires there { row < length contents.now.rows }

    ensures value { row_value (contents_of contents.now) row ≡ Some result }
    ensures sound { IsSoundValue contents.now.heap result }
{
    let item = contents.rows.as_slice()[row as usize];
    match contents.heap.get(item) {
        Item::Row(value) => *value,
        _ => unreachable!(),
    }
}

fn item_property(item: &Item, key: &Units) -> Option<Value>
    ensures { result ≡ own_property_in item.now key.now }
{
    match item {
        Item::Plain(properties) => properties.get(key),
        _ => None,
    }
}

/// The own property of a value. Only objects have some.
fn own_property(heap: &Heap, value: Value, key: &Units) -> Option<Value>
    requires closed { IsClosedStore heap.now }
    requires value { IsSoundValue heap.now value }

    ensures property { result ≡ own_property heap.now value key.now }
    ensures sound { IfSome result (IsSoundValue heap.now) }
{
    match value {
        Value::Item(n) => item_property(heap.get(n), key),
        _ => None,
    }
}

/// Reads a property of the value of a row (isolated-vm: `reference.get`). One that isn't there is undefined.
#[tactic(auto, unfolding(isolate_meaning::specs::Tasks::property_read))]
pub(crate) fn read_property(
    alloc: Global,
    contents: Contents,
    row: u32,
    key: &Units,
) -> Result<Done, NoMemory>
    requires closed { AreClosed (contents_of contents) }
    requires there { row < length contents.rows }

    ensures done { IfOk result (λ done. property_read row key.now (contents_of contents) ≡ Some (done_of done)) }
    ensures closed { IfOk result (λ done. HeapIsClosed (done_of done).state) }
{
    let object = row_value(&contents, row);
    let value = own_property(&contents.heap, object, key).unwrap_or(Value::Undefined);
    let outcome = reading(alloc, &contents.heap, value)?;
    Ok(Done::Lives {
        contents,
        outcome,
        ticks: 0,
    })
}

/// Writes a value to a property of the value of a row (isolated-vm: `reference.set`), as an assignment writes it.
#[tactic(auto, unfolding(isolate_meaning::specs::Tasks::property_written), using(crate::proofs::Growing::contents, crate::proofs::DoneLemmas::dones))]
pub(crate) fn write_property(
    alloc: Global,
    mut contents: Contents,
    row: u32,
    key: &Units,
    value: Value,
) -> Result<Done, NoMemory>
    requires closed { AreClosed (contents_of contents) }
    requires there { row < length contents.rows }
    requires value { IsSoundValue contents.heap value }

    ensures done { IfOk result (λ done. property_written row key.now (Some value) (contents_of contents) ≡ Some (done_of done)) }
    ensures closed { IfOk result (λ done. HeapIsClosed (done_of done).state) }
{
    let object = row_value(&contents, row);
    match write(alloc, &mut contents.heap, object, key, value) {
        Ok(_) => Ok(Done::Lives {
            contents,
            outcome: Outcome::Done,
            ticks: 0,
        }),
        Err(fail) => refused(alloc, contents, fail),
    }
}
