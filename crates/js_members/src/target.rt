//! Where a write to a member goes.
ghost use Rattle.std.specs.Prelude.{◌≡◌, ◌<◌, IfSome, length};
ghost use Rattle.charged_heap.specs.Closed.{IsSoundValue};
ghost use Rattle.ivm_text.specs.declared.key_order.TheConstants.{INDEX_END};
ghost use Rattle.js_members.specs.Writes.{element_target, item_target, target_of, FitsTarget};

use charged_heap::{Heap, Item, Value, Values};
use ivm_text::{Units, index_of};
use js_ops::ScriptError;

/// Where a write goes.
#[derive(Debug, Clone, Copy, PartialEq, Eq)]
pub enum Target {
    /// A property of the object with this number.
    Property(u32),
    /// An element of the array with this number, by its place.
    Element(u32, u32),
    /// The end of the array with this number.
    End(u32),
    /// Nowhere; this is thrown.
    Refused(ScriptError),
}

/// Where a write to an index of an array goes.
fn element_target(n: u32, values: &Values, index: Option<u64>) -> Target
    ensures { result ≡ element_target n values.now index }
{
    let Some(index) = index else {
        return Target::Refused(ScriptError::NotWritable);
    };
    let length = values.len();
    if index < length as u64 {
        Target::Element(n, index as u32)
    } else if index == length as u64 {
        Target::End(n)
    } else {
        Target::Refused(ScriptError::PastEnd)
    }
}

fn item_target(n: u32, item: &Item, key: &Units) -> Target
    ensures { result ≡ item_target n item.now key.now }
{
    match item {
        Item::Plain(_) => Target::Property(n),
        Item::Array(values) => element_target(n, values, index_of(key)),
        _ => Target::Refused(ScriptError::NotWritable),
    }
}

/// Where a write to a member of a value goes.
#[tactic(auto, unfolding(crate::specs::Writes::target_of), using(crate::proofs::Fitting::target_fits))]
pub(crate) fn target_of(heap: &Heap, base: Value, key: &Units) -> Target
    requires { IsSoundValue heap.now base }
    ensures target { result ≡ target_of heap.now base key.now }
    ensures fits { FitsTarget heap.now result }
{
    match base {
        Value::Undefined | Value::Null => Target::Refused(ScriptError::NoObject),
        Value::Item(n) => item_target(n, heap.get(n), key),
        Value::Bool(_) | Value::Num(_) | Value::Builtin(_) => Target::Refused(
            ScriptError::NotWritable,
        ),
    }
}
