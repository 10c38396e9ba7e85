//! How values leave an isolate, and how they enter it.
ghost use Rattle.std.specs.Prelude.{◌≡◌, ◌<◌, [], ◌∷◌, length, IfOk, Some};
ghost use Rattle.std.specs.Option.{unwrap_or};
ghost use Rattle.charged_heap.specs.Closed.{IsClosed, IsSoundValue};
ghost use Rattle.charged_heap.specs.Store.{item_at};
ghost use Rattle.js_ops.specs.Values.{units_in};
ghost use Rattle.isolate_meaning.specs.Fits.{IsPlainLeaf, IsPrimitive};
ghost use Rattle.isolate_meaning.specs.Values.{primitive, text, error, item_copy, value_copy, result as result_of, reading, not_copyable, thrown_item, thrown_copy, thrown, passed_value, value_of};

use charged_heap::{Heap, Item, Value};
use ivm_text::{CloneWhole, Copy, CopyNode, ErrorKind, Items, Leaf, NoMemory, Passed, Units};
use std::alloc::Global;
use task_history::Outcome;

// ---- copies of one node at most

/// A copy of a primitive.
fn primitive(alloc: Global, root: Leaf) -> Copy
    ensures { result ≡ primitive root }
{
    Copy {
        nodes: Items::new(alloc),
        root,
    }
}

fn one_node(alloc: Global, node: CopyNode) -> Result<Copy, NoMemory>
    ensures { IfOk result (λ copy. copy ≡ record { nodes = node ∷ []; root = Leaf.Node 0 }) }
{
    let mut nodes = Items::new(alloc);
    nodes.push(node)?;
    Ok(Copy {
        nodes,
        root: Leaf::Node(0),
    })
}

fn text(alloc: Global, units: &Units) -> Result<Copy, NoMemory>
    ensures { IfOk result (λ copy. copy ≡ text units.now) }
{
    let units = units.clone_whole(alloc)?;
    one_node(alloc, CopyNode::Text(units))
}

// ---- out

/// A string as its copy. No other item passes by itself.
fn item_copy(alloc: Global, item: &Item) -> Result<Option<Copy>, NoMemory>
    ensures { IfOk result (λ copy. copy ≡ item_copy item.now) }
{
    match item {
        Item::Text(units) => Ok(Some(text(alloc, units)?)),
        _ => Ok(None),
    }
}

/// A primitive or a string as what passes. No other value does.
fn value_copy(alloc: Global, heap: &Heap, value: Value) -> Result<Option<Copy>, NoMemory>
    requires { IsSoundValue heap.now value }
    ensures { IfOk result (λ copy. copy ≡ value_copy heap.now value) }
{
    match value {
        Value::Undefined => Ok(Some(primitive(alloc, Leaf::Undefined))),
        Value::Null => Ok(Some(primitive(alloc, Leaf::Null))),
        Value::Bool(truth) => Ok(Some(primitive(alloc, Leaf::Bool(truth)))),
        Value::Num(number) => Ok(Some(primitive(alloc, Leaf::Num(number)))),
        Value::Item(n) => item_copy(alloc, heap.get(n)),
        Value::Builtin(_) => Ok(None),
    }
}

/// The result of a run. What doesn't pass is told as undefined.
pub(crate) fn result(alloc: Global, heap: &Heap, value: Value) -> Result<Outcome, NoMemory>
    requires { IsSoundValue heap.now value }
    ensures { IfOk result (λ out. out ≡ result_of heap.now value) }
{
    let copy = match value_copy(alloc, heap, value)? {
        Some(copy) => copy,
        None => primitive(alloc, Leaf::Undefined),
    };
    Ok(Outcome::Passed(Passed::Copy(copy)))
}

/// A value that was read. What doesn't pass isn't transferable.
pub(crate) fn reading(alloc: Global, heap: &Heap, value: Value) -> Result<Outcome, NoMemory>
    requires { IsSoundValue heap.now value }
    ensures { IfOk result (λ out. out ≡ reading heap.now value) }
{
    match value_copy(alloc, heap, value)? {
        Some(copy) => Ok(Outcome::Passed(Passed::Copy(copy))),
        None => Ok(Outcome::NotTransferable),
    }
}

// ---- thrown

/// What is told in place of a thrown value that has no copy.
fn not_copyable(alloc: Global) -> Result<Copy, NoMemory>
    ensures { IfOk result (λ copy. copy ≡ not_copyable) }
{
    let message = Units::from_latin1(alloc, b"thrown value not copyable")?;
    one_node(alloc, CopyNode::Error(ErrorKind::TypeError, message))
}

/// The units of the string with this number.
fn units_of(alloc: Global, heap: &Heap, n: u32) -> Result<Units, NoMemory>
    requires { n < length heap.now.items }
    ensures { IfOk result (λ units. units ≡ unwrap_or (units_in (item_at heap.now n)) []) }
{
    match heap.get(n) {
        Item::Text(units) => Ok(units.clone_whole(alloc)?),
        _ => Ok(Units::new(alloc)),
    }
}

/// An item that was thrown: a string, or an error with its message.
#[tactic(auto, using(crate::proofs::Growing::message_there))]
fn thrown_item(alloc: Global, heap: &Heap, n: u32) -> Result<Copy, NoMemory>
    requires closed { IsClosed heap.now }
    requires there { n < length heap.now.items }
    ensures { IfOk result (λ copy. copy ≡ thrown_item heap.now (item_at heap.now n)) }
{
    match heap.get(n) {
        Item::Text(units) => text(alloc, units),
        Item::Error(kind, message) => {
            let message = units_of(alloc, heap, *message)?;
            one_node(alloc, CopyNode::Error(*kind, message))
        }
        _ => not_copyable(alloc),
    }
}

fn thrown_copy(alloc: Global, heap: &Heap, value: Value) -> Result<Copy, NoMemory>
    requires closed { IsClosed heap.now }
    requires value { IsSoundValue heap.now value }
    ensures { IfOk result (λ copy. copy ≡ thrown_copy heap.now value) }
{
    match value {
        Value::Undefined => Ok(primitive(alloc, Leaf::Undefined)),
        Value::Null => Ok(primitive(alloc, Leaf::Null)),
        Value::Bool(truth) => Ok(primitive(alloc, Leaf::Bool(truth))),
        Value::Num(number) => Ok(primitive(alloc, Leaf::Num(number))),
        Value::Item(n) => thrown_item(alloc, heap, n),
        Value::Builtin(_) => not_copyable(alloc),
    }
}

/// A value that was thrown: a primitive, a string, or an error with its message.
pub(crate) fn thrown(alloc: Global, heap: &Heap, value: Value) -> Result<Outcome, NoMemory>
    requires closed { IsClosed heap.now }
    requires value { IsSoundValue heap.now value }
    ensures { IfOk result (λ out. out ≡ thrown heap.now value) }
{
    Ok(Outcome::Throw(thrown_copy(alloc, heap, value)?))
}

// ---- in

fn value_of(leaf: Leaf) -> Value
    requires { IsPlainLeaf leaf }
    ensures { value_of leaf ≡ Some result }
{
    match leaf {
        Leaf::Undefined => Value::Undefined,
        Leaf::Null => Value::Null,
        Leaf::Bool(truth) => Value::Bool(truth),
        Leaf::Num(number) => Value::Num(number),
        Leaf::Node(_) => unreachable!(),
    }
}

/// The primitive that passes.
pub(crate) fn passed_value(passed: &Passed) -> Value
    requires { IsPrimitive passed.now }
    ensures { passed_value passed.now ≡ Some result }
{
    match passed {
        Passed::Copy(copy) => value_of(copy.root),
        Passed::External(_) | Passed::Ref(_) | Passed::Deref(_) | Passed::Callback(_) => {
            unreachable!()
        }
    }
}
