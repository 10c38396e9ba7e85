//! The use of names: reads, their types, and assignments.
ghost use Rattle.std.specs.Prelude.{◌≡◌, Ok, IfOk, IsOk, IsSome, codes};
ghost use Rattle.ivm_text.specs.Keys.{value_at};
ghost use Rattle.charged_heap.specs.Closed.{IsClosed, IsSoundValue};
ghost use Rattle.charged_heap.specs.Growth.{Grows};
ghost use Rattle.charged_heap.specs.Store.{IsAt, IsPlain, IsScope, item_at, properties, with_item, with_property};
ghost use Rattle.charged_heap.specs.Ends.{Meets, IsSoundResult};
ghost use Rattle.js_ops.specs.Outcome.{text_made};
ghost use Rattle.js_scopes.specs.Bindings.{binding_at};
ghost use Rattle.js_scopes.specs.Lookup.{lookup, IsBindingAt, IsFound};
ghost use Rattle.js_scopes.specs.Names.{or_dead_zone, value_found, name_outcome, typeof_outcome, assigned_binding, assigned_found, assign_outcome};

use crate::{BindingPlace, Lookup, look_up};
use charged_heap::{Binding, Fail, Heap, Item, Value, make};
use ivm_text::Units;
use js_ops::{ScriptError, UnaryOperator, refuse_name, unary};
use std::alloc::Global;

/// The binding at a place.
fn binding_at(heap: &Heap, at: BindingPlace) -> &Binding
    requires { IsBindingAt heap.now at }
    ensures { result.now ≡ binding_at (item_at heap.now at.scope) at.place }
{
    match heap.get(at.scope) {
        Item::Scope { bindings, .. } => &bindings.as_slice()[at.place as usize],
        _ => unreachable!(),
    }
}

fn or_dead_zone(value: Option<Value>) -> Result<Value, ScriptError>
    ensures { result ≡ or_dead_zone value }
{
    match value {
        Some(value) => Ok(value),
        None => Err(ScriptError::NotInitialised),
    }
}

/// The value that stands where a name was found, or why there is none.
fn value_found(heap: &Heap, global: u32, name: &Units, found: Lookup) -> Result<Value, ScriptError>
    requires { IsFound heap.now global name.now found }
    ensures { result ≡ value_found heap.now found }
{
    match found {
        Lookup::Bound(at) => or_dead_zone(binding_at(heap, at).value),
        Lookup::Property(value) | Lookup::Builtin(value) => Ok(value),
        Lookup::Nowhere => Err(ScriptError::NotDefined),
    }
}

/// The value of a name, or why it has none.
#[tactic(auto, using(crate::proofs::Sound::value_sound))]
fn value_of(heap: &Heap, name: &Units, scope: u32, global: u32) -> Result<Value, ScriptError>
    requires closed { IsClosed heap.now }
    requires scope { IsAt IsScope heap.now scope }
    requires global { IsAt IsPlain heap.now global }

    ensures value { result ≡ value_found heap.now (lookup heap.now scope global name.now) }
    ensures sound { IfOk result (IsSoundValue heap.now) }
{
    let found = look_up(heap, name, scope, global);
    value_found(heap, global, name, found)
}

/// Reads a name (ECMA-262, ResolveBinding and GetValue) in a scope of a context with this global object.
///
/// It gives the value of the innermost binding, else of the global object's own property, else of the
/// built-in name. `Throw` comes with a new ReferenceError: `NAME is not initialised` where that binding
/// has no value yet, and `NAME is not defined` where the name is nowhere. `Over` comes exactly where the
/// cells of such an error's message, and then of the error, don't fit; a message that was made stays in
/// the heap. `NoMemory` may come with these errors alone: a value is given without memory.
#[tactic(auto, unfolding(crate::specs::Names::name_outcome))]
pub fn read_name(
    alloc: Global,
    heap: &mut Heap,
    name: &Units,
    scope: u32,
    global: u32,
) -> Result<Value, Fail>
    requires closed { IsClosed heap.old }
    requires scope { IsAt IsScope heap.old scope }
    requires global { IsAt IsPlain heap.old global }

    ensures gives { Meets result heap.new (name_outcome name.now scope global heap.old) }

    // A value asks for no memory.
    ensures free { IsOk (name_outcome name.now scope global heap.old).0 → IsOk result }

    ensures grown { Grows heap.old heap.new }
    ensures closed { IsClosed heap.new }
    ensures sound { IsSoundResult heap.new result }
{
    match value_of(heap, name, scope, global) {
        Ok(value) => Ok(value),
        Err(fault) => refuse_name(alloc, heap, fault, name),
    }
}

/// Makes the string `undefined`.
fn make_undefined(alloc: Global, heap: &mut Heap) -> Result<Value, Fail>
    ensures gives { Meets result heap.new (text_made (codes "undefined") heap.old) }

    ensures grown { Grows heap.old heap.new }
    ensures closed { IsClosed heap.old → IsClosed heap.new }
    ensures sound { IsSoundResult heap.new result }
{
    let text = Units::from_latin1(alloc, b"undefined")?;
    Ok(Value::Item(make(heap, Item::Text(text))?))
}

/// Applies the operator `typeof` to a name (ECMA-262, The typeof Operator), read as by `read_name`.
///
/// It gives a new string: what the operator gives on the name's value, and `undefined` where the name is
/// nowhere. `Throw` comes exactly where the name's binding has no value yet: with a new ReferenceError
/// `NAME is not initialised`. `Over` comes exactly where the cells of the string, or of the error's
/// message and then of the error, don't fit; a message that was made stays in the heap. `NoMemory` may come.
#[tactic(auto, unfolding(crate::specs::Names::typeof_outcome))]
pub fn type_of_name(
    alloc: Global,
    heap: &mut Heap,
    name: &Units,
    scope: u32,
    global: u32,
) -> Result<Value, Fail>
    requires closed { IsClosed heap.old }
    requires scope { IsAt IsScope heap.old scope }
    requires global { IsAt IsPlain heap.old global }

    ensures gives { Meets result heap.new (typeof_outcome name.now scope global heap.old) }

    ensures grown { Grows heap.old heap.new }
    ensures closed { IsClosed heap.new }
    ensures sound { IsSoundResult heap.new result }
{
    match value_of(heap, name, scope, global) {
        Ok(value) => unary(alloc, heap, UnaryOperator::TypeOf, value),
        Err(ScriptError::NotDefined) => make_undefined(alloc, heap),
        Err(fault) => refuse_name(alloc, heap, fault, name),
    }
}

/// Assigns to a binding, unless it is in its dead zone or constant.
#[tactic(auto, using(crate::proofs::Bound::place_within))]
fn assign_bound(
    alloc: Global,
    heap: &mut Heap,
    at: BindingPlace,
    name: &Units,
    value: Value,
) -> Result<Value, Fail>
    requires there { IsBindingAt heap.old at }
    requires value { IsSoundValue heap.old value }

    ensures gives { Meets result heap.new (assigned_binding (binding_at (item_at heap.old at.scope) at.place).value (binding_at (item_at heap.old at.scope) at.place).constant at name.now value heap.old) }
    ensures free { IsOk (assigned_binding (binding_at (item_at heap.old at.scope) at.place).value (binding_at (item_at heap.old at.scope) at.place).constant at name.now value heap.old).0 → IsOk result }

    ensures grown { Grows heap.old heap.new }
    ensures closed { IsClosed heap.old → IsClosed heap.new }
    ensures sound { IsSoundResult heap.new result }
{
    let binding = binding_at(heap, at);
    if binding.value.is_none() {
        return refuse_name(alloc, heap, ScriptError::NotInitialised, name);
    }
    if binding.constant {
        return refuse_name(alloc, heap, ScriptError::Constant, name);
    }
    heap.put(at.scope, at.place, value);
    Ok(value)
}

/// Assigns to a property that the object with this number has.
fn assign_property(heap: &mut Heap, global: u32, name: &Units, value: Value) -> Result<Value, Fail>
    requires global { IsAt IsPlain heap.old global }
    requires there { IsSome (value_at (properties (item_at heap.old global)) name.now) }
    requires value { IsSoundValue heap.old value }

    ensures gives { (result ≡ Ok value) × (heap.new ≡ with_item heap.old global (with_property (item_at heap.old global) name.now value)) }

    ensures grown { Grows heap.old heap.new }
    ensures closed { IsClosed heap.old → IsClosed heap.new }
{
    heap.set(global, name, value)?;
    Ok(value)
}

/// Assigns where a name was found.
fn assign_found(
    alloc: Global,
    heap: &mut Heap,
    found: Lookup,
    global: u32,
    name: &Units,
    value: Value,
) -> Result<Value, Fail>
    requires global { IsAt IsPlain heap.old global }
    requires there { IsFound heap.old global name.now found }
    requires value { IsSoundValue heap.old value }

    ensures gives { Meets result heap.new (assigned_found found global name.now value heap.old) }
    ensures free { IsOk (assigned_found found global name.now value heap.old).0 → IsOk result }

    ensures grown { Grows heap.old heap.new }
    ensures closed { IsClosed heap.old → IsClosed heap.new }
    ensures sound { IsSoundResult heap.new result }
{
    match found {
        Lookup::Bound(at) => assign_bound(alloc, heap, at, name, value),
        Lookup::Property(_) => assign_property(heap, global, name, value),
        Lookup::Builtin(_) => refuse_name(alloc, heap, ScriptError::Constant, name),
        Lookup::Nowhere => refuse_name(alloc, heap, ScriptError::NotDefined, name),
    }
}

/// Assigns to a name (ECMA-262, PutValue in strict code), found as by `read_name`, and gives the value.
///
/// The binding or the property gets the value, which asks neither cells nor memory. `Throw` comes with a
/// new error: ReferenceError `NAME is not initialised` where the binding has no value yet, and else
/// TypeError `NAME is constant` where it is constant; the same TypeError for a built-in name;
/// ReferenceError `NAME is not defined` where the name is nowhere. `Over` comes exactly where the cells
/// of the error's message, and then of the error, don't fit; a message that was made stays in the heap.
/// `NoMemory` may come with these errors alone.
#[tactic(auto, unfolding(crate::specs::Names::assign_outcome))]
pub fn assign_name(
    alloc: Global,
    heap: &mut Heap,
    name: &Units,
    scope: u32,
    global: u32,
    value: Value,
) -> Result<Value, Fail>
    requires closed { IsClosed heap.old }
    requires scope { IsAt IsScope heap.old scope }
    requires global { IsAt IsPlain heap.old global }
    requires value { IsSoundValue heap.old value }

    ensures gives { Meets result heap.new (assign_outcome name.now value scope global heap.old) }

    // An assignment that succeeds asks for no memory.
    ensures free { IsOk (assign_outcome name.now value scope global heap.old).0 → IsOk result }

    ensures grown { Grows heap.old heap.new }
    ensures closed { IsClosed heap.new }
    ensures sound { IsSoundResult heap.new result }
{
    let found = look_up(heap, name, scope, global);
    assign_found(alloc, heap, found, global, name, value)
}
