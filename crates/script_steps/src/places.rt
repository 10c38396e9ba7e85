//! What names, members and places read, and what they take.
ghost use Rattle.std.specs.Prelude.{◌≡◌, [], IfOk, is_some};
ghost use Rattle.std.specs.Option.{unwrap_or};
ghost use Rattle.charged_heap.specs.Closed.{IsClosed, IsSoundValue};
ghost use Rattle.charged_heap.specs.Growth.{Grows};
ghost use Rattle.charged_heap.specs.Ends.{Meets, IsSoundResult};
ghost use Rattle.js_ops.specs.Values.{units_in};
ghost use Rattle.js_members.specs.Reads.{read_outcome};
ghost use Rattle.js_members.specs.Writes.{write_outcome};
ghost use Rattle.script_meaning.specs.Places.{key_of, key_units, name_at, place_read, place_written, place_type, type_read, wrong_kind};
ghost use Rattle.script_steps.specs.Sound.{IsSoundKey, IsSoundPlace, IsSoundSite};

use crate::forms;
use charged_heap::{Fail, Heap, Item, Value};
use ivm_text::{CloneWhole, ErrorKind, NoMemory, Units};
use js_members::{read, write};
use js_ops::{UnaryOperator, throw, unary};
use js_scopes::{assign_name, read_name, type_of_name};
use js_syntax::Scripts;
use script_meaning::{Key, Place, Site};
use std::alloc::Global;

// ---- names and keys

/// The name of a node; the empty text, which is given, where it has none.
fn name_or<'a>(scripts: &'a Scripts, script: u32, node: u32, empty: &'a Units) -> &'a Units
    requires { empty.now ≡ [] }
    ensures { result.now ≡ name_at scripts.now script node }
{
    forms::name_at(scripts, script, node).unwrap_or(empty)
}

/// A copy of the name of a node; the empty text where it has none.
pub(crate) fn name_copy(
    alloc: Global,
    scripts: &Scripts,
    script: u32,
    node: u32,
) -> Result<Units, NoMemory>
    ensures { IfOk result (λ units. units ≡ name_at scripts.now script node) }
{
    match forms::name_at(scripts, script, node) {
        Some(name) => Ok(name.clone_whole(alloc)?),
        None => Ok(Units::new(alloc)),
    }
}

fn is_text(item: &Item) -> bool
    ensures { result ≡ is_some (units_in item.now) }
{
    matches!(item, Item::Text(_))
}

/// Whether a value is a key: a string or a number.
pub(crate) fn is_computed_key(heap: &Heap, value: Value) -> bool
    requires { IsSoundValue heap.now value }
    ensures { result ≡ is_some (key_of heap.now value) }
{
    match value {
        Value::Num(_) => true,
        Value::Item(n) => is_text(heap.get(n)),
        _ => false,
    }
}

/// The units of a key that was computed; none where the value is no key.
fn computed_units(alloc: Global, heap: &Heap, value: Value) -> Result<Units, NoMemory>
    requires { IsSoundValue heap.now value }
    ensures { IfOk result (λ units. units ≡ unwrap_or (key_of heap.now value) []) }
{
    match value {
        Value::Num(number) => Units::decimal(alloc, number),
        Value::Item(n) => match heap.get(n) {
            Item::Text(units) => Ok(units.clone_whole(alloc)?),
            _ => Ok(Units::new(alloc)),
        },
        _ => Ok(Units::new(alloc)),
    }
}

/// Throws the error of a key that is neither a string nor a number.
pub(crate) fn refuse_key(alloc: Global, heap: &mut Heap) -> Result<Value, Fail>
    ensures gives { Meets result heap.new (wrong_kind heap.old) }

    ensures grown { Grows heap.old heap.new }
    ensures closed { IsClosed heap.old → IsClosed heap.new }
    ensures sound { IsSoundResult heap.new result }
{
    let message = Units::from_latin1(alloc, b"wrong kind of operand")?;
    throw(heap, ErrorKind::TypeError, message)
}

// ---- members

/// Reads the member of a value that a node names.
pub(crate) fn read_named(
    alloc: Global,
    scripts: &Scripts,
    heap: &mut Heap,
    script: u32,
    node: u32,
    base: Value,
) -> Result<Value, Fail>
    requires { IsSoundValue heap.old base }
    ensures gives { Meets result heap.new (read_outcome base (name_at scripts.now script node) heap.old) }

    ensures grown { Grows heap.old heap.new }
    ensures closed { IsClosed heap.old → IsClosed heap.new }
    ensures sound { IsClosed heap.old → IsSoundResult heap.new result }
{
    let empty = Units::new(alloc);
    read(alloc, heap, base, name_or(scripts, script, node, &empty))
}

/// Reads the member of a value at a key that was computed.
pub(crate) fn read_computed(
    alloc: Global,
    heap: &mut Heap,
    base: Value,
    key: Value,
) -> Result<Value, Fail>
    requires base { IsSoundValue heap.old base }
    requires key { IsSoundValue heap.old key }
    ensures gives { Meets result heap.new (read_outcome base (unwrap_or (key_of heap.old key) []) heap.old) }

    ensures grown { Grows heap.old heap.new }
    ensures closed { IsClosed heap.old → IsClosed heap.new }
    ensures sound { IsClosed heap.old → IsSoundResult heap.new result }
{
    let units = computed_units(alloc, heap, key)?;
    read(alloc, heap, base, &units)
}

/// Reads the member of a value at a key.
fn read_member(
    alloc: Global,
    scripts: &Scripts,
    heap: &mut Heap,
    script: u32,
    base: Value,
    key: Key,
) -> Result<Value, Fail>
    requires base { IsSoundValue heap.old base }
    requires key { IsSoundKey heap.old key }
    ensures gives { Meets result heap.new (read_outcome base (key_units scripts.now script heap.old key) heap.old) }

    ensures grown { Grows heap.old heap.new }
    ensures closed { IsClosed heap.old → IsClosed heap.new }
    ensures sound { IsClosed heap.old → IsSoundResult heap.new result }
{
    match key {
        Key::Name(node) => read_named(alloc, scripts, heap, script, node, base),
        Key::Computed(key) => read_computed(alloc, heap, base, key),
    }
}

/// Writes the member of a value at a key, and gives what was written.
fn write_member(
    alloc: Global,
    scripts: &Scripts,
    heap: &mut Heap,
    script: u32,
    base: Value,
    key: Key,
    value: Value,
) -> Result<Value, Fail>
    requires base { IsSoundValue heap.old base }
    requires key { IsSoundKey heap.old key }
    requires value { IsSoundValue heap.old value }
    ensures gives { Meets result heap.new (write_outcome base (key_units scripts.now script heap.old key) value heap.old) }

    ensures grown { Grows heap.old heap.new }
    ensures closed { IsClosed heap.old → IsClosed heap.new }
    ensures sound { IsSoundResult heap.new result }
{
    let empty = Units::new(alloc);
    match key {
        Key::Name(node) => {
            let name = name_or(scripts, script, node, &empty);
            write(alloc, heap, base, name, value)
        }
        Key::Computed(key) => {
            let units = computed_units(alloc, heap, key)?;
            write(alloc, heap, base, &units, value)
        }
    }
}

// ---- places

/// Reads a place (ECMA-262, GetValue).
#[tactic(auto, unfolding(script_meaning::specs::Places::place_read))]
pub(crate) fn read_place(
    alloc: Global,
    scripts: &Scripts,
    heap: &mut Heap,
    site: Site,
    place: Place,
) -> Result<Value, Fail>
    requires heap { IsClosed heap.old }
    requires site { IsSoundSite heap.old site }
    requires place { IsSoundPlace heap.old place }
    ensures gives { Meets result heap.new (place_read scripts.now site place heap.old) }

    ensures grown { Grows heap.old heap.new }
    ensures closed { IsClosed heap.new }
    ensures sound { IsSoundResult heap.new result }
{
    match place {
        Place::Name(node) => {
            let empty = Units::new(alloc);
            let name = name_or(scripts, site.script, node, &empty);
            read_name(alloc, heap, name, site.scope, site.global)
        }
        Place::Member { base, key } => read_member(alloc, scripts, heap, site.script, base, key),
    }
}

/// Gives a place a value (ECMA-262, PutValue), which is what it gives then.
#[tactic(auto, unfolding(script_meaning::specs::Places::place_written))]
pub(crate) fn write_place(
    alloc: Global,
    scripts: &Scripts,
    heap: &mut Heap,
    site: Site,
    place: Place,
    value: Value,
) -> Result<Value, Fail>
    requires heap { IsClosed heap.old }
    requires site { IsSoundSite heap.old site }
    requires place { IsSoundPlace heap.old place }
    requires value { IsSoundValue heap.old value }
    ensures gives { Meets result heap.new (place_written scripts.now site place value heap.old) }

    ensures grown { Grows heap.old heap.new }
    ensures closed { IsClosed heap.new }
    ensures sound { IsSoundResult heap.new result }
{
    match place {
        Place::Name(node) => {
            let empty = Units::new(alloc);
            let name = name_or(scripts, site.script, node, &empty);
            assign_name(alloc, heap, name, site.scope, site.global, value)
        }
        Place::Member { base, key } => {
            write_member(alloc, scripts, heap, site.script, base, key, value)
        }
    }
}

/// The type of the member of a value at a key.
fn type_of_member(
    alloc: Global,
    scripts: &Scripts,
    heap: &mut Heap,
    script: u32,
    base: Value,
    key: Key,
) -> Result<Value, Fail>
    requires heap { IsClosed heap.old }
    requires base { IsSoundValue heap.old base }
    requires key { IsSoundKey heap.old key }
    ensures gives { Meets result heap.new (type_read (read_outcome base (key_units scripts.now script heap.old key) heap.old)) }

    ensures grown { Grows heap.old heap.new }
    ensures closed { IsClosed heap.new }
    ensures sound { IsSoundResult heap.new result }
{
    let value = read_member(alloc, scripts, heap, script, base, key)?;
    unary(alloc, heap, UnaryOperator::TypeOf, value)
}

/// Applies the operator `typeof` to a place (ECMA-262, The typeof Operator).
#[tactic(auto, unfolding(script_meaning::specs::Places::place_type))]
pub(crate) fn type_of_place(
    alloc: Global,
    scripts: &Scripts,
    heap: &mut Heap,
    site: Site,
    place: Place,
) -> Result<Value, Fail>
    requires heap { IsClosed heap.old }
    requires site { IsSoundSite heap.old site }
    requires place { IsSoundPlace heap.old place }
    ensures gives { Meets result heap.new (place_type scripts.now site place heap.old) }

    ensures grown { Grows heap.old heap.new }
    ensures closed { IsClosed heap.new }
    ensures sound { IsSoundResult heap.new result }
{
    match place {
        Place::Name(node) => {
            let empty = Units::new(alloc);
            let name = name_or(scripts, site.script, node, &empty);
            type_of_name(alloc, heap, name, site.scope, site.global)
        }
        Place::Member { base, key } => {
            type_of_member(alloc, scripts, heap, site.script, base, key)
        }
    }
}
