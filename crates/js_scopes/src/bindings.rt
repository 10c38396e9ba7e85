//! The bindings of a scope.
ghost use Rattle.std.specs.Prelude.{◌≡◌, ◌<◌, length, IfOk, IfSome, OnOk, OnErr};
ghost use Rattle.std.specs.List.{All};
ghost use Rattle.charged_heap.specs.Closed.{IsSoundBinding};
ghost use Rattle.charged_heap.specs.Store.{Store};
ghost use Rattle.charged_heap.specs.Bindings.{place_of};
ghost use Rattle.js_scopes.specs.Bindings.{bindings_of, parent_of, with_new, AreDistinct};

use charged_heap::{Binding, Bindings, Item};
use ivm_text::{CloneWhole, NoMemory, Units};
use std::alloc::Global;

/// The place of a name in an item; items that are no scopes have no bindings.
pub(crate) fn place_in(item: &Item, name: &Units) -> Option<u32>
    ensures place { result ≡ place_of (bindings_of item.now) name.now }
    ensures within { IfSome result (λ place. place < length (bindings_of item.now)) }
{
    match item {
        Item::Scope { bindings, .. } => bindings.place_of(name),
        _ => None,
    }
}

/// The number of the scope around an item.
pub(crate) fn parent_of(item: &Item) -> Option<u32>
    ensures { result ≡ parent_of item.now }
{
    match item {
        Item::Scope { parent, .. } => *parent,
        _ => None,
    }
}

/// A copy of a binding, with its value.
fn copy_binding(alloc: Global, binding: &Binding) -> Result<Binding, NoMemory>
    ensures { IfOk result (λ copy. copy ≡ binding.now) }
{
    Ok(Binding {
        name: binding.name.clone_whole(alloc)?,
        constant: binding.constant,
        value: binding.value,
    })
}

/// A copy of all bindings, in their order.
fn copy_all(alloc: Global, bindings: &Bindings) -> Result<Bindings, NoMemory>
    ensures { IfOk result (λ copy. copy ≡ bindings.now) }
{
    let mut copy = Bindings::new(alloc);
    for binding in bindings.as_slice() {
        copy.push(alloc, copy_binding(alloc, binding)?)?;
    }
    Ok(copy)
}

/// A copy of an item's bindings; of an item that is no scope, none. Only want of memory refuses it.
pub(crate) fn copy_bindings(alloc: Global, item: &Item) -> Result<Bindings, NoMemory>
    ensures { IfOk result (λ copy. copy ≡ bindings_of item.now) }
{
    match item {
        Item::Scope { bindings, .. } => copy_all(alloc, bindings),
        _ => Ok(Bindings::new(alloc)),
    }
}

/// Adds a binding without a value behind the others, where none of them has the name; else the first
/// one stays as it is. It is for scopes that are still to be made. Only want of memory refuses it.
pub fn add_binding(
    alloc: Global,
    bindings: &mut Bindings,
    name: &Units,
    constant: bool,
) -> Result<(), NoMemory>
    ensures ok { OnOk result (bindings.new ≡ with_new bindings.old name.now constant) }
    ensures err { OnErr result (bindings.new ≡ bindings.old) }

    ensures distinct { AreDistinct bindings.old → AreDistinct bindings.new }
    // What the bindings name is as sound as before, in whatever heap the scope will be made.
    ensures sound { (s : Store) → All (IsSoundBinding s) bindings.old → All (IsSoundBinding s) bindings.new }
{
    if bindings.place_of(name).is_some() {
        return Ok(());
    }
    let binding = Binding {
        name: name.clone_whole(alloc)?,
        constant,
        value: None,
    };
    bindings.push(alloc, binding)?;
    Ok(())
}
