//! Where a name stands.
ghost use Rattle.std.specs.Prelude.{◌≡◌, IfSome};
ghost use Rattle.charged_heap.specs.Closed.{IsClosed};
ghost use Rattle.charged_heap.specs.Store.{IsAt, IsPlain, IsScope};
ghost use Rattle.js_scopes.specs.Lookup.{binding_of, builtin_of, lookup, IsBindingAt, IsFound, WalksOutwards};

use crate::bindings::{parent_of, place_in};
use charged_heap::{Heap, Value};
use ivm_text::Units;
use js_members::is_named;

/// A binding by its scope's number and its place there.
#[derive(Debug, Clone, Copy, PartialEq, Eq)]
pub struct BindingPlace {
    pub scope: u32,
    pub place: u32,
}

/// Where a name stands.
#[derive(Debug, Clone, Copy, PartialEq, Eq)]
pub enum Lookup {
    /// In a scope.
    Bound(BindingPlace),
    /// Among the own properties of the global object, with this value.
    Property(Value),
    /// Among the built-in names, with this value.
    Builtin(Value),
    Nowhere,
}

/// The binding of the innermost scope that has a name, from the given scope outwards.
#[tactic(auto, unfolding(crate::specs::Lookup::binding_of))]
fn binding_of(heap: &Heap, name: &Units, scope: u32) -> Option<BindingPlace>
    requires closed { IsClosed heap.now }
    requires scope { IsAt IsScope heap.now scope }
    ensures binding { result ≡ binding_of heap.now name.now scope }
    ensures there { IfSome result (IsBindingAt heap.now) }
{
    let mut next = Some(scope);
    while let Some(here) = next {
        let item = heap.get(here);
        if let Some(place) = place_in(item, name) {
            return Some(BindingPlace { scope: here, place });
        }
        next = parent_of(item);
    }
    None
}

/// The value of a built-in name, in a context with this global object.
#[tactic(auto, unfolding(crate::specs::Lookup::builtin_of))]
fn builtin_of(global: u32, name: &Units) -> Option<Value>
    ensures { result ≡ builtin_of global name.now }
{
    if is_named(name, b"globalThis") {
        Some(Value::Item(global))
    } else {
        None
    }
}

/// Where a name stands (ECMA-262, ResolveBinding), seen from a scope of a context with this global
/// object: in the innermost scope that has it, else among the own properties of the global object, else
/// among the built-in names. It takes no memory.
#[tactic(auto, unfolding(crate::specs::Lookup::lookup), using(crate::proofs::Walks::walks_outwards))]
pub fn look_up(heap: &Heap, name: &Units, scope: u32, global: u32) -> Lookup
    requires closed { IsClosed heap.now }
    requires scope { IsAt IsScope heap.now scope }
    requires global { IsAt IsPlain heap.now global }

    ensures found { result ≡ lookup heap.now scope global name.now }
    ensures there { IsFound heap.now global name.now result }

    // No walk from scope to scope is cut short.
    ensures law { WalksOutwards heap.now name.now }
{
    if let Some(at) = binding_of(heap, name, scope) {
        return Lookup::Bound(at);
    }
    if let Some(value) = heap.property(global, name) {
        return Lookup::Property(value);
    }
    match builtin_of(global, name) {
        Some(value) => Lookup::Builtin(value),
        None => Lookup::Nowhere,
    }
}
