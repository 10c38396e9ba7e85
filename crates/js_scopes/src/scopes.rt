//! Scopes made, and first values of their names.
ghost use Rattle.std.specs.Prelude.{◌≡◌, IfOk, IfSome};
ghost use Rattle.std.specs.List.{All};
ghost use Rattle.charged_heap.specs.Closed.{IsClosed, IsSoundBinding, IsSoundValue};
ghost use Rattle.charged_heap.specs.Ends.{Meets};
ghost use Rattle.charged_heap.specs.Growth.{Grows};
ghost use Rattle.charged_heap.specs.Store.{IsAt, IsScope};
ghost use Rattle.js_scopes.specs.Scopes.{scope_made, scope_copied, initialised};

use crate::bindings::{copy_bindings, parent_of, place_in};
use charged_heap::{Bindings, Fail, Heap, Item, Names, Value, make};
use ivm_text::Units;
use std::alloc::Global;

/// Makes a scope with these bindings (ECMA-262, NewDeclarativeEnvironment), inside another where a
/// parent is given, in one charge. It answers the scope's number.
///
/// `Over` comes exactly where the cells of the scope and of its bindings don't fit together; then the
/// heap is as it was. `NoMemory` may come.
#[tactic(auto, unfolding(crate::specs::Scopes::scope_made))]
pub fn make_scope(heap: &mut Heap, parent: Option<u32>, bindings: Bindings) -> Result<u32, Fail>
    requires { IfSome parent (IsAt IsScope heap.old) }

    ensures gives { Meets result heap.new (scope_made parent bindings heap.old) }

    ensures grown { Grows heap.old heap.new }
    ensures closed { IsClosed heap.old → All (IsSoundBinding heap.old) bindings → IsClosed heap.new }
    ensures scope { IfOk result (IsAt IsScope heap.new) }
{
    let scope = Item::Scope {
        parent,
        bindings,
        functions: Names::new(),
    };
    make(heap, scope)
}

/// Makes a copy of a scope (ECMA-262, CreatePerIterationEnvironment): inside the same one, and with the
/// same bindings and their values. It answers the copy's number, and is refused as `make_scope`.
#[tactic(auto, unfolding(crate::specs::Scopes::scope_copied), using(crate::proofs::Walks::parent_there))]
pub fn copy_scope(alloc: Global, heap: &mut Heap, scope: u32) -> Result<u32, Fail>
    requires closed { IsClosed heap.old }
    requires scope { IsAt IsScope heap.old scope }

    ensures gives { Meets result heap.new (scope_copied scope heap.old) }

    ensures grown { Grows heap.old heap.new }
    ensures closed { IsClosed heap.new }
    ensures scope { IfOk result (IsAt IsScope heap.new) }
{
    let item = heap.get(scope);
    let parent = parent_of(item);
    let bindings = copy_bindings(alloc, item)?;
    make_scope(heap, parent, bindings)
}

/// Gives the binding of a name in that very scope its first value (ECMA-262, InitializeBinding); a
/// constant gets its value so too. A scope without such a binding stays as it is. It takes no memory.
#[tactic(auto, unfolding(crate::specs::Scopes::initialised), using(crate::proofs::Bound::place_within))]
pub fn initialise(heap: &mut Heap, scope: u32, name: &Units, value: Value)
    requires scope { IsAt IsScope heap.old scope }
    requires value { IsSoundValue heap.old value }

    ensures value { heap.new ≡ initialised heap.old scope name.now value }

    ensures grown { Grows heap.old heap.new }
    ensures closed { IsClosed heap.old → IsClosed heap.new }
{
    if let Some(place) = place_in(heap.get(scope), name) {
        heap.put(scope, place, value);
    }
}
