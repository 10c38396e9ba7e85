//! Declarations of scripts against what earlier scripts of the context declared.
ghost use Rattle.std.specs.Prelude.{◌≡◌, IsErr};
ghost use Rattle.charged_heap.specs.Closed.{IsClosed};
ghost use Rattle.charged_heap.specs.Growth.{Grows};
ghost use Rattle.charged_heap.specs.Store.{IsAt, IsScope, is_noted};
ghost use Rattle.charged_heap.specs.Ends.{Meets, IsSoundResult};
ghost use Rattle.js_scopes.specs.Bindings.{functions_of};
ghost use Rattle.js_scopes.specs.Clashes.{is_clash, clash_outcome};

use crate::bindings::place_in;
use charged_heap::{Fail, Heap, Item, Value};
use ivm_text::Units;
use js_ops::{ScriptError, refuse_name};
use std::alloc::Global;

/// Whether an item notes a name as that of a function; items that are no scopes note none.
fn notes_function(item: &Item, name: &Units) -> bool
    ensures { result ≡ is_noted (functions_of item.now) name.now }
{
    match item {
        Item::Scope { functions, .. } => functions.has(name),
        _ => false,
    }
}

/// Whether the declaration of a name by a script clashes with the record of its context (ECMA-262,
/// GlobalDeclarationInstantiation): that of a function with a binding of the name, that of a `let` or
/// `const` with a function of the name too. The record is the context's scope
/// without parent. It takes no memory.
#[tactic(auto, unfolding(crate::specs::Clashes::is_clash))]
pub fn is_clash(heap: &Heap, record_scope: u32, name: &Units, function: bool) -> bool
    requires { IsAt IsScope heap.now record_scope }
    ensures { result ≡ is_clash heap.now record_scope name.now function }
{
    let item = heap.get(record_scope);
    place_in(item, name).is_some() || (!function && notes_function(item, name))
}

/// Throws the error of a clash: a new SyntaxError `NAME is already declared`.
///
/// It is always an `Err`: `Throw` with the error, or `Over` exactly where the cells of the message or
/// then those of the error don't fit. A message that was made stays. `NoMemory` may come.
pub fn refuse_clash(alloc: Global, heap: &mut Heap, name: &Units) -> Result<Value, Fail>
    ensures gives { Meets result heap.new (clash_outcome name.now heap.old) }
    ensures err { IsErr result }

    ensures grown { Grows heap.old heap.new }
    ensures closed { IsClosed heap.old → IsClosed heap.new }
    ensures sound { IsSoundResult heap.new result }
{
    refuse_name(alloc, heap, ScriptError::AlreadyDeclared, name)
}
