//! Which name of a script clashes with what its context has already.
ghost use Rattle.std.specs.Prelude.{◌≡◌};
ghost use Rattle.std.specs.Option.{option_copied};
ghost use Rattle.charged_heap.specs.Store.{IsAt, IsScope};
ghost use Rattle.js_scopes.specs.Scripts.{clash_among};
ghost use Rattle.js_scopes.specs.Steps.{name_of, clashes};

use crate::is_clash;
use charged_heap::Heap;
use ivm_text::Units;
use js_trees::{Declaration, Declarations};

/// The name that is declared.
fn name_of(declaration: &Declaration) -> &Units
    ensures { result.now ≡ name_of declaration.now }
{
    match declaration {
        Declaration::Variable(name)
        | Declaration::Constant(name)
        | Declaration::Function(name, _) => name,
    }
}

/// Whether the record can't take a declaration.
fn clashes(heap: &Heap, names: u32, declaration: &Declaration) -> bool
    requires { IsAt IsScope heap.now names }
    ensures { result ≡ clashes names heap.now declaration.now }
{
    let is_function = matches!(declaration, Declaration::Function(..));
    is_clash(heap, names, name_of(declaration), is_function)
}

/// The first of the declared names that the record can't take.
pub(crate) fn first_clash<'a>(
    heap: &Heap,
    names: u32,
    declared: &'a Declarations,
) -> Option<&'a Units>
    requires { IsAt IsScope heap.now names }
    ensures { option_copied result ≡ clash_among names heap.now declared.now }
{
    for declaration in declared.as_slice() {
        if clashes(heap, names, declaration) {
            return Some(name_of(declaration));
        }
    }
    None
}
