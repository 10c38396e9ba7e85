//! The functions that are made where a list begins.
ghost use Rattle.std.specs.Prelude.{◌≡◌, IfOk, IfErr};
ghost use Rattle.charged_heap.specs.Closed.{IsClosed, IsSoundValue};
ghost use Rattle.charged_heap.specs.Growth.{Grows};
ghost use Rattle.charged_heap.specs.Store.{IsAt, IsPlain, IsScope};
ghost use Rattle.charged_heap.specs.declared.values.Value.TheVariants as value;
ghost use Rattle.charged_heap.specs.Ends.{Meets, IsSoundFail, item_made};
ghost use Rattle.js_scopes.specs.Lists.{function_item, functions_made};
ghost use Rattle.js_scopes.specs.Steps.{function_made};

use crate::initialise;
use charged_heap::{Fail, Heap, Item, Value, make};
use js_trees::{Declaration, Declarations};

/// Makes a function that is no arrow, and gives its number.
pub(crate) fn make_function(
    heap: &mut Heap,
    script: u32,
    node: u32,
    scope: u32,
    global: u32,
) -> Result<u32, Fail>
    requires scope { IsAt IsScope heap.old scope }
    requires global { IsAt IsPlain heap.old global }

    ensures meets { Meets result heap.new (item_made (function_item script node scope global) heap.old) }

    ensures grown { Grows heap.old heap.new }
    ensures closed { IsClosed heap.old → IsClosed heap.new }
    ensures function { IfOk result (λ n. IsSoundValue heap.new (value.Item n)) }
    ensures thrown { IfErr result (IsSoundFail heap.new) }
{
    let function = Item::Closure {
        script,
        node,
        scope,
        global,
        receiver: Value::Undefined,
    };
    make(heap, function)
}

/// Makes the function of one declaration, if it is that of a function, as the value of its name.
fn make_declared(
    heap: &mut Heap,
    script: u32,
    global: u32,
    scope: u32,
    declaration: &Declaration,
) -> Result<(), Fail>
    requires scope { IsAt IsScope heap.old scope }
    requires global { IsAt IsPlain heap.old global }

    ensures meets { Meets result heap.new (function_made script global scope declaration.now heap.old) }

    ensures grown { Grows heap.old heap.new }
    ensures closed { IsClosed heap.old → IsClosed heap.new }
    ensures thrown { IfErr result (IsSoundFail heap.new) }
{
    if let Declaration::Function(name, node) = declaration {
        let number = make_function(heap, script, *node, scope, global)?;
        initialise(heap, scope, name, Value::Item(number));
    }
    Ok(())
}

/// Makes the functions of a list in order, each the value of its name in the scope, and gives the scope.
#[tactic(auto, unfolding(crate::specs::Lists::functions_made))]
pub(crate) fn make_functions(
    heap: &mut Heap,
    script: u32,
    global: u32,
    scope: u32,
    declared: &Declarations,
) -> Result<u32, Fail>
    requires scope { IsAt IsScope heap.old scope }
    requires global { IsAt IsPlain heap.old global }

    ensures meets { Meets result heap.new (functions_made script global scope declared.now heap.old) }

    ensures grown { Grows heap.old heap.new }
    ensures closed { IsClosed heap.old → IsClosed heap.new }
    ensures scope { IfOk result (IsAt IsScope heap.new) }
    ensures thrown { IfErr result (IsSoundFail heap.new) }
{
    for declaration in declared.as_slice() {
        make_declared(heap, script, global, scope, declaration)?;
    }
    Ok(scope)
}
