//! The scopes of blocks, of calls, of a function expression's own name and of a `catch`.
ghost use Rattle.std.specs.Prelude.{◌≡◌, [], Some, IfOk, IfErr};
ghost use Rattle.std.specs.List.{All};
ghost use Rattle.charged_heap.specs.Closed.{IsClosed, IsSoundBinding, IsSoundValue};
ghost use Rattle.charged_heap.specs.Growth.{Grows};
ghost use Rattle.charged_heap.specs.Store.{IsAt, IsPlain, IsScope};
ghost use Rattle.js_scopes.specs.Bindings.{with_new};
ghost use Rattle.js_scopes.specs.Scopes.{scope_made};
ghost use Rattle.charged_heap.specs.Ends.{Meets, IsSoundFail};
ghost use Rattle.js_scopes.specs.Lists.{with_parameters, with_declared, with_arguments, block_scope, call_scope, catch_scope, name_scope};

use crate::list_functions::make_functions;
use crate::list_names::new_bindings;
use crate::{add_binding, initialise, make_scope};
use charged_heap::{Bindings, Fail, Heap, Value};
use ivm_text::Units;
use js_trees::Declarations;
use std::alloc::Global;

/// Makes a scope inside another, with the names of parameters and those that a list declares.
fn make_inside(
    alloc: Global,
    heap: &mut Heap,
    parent: u32,
    parameters: &[Units],
    declared: &Declarations,
) -> Result<u32, Fail>
    requires { IsAt IsScope heap.old parent }

    ensures meets { Meets result heap.new (scope_made (Some parent) (with_declared (with_parameters [] parameters.now) declared.now) heap.old) }

    ensures grown { Grows heap.old heap.new }
    ensures closed { IsClosed heap.old → IsClosed heap.new }
    ensures scope { IfOk result (IsAt IsScope heap.new) }
    ensures thrown { IfErr result (IsSoundFail heap.new) }
{
    let bindings = new_bindings(alloc, parameters, declared)?;
    make_scope(heap, Some(parent), bindings)
}

/// Makes the scope of a block (ECMA-262, BlockDeclarationInstantiation) inside another, for a script with
/// this number and a context with this global object. It answers the scope's number.
///
/// The scope has the names that the block's list declares, without values, in one charge; then each
/// function of the list is made in order, with its own charge, as the value of its name. `Over` comes
/// exactly where the cells of the scope with its names, or then those of a function, don't fit; the scope
/// and the functions made before stay. `NoMemory` may come, and nothing is thrown.
#[tactic(auto, unfolding(crate::specs::Lists::block_scope))]
pub fn block_scope(
    alloc: Global,
    heap: &mut Heap,
    script: u32,
    global: u32,
    parent: u32,
    declared: &Declarations,
) -> Result<u32, Fail>
    requires global { IsAt IsPlain heap.old global }
    requires parent { IsAt IsScope heap.old parent }

    ensures meets { Meets result heap.new (block_scope script global parent declared.now heap.old) }

    ensures grown { Grows heap.old heap.new }
    ensures closed { IsClosed heap.old → IsClosed heap.new }
    ensures scope { IfOk result (IsAt IsScope heap.new) }
    ensures thrown { IfErr result (IsSoundFail heap.new) }
{
    let scope = make_inside(alloc, heap, parent, &[], declared)?;
    make_functions(heap, script, global, scope, declared)
}

/// Gives parameters their arguments in order, and undefined where there are no more.
fn give_arguments(heap: &mut Heap, scope: u32, parameters: &[Units], arguments: &[Value])
    requires scope { IsAt IsScope heap.old scope }
    requires arguments { All (IsSoundValue heap.old) arguments.now }

    ensures values { heap.new ≡ with_arguments scope parameters.now arguments.now heap.old }

    ensures grown { Grows heap.old heap.new }
    ensures closed { IsClosed heap.old → IsClosed heap.new }
{
    for (place, name) in parameters.iter().enumerate() {
        let value = arguments.get(place).copied().unwrap_or(Value::Undefined);
        initialise(heap, scope, name, value);
    }
}

/// Makes the scope of a call (ECMA-262, FunctionDeclarationInstantiation) inside that in which the
/// function was made, for a script with this number and a context with this global object. It answers
/// the scope's number.
///
/// The scope has the parameters' names and then those that the body's list declares, in one charge. The
/// parameters get the arguments in order, and undefined where there are no more; further arguments are
/// dropped. Then each function of the list is made in order, with its own charge, as the value of its
/// name, be it a parameter's too. `Over` comes exactly where the cells of the scope with its names, or then
/// those of a function, don't fit; the scope and the functions made before stay. `NoMemory` may come, and
/// nothing is thrown.
#[tactic(auto, unfolding(crate::specs::Lists::call_scope))]
pub fn call_scope(
    alloc: Global,
    heap: &mut Heap,
    script: u32,
    global: u32,
    parent: u32,
    parameters: &[Units],
    declared: &Declarations,
    arguments: &[Value],
) -> Result<u32, Fail>
    requires global { IsAt IsPlain heap.old global }
    requires parent { IsAt IsScope heap.old parent }
    requires arguments { All (IsSoundValue heap.old) arguments.now }

    ensures meets { Meets result heap.new (call_scope script global parent parameters.now declared.now arguments.now heap.old) }

    ensures grown { Grows heap.old heap.new }
    ensures closed { IsClosed heap.old → IsClosed heap.new }
    ensures scope { IfOk result (IsAt IsScope heap.new) }
    ensures thrown { IfErr result (IsSoundFail heap.new) }
{
    let scope = make_inside(alloc, heap, parent, parameters, declared)?;
    give_arguments(heap, scope, parameters, arguments);
    make_functions(heap, script, global, scope, declared)
}

/// Makes a scope of one name inside another, constant or not; the name has no value yet.
fn one_name(
    alloc: Global,
    heap: &mut Heap,
    parent: u32,
    name: &Units,
    constant: bool,
) -> Result<u32, Fail>
    requires { IsAt IsScope heap.old parent }

    ensures meets { Meets result heap.new (scope_made (Some parent) (with_new [] name.now constant) heap.old) }

    ensures grown { Grows heap.old heap.new }
    ensures closed { IsClosed heap.old → IsClosed heap.new }
    ensures scope { IfOk result (IsAt IsScope heap.new) }
    ensures thrown { IfErr result (IsSoundFail heap.new) }
{
    let mut bindings = Bindings::new(alloc);
    add_binding(alloc, &mut bindings, name, constant)?;
    make_scope(heap, Some(parent), bindings)
}

/// Makes the scope of a function expression's own name (ECMA-262, InstantiateOrdinaryFunctionExpression)
/// inside another: the name can't change, and has no value yet. It answers the scope's number.
///
/// `Over` comes exactly where the cells of the scope with its one name don't fit; then the heap is as it
/// was. `NoMemory` may come, and nothing is thrown.
#[tactic(auto, unfolding(crate::specs::Lists::name_scope))]
pub fn name_scope(alloc: Global, heap: &mut Heap, parent: u32, name: &Units) -> Result<u32, Fail>
    requires { IsAt IsScope heap.old parent }

    ensures meets { Meets result heap.new (name_scope parent name.now heap.old) }

    ensures grown { Grows heap.old heap.new }
    ensures closed { IsClosed heap.old → IsClosed heap.new }
    ensures scope { IfOk result (IsAt IsScope heap.new) }
    ensures thrown { IfErr result (IsSoundFail heap.new) }
{
    one_name(alloc, heap, parent, name, true)
}

/// Makes the scope of a `catch` (ECMA-262, CatchClauseEvaluation) inside another: its name may change, and has
/// what was thrown as its value. It answers the scope's number.
///
/// `Over` comes exactly where the cells of the scope with its one name don't fit; then the heap is as it
/// was. `NoMemory` may come, and nothing is thrown.
#[tactic(auto, unfolding(crate::specs::Lists::catch_scope))]
pub fn catch_scope(
    alloc: Global,
    heap: &mut Heap,
    parent: u32,
    name: &Units,
    thrown: Value,
) -> Result<u32, Fail>
    requires parent { IsAt IsScope heap.old parent }
    requires thrown { IsSoundValue heap.old thrown }

    ensures meets { Meets result heap.new (catch_scope parent name.now thrown heap.old) }

    ensures grown { Grows heap.old heap.new }
    ensures closed { IsClosed heap.old → IsClosed heap.new }
    ensures scope { IfOk result (IsAt IsScope heap.new) }
    ensures thrown { IfErr result (IsSoundFail heap.new) }
{
    let scope = one_name(alloc, heap, parent, name, false)?;
    initialise(heap, scope, name, thrown);
    Ok(scope)
}
