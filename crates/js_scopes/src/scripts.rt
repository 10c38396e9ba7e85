//! What is declared before a script runs.
ghost use Rattle.std.specs.Prelude.{◌≡◌, IfErr};
ghost use Rattle.charged_heap.specs.Closed.{IsClosed};
ghost use Rattle.charged_heap.specs.Growth.{Grows};
ghost use Rattle.charged_heap.specs.Store.{IsAt, IsPlain, IsScope};
ghost use Rattle.charged_heap.specs.Ends.{Meets, IsSoundFail};
ghost use Rattle.js_scopes.specs.Scripts.{name_declared, names_declared, functions_declared, script_declared};
ghost use Rattle.js_scopes.specs.Steps.{refused, one_named, function_declared, one_function, all_declared};

use crate::list_functions::make_function;
use crate::refuse_clash;
use crate::script_clashes::first_clash;
use charged_heap::{Fail, Heap, Value};
use ivm_text::Units;
use js_members::write;
use js_trees::{Declaration, Declarations};
use std::alloc::Global;

/// Throws the error of a name that clashes.
#[tactic(auto, using(crate::proofs::Sequences::stopped))]
fn refuse(alloc: Global, heap: &mut Heap, name: &Units) -> Result<(), Fail>
    ensures meets { Meets result heap.new (refused name.now heap.old) }

    ensures grown { Grows heap.old heap.new }
    ensures closed { IsClosed heap.old → IsClosed heap.new }
    ensures thrown { IfErr result (IsSoundFail heap.new) }
{
    refuse_clash(alloc, heap, name)?;
    Ok(())
}

/// Adds a name without a value to the record.
fn declare(heap: &mut Heap, names: u32, name: &Units, constant: bool) -> Result<(), Fail>
    requires { IsAt IsScope heap.old names }

    ensures meets { Meets result heap.new (name_declared name.now constant names heap.old) }

    ensures grown { Grows heap.old heap.new }
    ensures closed { IsClosed heap.old → IsClosed heap.new }
    ensures thrown { IfErr result (IsSoundFail heap.new) }
{
    heap.declare(names, name, constant)?;
    Ok(())
}

/// Adds the name of one declaration to the record, unless it is that of a function.
fn declare_name(heap: &mut Heap, names: u32, declaration: &Declaration) -> Result<(), Fail>
    requires { IsAt IsScope heap.old names }

    ensures meets { Meets result heap.new (one_named names declaration.now heap.old) }

    ensures grown { Grows heap.old heap.new }
    ensures closed { IsClosed heap.old → IsClosed heap.new }
    ensures thrown { IfErr result (IsSoundFail heap.new) }
{
    match declaration {
        Declaration::Variable(name) => declare(heap, names, name, false),
        Declaration::Constant(name) => declare(heap, names, name, true),
        Declaration::Function(..) => Ok(()),
    }
}

/// Adds each name of a `let` or a `const` to the record, in order.
fn declare_names(heap: &mut Heap, names: u32, declared: &Declarations) -> Result<(), Fail>
    requires { IsAt IsScope heap.old names }

    ensures meets { Meets result heap.new (names_declared names declared.now heap.old) }

    ensures grown { Grows heap.old heap.new }
    ensures closed { IsClosed heap.old → IsClosed heap.new }
    ensures thrown { IfErr result (IsSoundFail heap.new) }
{
    for declaration in declared.as_slice() {
        declare_name(heap, names, declaration)?;
    }
    Ok(())
}

/// Makes a function in the record's scope, makes it a property of the global object, and notes its name.
fn declare_function(
    alloc: Global,
    heap: &mut Heap,
    script: u32,
    names: u32,
    global: u32,
    name: &Units,
    node: u32,
) -> Result<(), Fail>
    requires names { IsAt IsScope heap.old names }
    requires global { IsAt IsPlain heap.old global }

    ensures meets { Meets result heap.new (function_declared script names global name.now node heap.old) }

    ensures grown { Grows heap.old heap.new }
    ensures closed { IsClosed heap.old → IsClosed heap.new }
    ensures thrown { IfErr result (IsSoundFail heap.new) }
{
    let number = make_function(heap, script, node, names, global)?;
    write(alloc, heap, Value::Item(global), name, Value::Item(number))?;
    heap.declare_function(names, name)?;
    Ok(())
}

/// Declares the function of one declaration, if it is that of a function.
fn declare_one(
    alloc: Global,
    heap: &mut Heap,
    script: u32,
    names: u32,
    global: u32,
    declaration: &Declaration,
) -> Result<(), Fail>
    requires names { IsAt IsScope heap.old names }
    requires global { IsAt IsPlain heap.old global }

    ensures meets { Meets result heap.new (one_function script names global declaration.now heap.old) }

    ensures grown { Grows heap.old heap.new }
    ensures closed { IsClosed heap.old → IsClosed heap.new }
    ensures thrown { IfErr result (IsSoundFail heap.new) }
{
    match declaration {
        Declaration::Function(name, node) => {
            declare_function(alloc, heap, script, names, global, name, *node)
        }
        Declaration::Variable(_) | Declaration::Constant(_) => Ok(()),
    }
}

/// Declares the functions of a list, in order.
fn declare_functions(
    alloc: Global,
    heap: &mut Heap,
    script: u32,
    names: u32,
    global: u32,
    declared: &Declarations,
) -> Result<(), Fail>
    requires names { IsAt IsScope heap.old names }
    requires global { IsAt IsPlain heap.old global }

    ensures meets { Meets result heap.new (functions_declared script names global declared.now heap.old) }

    ensures grown { Grows heap.old heap.new }
    ensures closed { IsClosed heap.old → IsClosed heap.new }
    ensures thrown { IfErr result (IsSoundFail heap.new) }
{
    for declaration in declared.as_slice() {
        declare_one(alloc, heap, script, names, global, declaration)?;
    }
    Ok(())
}

/// Declares the names and then the functions of a list.
fn declare_all(
    alloc: Global,
    heap: &mut Heap,
    script: u32,
    names: u32,
    global: u32,
    declared: &Declarations,
) -> Result<(), Fail>
    requires names { IsAt IsScope heap.old names }
    requires global { IsAt IsPlain heap.old global }

    ensures meets { Meets result heap.new (all_declared script names global declared.now heap.old) }

    ensures grown { Grows heap.old heap.new }
    ensures closed { IsClosed heap.old → IsClosed heap.new }
    ensures thrown { IfErr result (IsSoundFail heap.new) }
{
    declare_names(heap, names, declared)?;
    declare_functions(alloc, heap, script, names, global, declared)
}

/// Declares what the list of a script declares, before the script runs (ECMA-262,
/// GlobalDeclarationInstantiation): in the scope that is the record of its context's names, and in the
/// context's global object.
///
/// Where a name clashes with the record, nothing is declared: `Throw` comes exactly then, with a new
/// SyntaxError `NAME is already declared` of the first such name, or `Over` where the cells of its message,
/// and then of the error, don't fit. Else each name of a `let` or a `const` joins the record in order,
/// without a value; then each function is made in order, becomes a property of the global object, and its
/// name is noted. `Over` comes exactly where the cells of a name, of a function or of a new property don't
/// fit; what was declared before stays. `NoMemory` may come.
#[tactic(auto, unfolding(crate::specs::Scripts::script_declared))]
pub fn declare_script(
    alloc: Global,
    heap: &mut Heap,
    script: u32,
    names: u32,
    global: u32,
    declared: &Declarations,
) -> Result<(), Fail>
    requires names { IsAt IsScope heap.old names }
    requires global { IsAt IsPlain heap.old global }

    ensures meets { Meets result heap.new (script_declared script names global declared.now heap.old) }

    ensures grown { Grows heap.old heap.new }
    ensures closed { IsClosed heap.old → IsClosed heap.new }
    ensures thrown { IfErr result (IsSoundFail heap.new) }
{
    match first_clash(heap, names, declared) {
        Some(name) => refuse(alloc, heap, name),
        None => declare_all(alloc, heap, script, names, global, declared),
    }
}
