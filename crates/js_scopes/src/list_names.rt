//! The names of a scope that is still to be made.
ghost use Rattle.std.specs.Prelude.{◌≡◌, [], IfOk, OnOk};
ghost use Rattle.js_scopes.specs.Lists.{with_parameters, with_declared};
ghost use Rattle.js_scopes.specs.Steps.{with_one};

use crate::add_binding;
use charged_heap::Bindings;
use ivm_text::{NoMemory, Units};
use js_trees::{Declaration, Declarations};
use std::alloc::Global;

/// Adds the names of parameters.
fn add_parameters(
    alloc: Global,
    bindings: &mut Bindings,
    parameters: &[Units],
) -> Result<(), NoMemory>
    ensures { OnOk result (bindings.new ≡ with_parameters bindings.old parameters.now) }
{
    for name in parameters {
        add_binding(alloc, bindings, name, false)?;
    }
    Ok(())
}

/// Adds the name of one declaration.
fn add_declaration(
    alloc: Global,
    bindings: &mut Bindings,
    declaration: &Declaration,
) -> Result<(), NoMemory>
    ensures { OnOk result (bindings.new ≡ with_one bindings.old declaration.now) }
{
    match declaration {
        Declaration::Variable(name) => add_binding(alloc, bindings, name, false),
        Declaration::Constant(name) => add_binding(alloc, bindings, name, true),
        Declaration::Function(name, _) => add_binding(alloc, bindings, name, false),
    }
}

/// Adds the names that a list declares.
fn add_declarations(
    alloc: Global,
    bindings: &mut Bindings,
    declared: &Declarations,
) -> Result<(), NoMemory>
    ensures { OnOk result (bindings.new ≡ with_declared bindings.old declared.now) }
{
    for declaration in declared.as_slice() {
        add_declaration(alloc, bindings, declaration)?;
    }
    Ok(())
}

/// The bindings of a new scope: parameters, and what a list declares. Only want of memory refuses them.
pub(crate) fn new_bindings(
    alloc: Global,
    parameters: &[Units],
    declared: &Declarations,
) -> Result<Bindings, NoMemory>
    ensures { IfOk result (λ all. all ≡ with_declared (with_parameters [] parameters.now) declared.now) }
{
    let mut all = Bindings::new(alloc);
    add_parameters(alloc, &mut all, parameters)?;
    add_declarations(alloc, &mut all, declared)?;
    Ok(all)
}
