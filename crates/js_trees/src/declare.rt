//! What the statements of a list declare.
ghost use Rattle.std.specs.Prelude.{◌≡◌, ◌<◌, ◌++◌, length, map, IfOk, OnOk};
ghost use Rattle.js_trees.specs.Tree.{tree_of};
ghost use Rattle.js_trees.specs.Declarations.{declared_by, function_of, declarations as declared};
ghost use Rattle.js_trees.specs.Named.{declared_name};

use crate::declaration::{Declaration, Declarations};
use crate::parts::{kid, kid_count, kind, name, names};
use ivm_text::{CloneWhole, Items, NoMemory, Units};
use js_syntax::{Kind, Names, Script};
use std::alloc::Global;

// A name of a `const`, or of a `let`.
fn named(constant: bool, name: Units) -> Declaration
    ensures { result ≡ declared_name constant name }
{
    if constant {
        Declaration::Constant(name)
    } else {
        Declaration::Variable(name)
    }
}

// Adds the names of a `const`, or of a `let`.
fn add_names(
    alloc: Global,
    constant: bool,
    names: &Names,
    list: &mut Declarations,
) -> Result<(), NoMemory>
    ensures { OnOk result (list.new ≡ list.old ++ map (declared_name constant) names.now) }
{
    let mut left = names.as_slice();
    while let [name, rest @ ..] = left {
        list.push(named(constant, name.clone_whole(alloc)?))?;
        left = rest;
    }
    Ok(())
}

// Adds a function, where it has a name.
fn add_function(
    alloc: Global,
    script: &Script,
    n: u32,
    list: &mut Declarations,
) -> Result<(), NoMemory>
    requires { n < length script.now }
    ensures { OnOk result (list.new ≡ list.old ++ function_of (((tree_of script.now n).head).name) n) }
{
    if let Some(name) = name(script, n) {
        list.push(Declaration::Function(name.clone_whole(alloc)?, n))?;
    }
    Ok(())
}

// Adds what a statement declares.
fn add_declared(
    alloc: Global,
    script: &Script,
    n: u32,
    list: &mut Declarations,
) -> Result<(), NoMemory>
    requires { n < length script.now }
    ensures { OnOk result (list.new ≡ list.old ++ declared_by (((tree_of script.now n).head).kind) ((tree_of script.now n).head)) }
{
    match kind(script, n) {
        Kind::Let => add_names(alloc, false, names(script, n), list),
        Kind::Const => add_names(alloc, true, names(script, n), list),
        Kind::FunctionDecl => add_function(alloc, script, n, list),
        _ => Ok(()),
    }
}

/// What the parts of a node declare, in order: the names of each `let` and `const`, and each
/// function declaration with its node. Only want of memory refuses it.
pub fn declarations(alloc: Global, script: &Script, n: u32) -> Result<Declarations, NoMemory>
    requires { n < length script.now }
    ensures { IfOk result (λ list. list ≡ declared ((tree_of script.now n).kids)) }
{
    let mut list = Items::new(alloc);
    for i in 0..kid_count(script, n) {
        add_declared(alloc, script, kid(script, n, i), &mut list)?;
    }
    Ok(list)
}
