//! Walks over one heap with a global object: scopes are made, and their names used, step by step.

use crate::made::item_of;
use crate::members::check_step;
use crate::printed::given_text;
use crate::scope_uses::told_of_use;
use crate::trials::AMPLE;
use crate::values::{needs, numbers_of};
use anyhow::{Error, bail};
use charged_heap::{Bindings, Fail, Heap, Value};
use ivm_text::{Items, Units};
use js_scopes::{
    add_binding, block_scope, call_scope, copy_scope, declare_script, initialise, make_scope,
    name_scope,
};
use js_trees::{Declaration, Declarations};
use std::alloc::Global;
use test_tables::{Row, Table, Tally};

/// The global object is the first item.
pub const GLOBAL: u32 = 0;

/// The number of the script whose functions are made.
const SCRIPT: u32 = 9;

/// A heap and its scopes, the first made first.
#[derive(Drop)]
struct World {
    heap: Heap,
    scopes: Vec<u32>,
}

pub fn run(rt: &HostRuntime, tally: &mut Tally, table: &Table) -> Result<(), Error> {
    let alloc = rt.alloc();
    let mut world = World {
        heap: Heap::new(alloc, AMPLE),
        scopes: Vec::new(alloc),
    };
    for row in table.rows.as_slice() {
        let before = world.heap.charged();
        let answer = told_of_step(alloc, &mut world, row)?;
        check_step(rt, tally, row, &answer, before, world.heap.charged())?;
    }
    Ok(())
}

/// The number of the scope that a field names, by its number among those made so far.
fn scope_at(scopes: &[u32], field: &str) -> Result<u32, Error> {
    match scopes.get(field.parse::<usize>()?) {
        Some(scope) => Ok(*scope),
        None => bail!("{field}: no such scope"),
    }
}

fn told_of_step(alloc: Global, world: &mut World, row: &Row) -> Result<String, Error> {
    let World { heap, scopes } = world;
    match row.field(0)? {
        "object" => {
            heap.add(item_of(alloc, row.field(1)?)?)?;
            Ok(String::from_str(alloc, "done")?)
        }
        "scope" | "copy" | "block" | "call" | "own" => match make(alloc, heap, scopes, row)? {
            Ok(scope) => {
                let told = format!(in alloc; "scope {}", scopes.len())?;
                scopes.push(scope)?;
                Ok(told)
            }
            Err(fail) => given_text(alloc, heap, Err(fail)),
        },
        "script" | "begin" | "note" => {
            let scope = scope_at(scopes, row.field(1)?)?;
            match change(alloc, heap, scope, row)? {
                Ok(()) => Ok(String::from_str(alloc, "done")?),
                Err(fail) => given_text(alloc, heap, Err(fail)),
            }
        }
        _ => {
            let scope = scope_at(scopes, row.field(1)?)?;
            told_of_use(alloc, heap, scope, row)
        }
    }
}

/// Makes a scope, inside another where one is named.
fn make(
    alloc: Global,
    heap: &mut Heap,
    scopes: &[u32],
    row: &Row,
) -> Result<Result<u32, Fail>, Error> {
    if row.field(1)? == "∅" {
        let bindings = bindings_of(alloc, row.field(2)?)?;
        return Ok(make_scope(heap, None, bindings));
    }
    let parent = scope_at(scopes, row.field(1)?)?;
    needs(heap.is_closed())?;
    needs(heap.is_plain(GLOBAL))?;
    needs(heap.is_scope(parent))?;
    match row.field(0)? {
        "scope" => {
            let bindings = bindings_of(alloc, row.field(2)?)?;
            Ok(make_scope(heap, Some(parent), bindings))
        }
        "copy" => Ok(copy_scope(alloc, heap, parent)),
        "block" => {
            let list = declared_of(alloc, row.field(2)?)?;
            Ok(block_scope(alloc, heap, SCRIPT, GLOBAL, parent, &list))
        }
        "own" => Ok(name_scope(
            alloc,
            heap,
            parent,
            &Units::from_text(alloc, row.field(2)?)?,
        )),
        _ => call(alloc, heap, parent, row),
    }
}

/// The scope of a call: what the body declares, the parameters, and the arguments.
fn call(
    alloc: Global,
    heap: &mut Heap,
    parent: u32,
    row: &Row,
) -> Result<Result<u32, Fail>, Error> {
    let list = declared_of(alloc, row.field(2)?)?;
    let mut names = Items::new(alloc);
    for name in row.field(3)?.split(", ") {
        names.push(Units::from_text(alloc, name)?)?;
    }
    let arguments = numbers_of(alloc, row.field(4)?)?;
    needs(heap.is_plain(GLOBAL))?;
    needs(heap.is_scope(parent))?;
    needs(heap.are_sound_values(&arguments))?;
    Ok(call_scope(
        alloc,
        heap,
        SCRIPT,
        GLOBAL,
        parent,
        names.as_slice(),
        &list,
        arguments.as_slice(),
    ))
}

/// Declares what a script does, notes a function's name, or gives a name its first value.
fn change(
    alloc: Global,
    heap: &mut Heap,
    scope: u32,
    row: &Row,
) -> Result<Result<(), Fail>, Error> {
    needs(heap.is_plain(GLOBAL))?;
    needs(heap.is_scope(scope))?;
    match row.field(0)? {
        "script" => {
            let list = declared_of(alloc, row.field(2)?)?;
            Ok(declare_script(alloc, heap, SCRIPT, scope, GLOBAL, &list))
        }
        "note" => {
            heap.declare_function(scope, &Units::from_text(alloc, row.field(2)?)?)?;
            Ok(Ok(()))
        }
        _ => {
            let value = Value::Num(row.field(3)?.parse::<i64>()?);
            initialise(heap, scope, &Units::from_text(alloc, row.field(2)?)?, value);
            Ok(Ok(()))
        }
    }
}

/// What a field declares: `let a, const b, function f 4`, where 4 is the function's node.
fn declared_of(alloc: Global, field: &str) -> Result<Declarations, Error> {
    let mut list = Items::new(alloc);
    for declaration in field.split(", ") {
        match declaration.split_once(' ') {
            Some((word, name)) => list.push(declaration_of(alloc, word, name)?)?,
            None => needs(declaration == "∅")?,
        }
    }
    Ok(list)
}

fn declaration_of(alloc: Global, word: &str, name: &str) -> Result<Declaration, Error> {
    if let Some((name, node)) = name.split_once(' ') {
        let name = Units::from_text(alloc, name)?;
        return Ok(Declaration::Function(name, node.parse::<u32>()?));
    }
    let name = Units::from_text(alloc, name)?;
    match word {
        "let" => Ok(Declaration::Variable(name)),
        "const" => Ok(Declaration::Constant(name)),
        _ => bail!("{word}: let, const or function"),
    }
}

/// Bindings of the names that a field declares. A name that stands there twice is bound once.
fn bindings_of(alloc: Global, field: &str) -> Result<Bindings, Error> {
    let mut bindings = Bindings::new(alloc);
    for declaration in declared_of(alloc, field)?.as_slice() {
        match declaration {
            Declaration::Variable(name) => add_binding(alloc, &mut bindings, name, false)?,
            Declaration::Constant(name) => add_binding(alloc, &mut bindings, name, true)?,
            Declaration::Function(_, _) => bail!("{field}: a scope's names alone"),
        }
    }
    Ok(bindings)
}
