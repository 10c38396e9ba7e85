//! Names that must differ in a form, in the order in which they are declared.
ghost use Rattle.std.specs.Prelude.{◌≡◌, ◌++◌, OnOk, IfOk, length, slice_get, Some, Option, true, false, if◌then◌else◌};
ghost use Rattle.js_syntax.specs.Names.{named, is_body, is_block, may_share};
ghost use Rattle.js_syntax.specs.Noted.{own_name_of, declares_node, declares_at, declared_at, body_kids, block_kids, body_at, block_at, catch_at, differ_at};

use crate::{Kind, Names, Node, Places};
use ivm_text::{CloneWhole, NoMemory, Units};
use std::alloc::Global;

/// A name that is declared, the byte at which it stands, and whether a function declares it as its
/// own.
#[derive(Debug, Drop)]
pub struct Declared {
    pub name: Units,
    pub place: u32,
    pub by_function: bool,
}

// Adds names with their places.
fn add_names(
    alloc: Global,
    names: &Names,
    places: &Places,
    list: &mut Vec<Declared>,
) -> Result<(), NoMemory>
    ensures { OnOk result (list.new.items ≡ list.old.items ++ named names.now places.now) }
{
    let mut names = names.as_slice();
    let mut places = places.as_slice();
    while let [name, names_left @ ..] = names {
        let [place, places_left @ ..] = places else {
            return Ok(());
        };
        list.push(Declared {
            name: name.clone_whole(alloc)?,
            place: *place,
            by_function: false,
        })?;
        names = names_left;
        places = places_left;
    }
    Ok(())
}

// Adds the name of a form, where it has one.
fn add_own_name(
    alloc: Global,
    by_function: bool,
    node: &Node,
    list: &mut Vec<Declared>,
) -> Result<(), NoMemory>
    ensures { OnOk result (list.new.items ≡ list.old.items ++ own_name_of by_function node.now) }
{
    if let Some(name) = &node.name {
        list.push(Declared {
            name: name.clone_whole(alloc)?,
            place: node.name_place,
            by_function,
        })?;
    }
    Ok(())
}

// Adds what a statement declares in its list.
fn add_declared(
    alloc: Global,
    functions: bool,
    node: &Node,
    list: &mut Vec<Declared>,
) -> Result<(), NoMemory>
    ensures { OnOk result (list.new.items ≡ list.old.items ++ declares_node functions node.now) }
{
    match node.kind {
        Kind::Let | Kind::Const => add_names(alloc, &node.names, &node.places, list),
        Kind::FunctionDecl if functions => add_own_name(alloc, true, node, list),
        _ => Ok(()),
    }
}

// Adds what the statement with this number declares.
fn add_declared_at(
    alloc: Global,
    functions: bool,
    nodes: &[Node],
    kid: u32,
    list: &mut Vec<Declared>,
) -> Result<(), NoMemory>
    ensures { OnOk result (list.new.items ≡ list.old.items ++ declares_at functions nodes.now kid) }
{
    match nodes.get(kid as usize) {
        Some(node) => add_declared(alloc, functions, node, list),
        None => Ok(()),
    }
}

// Adds what the statements with these numbers declare.
fn add_all_declared(
    alloc: Global,
    functions: bool,
    nodes: &[Node],
    kids: &[u32],
    list: &mut Vec<Declared>,
) -> Result<(), NoMemory>
    ensures { OnOk result (list.new.items ≡ list.old.items ++ declared_at functions nodes.now kids.now) }
{
    let mut left = kids;
    while let [kid, rest @ ..] = left {
        add_declared_at(alloc, functions, nodes, *kid, list)?;
        left = rest;
    }
    Ok(())
}

// The statements of a function's body, which is its only part.
fn body_list<'a>(nodes: &'a [Node], kids: &[u32]) -> &'a [u32]
    ensures { result.now ≡ body_at nodes.now kids.now }
{
    match kids {
        [body, ..] => match nodes.get(*body as usize) {
            Some(node) if matches!(node.kind, Kind::Body) => node.kids.as_slice(),
            _ => &[],
        },
        [] => &[],
    }
}

// The statements of the first of these forms, where it is a block.
fn block_list<'a>(nodes: &'a [Node], kids: &[u32]) -> &'a [u32]
    ensures { result.now ≡ block_at nodes.now kids.now }
{
    match kids {
        [block, ..] => match nodes.get(*block as usize) {
            Some(node) if matches!(node.kind, Kind::Block) => node.kids.as_slice(),
            _ => &[],
        },
        [] => &[],
    }
}

// The statements of the block of a `catch`, which is the second part of a `try`.
fn catch_list<'a>(nodes: &'a [Node], kids: &[u32]) -> &'a [u32]
    ensures { result.now ≡ catch_at nodes.now kids.now }
{
    match kids {
        [_, rest @ ..] => block_list(nodes, rest),
        [] => &[],
    }
}

/// Whether functions may share a name in the list of such a form.
pub(crate) fn may_share(kind: Kind) -> bool
    ensures { result ≡ may_share kind }
{
    matches!(kind, Kind::Script | Kind::Body)
}

/// The names that must differ in a form, over the nodes of its parts.
pub(crate) fn must_differ(
    alloc: Global,
    nodes: &[Node],
    node: &Node,
) -> Result<Vec<Declared>, NoMemory>
    ensures { IfOk result (λ list. list.items ≡ differ_at node.now.kind nodes.now node.now) }
{
    let mut list = Vec::new(alloc);
    let kids = node.kids.as_slice();
    match node.kind {
        Kind::Let | Kind::Const => add_names(alloc, &node.names, &node.places, &mut list)?,
        Kind::Script | Kind::Body | Kind::Block => {
            add_all_declared(alloc, true, nodes, kids, &mut list)?;
        }
        Kind::FunctionDecl | Kind::FunctionExpr | Kind::Arrow => {
            add_names(alloc, &node.names, &node.places, &mut list)?;
            add_all_declared(alloc, false, nodes, body_list(nodes, kids), &mut list)?;
        }
        Kind::Try => {
            add_own_name(alloc, false, node, &mut list)?;
            add_all_declared(alloc, true, nodes, catch_list(nodes, kids), &mut list)?;
        }
        _ => {}
    }
    Ok(list)
}
