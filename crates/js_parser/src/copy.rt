//! Nodes made anew: an equal one, and one that stands for nothing.

ghost use Rattle.std.specs.Prelude.{◌≡◌, IfOk};
ghost use Rattle.js_trees.specs.Tree.{vacant as vacant_node};

use ivm_text::{CloneWhole, Items, NoMemory, Units};
use js_syntax::{Kind, Node};
use std::alloc::Global;

// An equal list of numbers.
fn clone_numbers(alloc: Global, numbers: &Items<u32>) -> Result<Items<u32>, NoMemory>
    ensures { IfOk result (λ copy. copy ≡ numbers.now) }
{
    Ok(Items::from_vec(numbers.as_slice().to_vec(alloc)?))
}

// An equal name, where there is one.
fn clone_name(alloc: Global, name: &Option<Units>) -> Result<Option<Units>, NoMemory>
    ensures { IfOk result (λ copy. copy ≡ name.now) }
{
    match name {
        Some(units) => Ok(Some(units.clone_whole(alloc)?)),
        None => Ok(None),
    }
}

/// An equal node in fresh memory.
pub(crate) fn clone_node(alloc: Global, node: &Node) -> Result<Node, NoMemory>
    ensures { IfOk result (λ copy. copy ≡ node.now) }
{
    Ok(Node {
        kind: node.kind,
        name: clone_name(alloc, &node.name)?,
        name_place: node.name_place,
        names: node.names.clone_whole(alloc)?,
        places: clone_numbers(alloc, &node.places)?,
        number: node.number,
        kids: clone_numbers(alloc, &node.kids)?,
        place: node.place,
    })
}

/// The node that stands for nothing. It takes no memory.
pub(crate) fn vacant(alloc: Global) -> Node
    ensures { result ≡ vacant_node }
{
    Node {
        kind: Kind::Absent,
        name: None,
        name_place: 0,
        names: Items::new(alloc),
        places: Items::new(alloc),
        number: 0,
        kids: Items::new(alloc),
        place: 0,
    }
}
