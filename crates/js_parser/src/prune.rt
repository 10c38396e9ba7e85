//! The script that a tree alone gives.

ghost use Rattle.std.specs.Prelude.{◌≡◌, ◌<◌, ℕ, length, true, IfOk};
ghost use Rattle.js_syntax.specs.Shape.{AreBelow, IsFormed};
ghost use Rattle.js_syntax.specs.Tree.{IsTreeOf};
ghost use Rattle.js_trees.specs.Tree.{node_at};
ghost use Rattle.grammar_laws.specs.Formed.{AreFormed};
ghost use Rattle.js_parser.specs.Marks.{is_marked as is_mark, kept, kept_below};
ghost use Rattle.js_parser.specs.Nodes.{nodes_of};
ghost use Rattle.js_parser.specs.View.{tree_of};

use crate::copy::{clone_node, vacant};
use crate::marks::{Marks, is_marked, marks_of};
use crate::nodes::Nodes;
use ivm_text::NoMemory;
use js_syntax::{Node, Script};
use std::alloc::Global;

// What stays of a node: a marked one as it is, and nothing of another.
fn kept_node(alloc: Global, nodes: &Nodes, n: u32, marked: bool) -> Result<Node, NoMemory>
    requires within { n < length nodes.now }
    requires formed { marked ≡ true → IsFormed (node_at nodes.now n) }

    ensures node { IfOk result (λ node. node ≡ kept marked (node_at nodes.now n)) }
    ensures kids { IfOk result (λ node. AreBelow node.kids n) }
    ensures formed { IfOk result (λ node. IsFormed node) }
{
    if marked {
        clone_node(alloc, nodes.node(n))
    } else {
        Ok(vacant(alloc))
    }
}

// What stays of all nodes.
fn kept_nodes(alloc: Global, nodes: &Nodes, marks: &Marks) -> Result<Script, NoMemory>
    requires { (n : ℕ) → is_mark marks.now n ≡ true → IsFormed (node_at nodes.now n) }
    ensures { IfOk result (λ script. script ≡ kept_below nodes.now marks.now (length nodes.now)) }
{
    let mut script = Script::new(alloc);
    for n in 0..nodes.len() {
        script.add(kept_node(alloc, nodes, n, is_marked(marks, n))?)?;
    }
    Ok(script)
}

/// The script of the tree under the last node, each of whose forms has what its kind asks for: the
/// nodes of that tree alone, each under its number. It takes time in proportion to the nodes, and
/// looks at none under several parents more than once.
pub(crate) fn prune(alloc: Global, nodes: &Nodes) -> Result<Script, NoMemory>
    requires some { 0 < length nodes.now }
    requires formed { AreFormed (tree_of nodes.now) }

    ensures nodes { IfOk result (λ script. script ≡ nodes_of (tree_of nodes.now)) }
    ensures same { IfOk result (λ script. tree_of script ≡ tree_of nodes.now) }
    ensures tree { IfOk result (λ script. IsTreeOf script (tree_of script)) }
{
    let marks = marks_of(alloc, nodes)?;
    kept_nodes(alloc, nodes, &marks)
}
