//! The nodes that a parser made.

ghost use Rattle.std.specs.Prelude.{◌≡◌, ◌+◌, ◌<◌, ◌++◌, [], ◌∷◌, length, slice_get, take, Some, IfOk, OnOk, OnErr};
ghost use Rattle.js_syntax.specs.Shape.{AreBelow};

use ivm_text::{Items, NoMemory};
use js_syntax::Node;
use std::alloc::Global;
use std::marker::Model;

/// Nodes by number, seen as their list. The kids of each stand below it. Some may be no part of a
/// tree: the parser takes back what turns out to be parameters.
#[derive(Drop)]
pub(crate) struct Nodes {
    nodes: Items<Node>,
}

impl Model for Nodes {
    ghost use Rattle.std.specs.Prelude.{List};
    ghost use Rattle.js_syntax.specs.declared.node.Node.{Node};
    ghost use Rattle.js_parser.specs.Below.{AreBelowFrom};

    ghost Value = { List Node };

    ghost view = { λ it. it.nodes };

    ghost invariant = { λ it. AreBelowFrom 0 it.nodes };
}

impl Nodes {
    /// No nodes. It takes no memory.
    pub fn new(alloc: Global) -> Nodes
        ensures { result ≡ [] }
    {
        Nodes {
            nodes: Items::new(alloc),
        }
    }

    /// Adds a node, whose kids are there, and gives its number. Only want of memory refuses it, and
    /// then the nodes are as they were.
    pub fn add(&mut self, node: Node) -> Result<u32, NoMemory>
        requires { AreBelow node.kids (length self.old) }

        ensures ok { OnOk result (self.new ≡ self.old ++ node ∷ []) }
        ensures number { IfOk result (λ n. n ≡ length self.old) }
        ensures err { OnErr result (self.new ≡ self.old) }
    {
        let number = self.nodes.len();
        self.nodes.push(node)?;
        Ok(number)
    }

    /// How many nodes there are.
    pub fn len(&self) -> u32
        ensures { result ≡ length self.now }
    {
        self.nodes.len()
    }

    /// The node with a number.
    pub fn node(&self, number: u32) -> &Node
        requires { number < length self.now }

        ensures node { slice_get self.now number ≡ Some result.now }
        ensures kids { AreBelow result.now.kids number }
    {
        &self.nodes.as_slice()[number as usize]
    }

    /// The nodes up to this one, which is the last of them then.
    pub fn up_to(self, last: u32) -> Nodes
        requires { last < length self }
        ensures { result ≡ take (last + 1) self }
    {
        let mut nodes = self.nodes.into_vec();
        nodes.truncate(last as usize + 1);
        Nodes {
            nodes: Items::from_vec(nodes),
        }
    }
}
