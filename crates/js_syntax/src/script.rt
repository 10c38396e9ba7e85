//! A script as a list of nodes.

ghost use Rattle.std.specs.Prelude.{◌≡◌, ◌+◌, ◌<◌, ◌++◌, [], ◌∷◌, length, slice_get, ◌↔◌, IsTrue, Some, IfOk, IfSome, IfNone, OnOk, OnErr};
ghost use Rattle.js_syntax.specs.Shape.{IsFormed, AreBelow};
ghost use Rattle.js_syntax.specs.Tree.{Trees, IsTreeOf};
ghost use Rattle.js_syntax.specs.Early.{HasEarlyFault, HasNoEarlyFault};

use crate::faults::{Faults, faults_with};
use crate::shape::is_formed;
use crate::{Around, Fault, Node};
use ivm_text::{Items, NoMemory};
use std::alloc::Global;
use std::marker::Model;

/// The nodes of a script, seen as their list. The last one is the root.
///
/// Beside each node stands which early fault is told of it and its parts. So a script that is
/// whole is checked by one look at its root.
#[derive(Debug, Drop)]
pub struct Script {
    alloc: Global,
    nodes: Items<Node>,
    noted: Items<Faults>,
}

impl Model for Script {
    ghost use Rattle.std.specs.Prelude.{List};
    ghost use Rattle.js_syntax.specs.declared.node.Node.{Node};
    ghost use Rattle.js_syntax.specs.Shape.{AreSound};
    ghost use Rattle.js_syntax.specs.Noted.{AreNoted};

    ghost Value = { List Node };

    ghost view = { λ s. s.nodes };

    ghost invariant = { λ s. AreSound s.nodes × AreNoted s.nodes s.noted };
}

impl Script {
    /// A script without a node.
    pub fn new(alloc: Global) -> Script
        ensures { result ≡ [] }
    {
        Script {
            alloc,
            nodes: Items::new(alloc),
            noted: Items::new(alloc),
        }
    }

    /// Whether a node may be added: its kids are there, and it has what its kind asks for.
    pub fn may_add(&self, node: &Node) -> bool
        ensures { IsTrue result ↔ (AreBelow node.now.kids (length self.now) × IsFormed node.now) }
    {
        let length = self.nodes.len();
        node.kids.as_slice().iter().all(|kid| *kid < length) && is_formed(node)
    }

    /// Adds a node, which is the root until the next one is added, and gives its number. Only want
    /// of memory refuses it, and then the script is as it was.
    pub fn add(&mut self, node: Node) -> Result<u32, NoMemory>
        requires kids { AreBelow node.kids (length self.old) }
        requires formed { IsFormed node }

        ensures ok { OnOk result (self.new ≡ self.old ++ node ∷ []) }
        ensures number { IfOk result (λ n. n ≡ length self.old) }
        ensures err { OnErr result (self.new ≡ self.old) }
    {
        let number = self.nodes.len();
        let faults = faults_with(
            self.alloc,
            self.nodes.as_slice(),
            self.noted.as_slice(),
            &node,
        )?;
        self.noted.push(faults)?;
        if let Err(fault) = self.nodes.push(node) {
            let _ = self.noted.pop();
            return Err(fault.into());
        }
        Ok(number)
    }

    /// How many nodes there are.
    pub fn len(&self) -> u32
        ensures { result ≡ length self.now }
    {
        self.nodes.len()
    }

    /// The node with a number.
    pub fn node(&self, number: u32) -> &Node
        requires { number < length self.now }
        ensures node { slice_get self.now number ≡ Some result.now }
        ensures kids { AreBelow result.now.kids number }
        ensures formed { IsFormed result.now }
    {
        &self.nodes.as_slice()[number as usize]
    }

    /// The number of the root.
    pub fn root(&self) -> u32
        requires { 0 < length self.now }
        ensures { result + 1 ≡ length self.now }
    {
        self.nodes.len() - 1
    }

    /// A script with a node has a tree, and just one.
    pub fn one_tree(&self)
        requires { 0 < length self.now }
        ensures tree { (t : Trees) × IsTreeOf self.now t }
        ensures one { (s t : Trees) → IsTreeOf self.now s → IsTreeOf self.now t → s ≡ t }
    {
        let _nodes = self.nodes.len();
    }

    /// The early fault of the script's tree that stands first, and of two at one place that with
    /// the lower number. None where there is no fault, and none without a node.
    pub fn early_fault(&self) -> Option<Fault>
        ensures some { IfSome result (HasEarlyFault self.now) }
        ensures none { IfNone result (HasNoEarlyFault self.now) }
    {
        if self.nodes.len() == 0 {
            return None;
        }
        let outside = Around {
            in_function: false,
            in_loop: false,
        };
        self.noted.get(self.root())?.told(outside)
    }
}
