//! The node over which a tree stands.
ghost use Rattle.std.specs.Prelude.{◌≡◌, ◌<◌, ℕ, length, slice_get, Some};
ghost use Rattle.js_syntax.specs.Shape.{AreBelow};
ghost use Rattle.js_trees.specs.Tree.{kid, kid_count, tree_by, tree_of};
ghost use Rattle.js_trees.specs.Forms.{HasForm};

use js_syntax::{Node, Script};

/// The node with a number: its tree is that node over the trees of its kids, which stand below it.
pub(crate) fn form(script: &Script, n: u32) -> &Node
    requires { n < length script.now }

    ensures tree { tree_of script.now n ≡ tree_by (tree_of script.now) n result.now }
    ensures node { slice_get script.now n ≡ Some result.now }
    ensures kids { AreBelow result.now.kids n }
    ensures formed { HasForm result.now.kind (tree_of script.now n) }
    ensures count { kid_count ((tree_of script.now n).kids) ≡ length result.now.kids }
    ensures each { (i k : ℕ) → slice_get result.now.kids i ≡ Some k → tree_of script.now k ≡ kid i ((tree_of script.now n).kids) }
{
    script.node(n)
}
