//! The tree that contracts speak of is the one that the nodes have.
ghost use Rattle.std.specs.Prelude.{◌≡◌, ◌<◌, [], ◌∷◌, length};
ghost use Rattle.js_syntax.specs.Tree.{Trees, AreTrees, IsTreeOf};
ghost use Rattle.js_trees.specs.Tree.{tree_of, single, script_tree};

use crate::form::form;
use js_syntax::Script;

/// The tree under a node is the one that the nodes have there. It looks at each node once.
pub fn has_tree(script: &Script, n: u32)
    requires { n < length script.now }
    ensures { AreTrees script.now (n ∷ []) (single (tree_of script.now n)) }
{
    for k in 0..script.len() {
        let _node = form(script, k);
    }
}

/// The tree under the root is the tree of the script, which has no other. It looks at each node
/// once.
pub fn has_one_tree(script: &Script)
    requires { 0 < length script.now }

    ensures tree { IsTreeOf script.now (script_tree script.now) }
    ensures one { (t : Trees) → IsTreeOf script.now t → t ≡ script_tree script.now }
{
    has_tree(script, script.root());
    script.one_tree();
}
