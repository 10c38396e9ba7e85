//! What stands under a node: its own, and its parts.
ghost use Rattle.std.specs.Prelude.{◌≡◌, ◌<◌, length, Some};
ghost use Rattle.std.specs.Option.{option_copied};
ghost use Rattle.js_syntax.specs.Shape.{HasName, always};
ghost use Rattle.js_trees.specs.Tree.{tree_of, kid as part, kid_count as part_count};
ghost use Rattle.js_trees.specs.Forms.{HasForm, is_function_kind};

use crate::form::form;
use ivm_text::Units;
use js_syntax::{Kind, Names, Script};

/// The kind of a node. Its tree has the name, the names and the parts that the kind asks for, and
/// knows the number of the node.
pub fn kind(script: &Script, n: u32) -> Kind
    requires { n < length script.now }

    ensures kind { result ≡ ((tree_of script.now n).head).kind }
    ensures formed { HasForm result (tree_of script.now n) }
    ensures itself { ((tree_of script.now n).head).number_of_node ≡ n }
{
    form(script, n).kind
}

/// Whether a node is a function: a declaration, an expression or an arrow.
pub fn is_function(script: &Script, n: u32) -> bool
    requires { n < length script.now }
    ensures { result ≡ is_function_kind (((tree_of script.now n).head).kind) }
{
    matches!(
        form(script, n).kind,
        Kind::FunctionDecl | Kind::FunctionExpr | Kind::Arrow
    )
}

/// How many parts a node has.
pub fn kid_count(script: &Script, n: u32) -> u32
    requires { n < length script.now }
    ensures { result ≡ part_count ((tree_of script.now n).kids) }
{
    form(script, n).kids.len()
}

/// The node of a part, counted from 0.
pub fn kid(script: &Script, n: u32, i: u32) -> u32
    requires node { n < length script.now }
    requires part { i < part_count ((tree_of script.now n).kids) }

    ensures tree { tree_of script.now result ≡ part i ((tree_of script.now n).kids) }
    ensures below { result < n }
{
    form(script, n).kids.as_slice()[i as usize]
}

/// The name that a node has of its own, as a function's, a member's or that of a `catch`. Some
/// kinds have none.
pub fn name(script: &Script, n: u32) -> Option<&Units>
    requires { n < length script.now }
    ensures { option_copied result ≡ ((tree_of script.now n).head).name }
{
    form(script, n).name.as_ref()
}

/// The name of a node that has one.
pub fn own_name(script: &Script, n: u32) -> &Units
    requires node { n < length script.now }
    requires named { HasName always (((tree_of script.now n).head).name) }
    ensures { Some result.now ≡ ((tree_of script.now n).head).name }
{
    form(script, n).name.as_ref().unwrap()
}

/// The names of a node: what a `let` or `const` declares, a function's parameters, or an object's
/// keys.
pub fn names(script: &Script, n: u32) -> &Names
    requires { n < length script.now }
    ensures { result.now ≡ ((tree_of script.now n).head).names }
{
    &form(script, n).names
}

/// The value of a number; 0 for all others.
pub fn number(script: &Script, n: u32) -> i64
    requires { n < length script.now }
    ensures { result ≡ ((tree_of script.now n).head).value }
{
    form(script, n).number
}

/// The byte at which a node's form begins; 0 for a script and for what is left out.
pub fn node_place(script: &Script, n: u32) -> u32
    requires { n < length script.now }
    ensures { result ≡ ((tree_of script.now n).head).place }
{
    form(script, n).place
}
