//! The trees of scripts: what stands under a node, and what a list declares.
//!
//! Contracts see the tree under node `n` as `tree_of` of the script's nodes.
//! Rely on: what a call gives of a node is that of its tree, and the tree is the one that the
//! script has.
//! Over `js_syntax`; under `js_scripts`, `js_scopes` and the evaluation of scripts.
//! Begin with `specs/Tree.antt`, then `src/parts.rt`.
#![tactic(auto)]

mod declaration;
mod declare;
mod form;
mod laws;
mod parts;

pub use declaration::{Declaration, Declarations};
pub use declare::declarations;
pub use laws::{has_one_tree, has_tree};
pub use parts::{is_function, kid, kid_count, kind, name, names, node_place, number, own_name};
