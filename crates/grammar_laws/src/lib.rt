//! What holds of every tree that the grammar of scripts has.
//!
//! Contracts see tokens as lists, and a tree as `js_syntax` has it.
//! Rely on: in the tree of a text, each node has what its kind asks for.
//! Over `js_grammar` and `js_trees`; under `js_parser`.
//! Begin with `specs/Formed.antt`, then `src/laws.rt`.
#![tactic(auto)]

mod laws;

pub use laws::{arguments_are_formed, literals_are_formed, scripts_are_formed};
