//! Texts as scripts: from bytes to the nodes of a checked script, or the one refusal.
//!
//! Contracts see bytes as a list and a script as the list of its nodes, which are those of the
//! text's one tree.
//! Rely on: a text is read in one way; two scripts of one text are the same nodes.
//! Over `js_lexer`, `js_parser`, `js_syntax` and `js_trees`; under `isolate_meaning` and
//! `isolate_core`.
//! Begin with `specs/Text.antt`, then `src/read.rt`.
#![tactic(auto)]

mod laws;
mod read;
mod unbuilt;

pub use laws::texts_are_read_once;
pub use read::read_script;
