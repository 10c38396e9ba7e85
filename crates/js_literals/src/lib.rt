//! Literals and texts of arguments from their bytes, as plain copies.
//!
//! Contracts see bytes as lists, and a copy as its nodes and its root.
//! Rely on: a text has one value or one refusal, and the calls answer with it.
//! Over `js_parser`, `js_grammar` and `ivm_text`; under the tests alone, so far.
//! Begin with `specs/Copies.antt`, then `src/copies.rt`.
#![tactic(auto)]

mod argument;
mod copies;
mod laws;
mod literals;
mod objects;

pub use argument::{Argument, FormKind};
pub use js_parser::SyntaxFault;
pub use laws::{one_refusal, one_value};
pub use literals::{arguments, literal};
