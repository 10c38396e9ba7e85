//! The grammar of scripts as a table of rules, which a reader of one token carries out.
//!
//! Contracts see tokens as a list, a rule as the steps that it lists, and a form under construction
//! as what it has so far.
//! Rely on: a rule takes tokens from the left with one of them in view, and each list of tokens has
//! one answer.
//! Over `js_syntax` and `js_lexer`; under `first_bad`, `js_grammar` and `js_parser`.
//! Begin with `specs/Statements.antt` and `specs/Expressions.antt`, then `specs/Rules.antt`.
#![tactic(auto)]

mod class;
mod form;

pub use class::Class;
pub use form::{Cover, Form, Why};
