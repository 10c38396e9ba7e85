//! Scripts, literals and arguments from their bytes: their tree, or else the first bad token.
//!
//! Contracts see bytes and tokens as lists, and a script as the tree under its root.
//! Rely on: save for want of memory, `parse` and its kin answer with the nodes of a text's one tree,
//! or with its one refusal.
//! Over `grammar_laws`, `js_grammar`, `parser_rules`, `js_trees`, `js_lexer` and `js_syntax`; under
//! `js_scripts` and `js_literals`.
//! Begin with `specs/View.antt`, then `src/reader.rt` and `src/statements.rt`.
#![tactic(auto)]

mod builder;
mod classes;
mod copy;
mod declarations;
mod draft;
mod expressions;
mod functions;
mod grammar;
mod laws;
mod limit;
mod lists;
mod literals;
mod marks;
mod nodes;
mod operands;
mod operators;
mod prune;
mod reader;
mod scripts;
mod stacks;
mod statements;

pub use classes::spells;
pub use js_lexer::SyntaxFault;
pub use laws::texts_are_refused_once;
pub use scripts::{parse, parse_arguments, parse_literal};
