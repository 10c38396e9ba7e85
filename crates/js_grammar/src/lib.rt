//! The grammar of scripts by cases, and that it is the grammar that the parser carries out.
//!
//! Contracts see tokens as lists, and a tree as `js_syntax` has it.
//! Rely on: tokens derive one tree, where the table accepts them with it, or have one first bad
//! token, where it refuses them.
//! Over `parser_rules` and `first_bad`; under `js_parser`, `js_scripts` and `js_literals`.
//! Begin with `specs/Derives.antt`, then `specs/Statements.antt` and `specs/Expressions.antt`.
#![tactic(auto)]

mod laws;

pub use laws::{
    arguments_derive, arguments_have_a_first_bad_token, arguments_have_one_refusal,
    literals_derive, literals_have_a_first_bad_token, literals_have_one_refusal, scripts_derive,
    scripts_have_a_first_bad_token, scripts_have_one_refusal,
};
