//! Laws of the first bad token of a text, above the grammar that `parser_rules` has.
//!
//! Contracts see tokens as a list, and the grammar as the rule for the whole of a text.
//! Rely on: a text begins with the tokens before the refused one, and none with that one too; so
//! there is one such token.
//! Over `parser_rules`; under `js_grammar` and `js_parser`.
//! Begin with `specs/Viable.antt`, then `specs/FirstBad.antt`.
#![tactic(auto)]

mod laws;

pub use laws::{
    arguments_are_read_or_refused_once, arguments_stand_at_first_bad,
    literals_are_read_or_refused_once, literals_stand_at_first_bad,
    scripts_are_read_or_refused_once, scripts_stand_at_first_bad,
};
