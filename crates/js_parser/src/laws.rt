//! What holds of the definitions of trees and refusals.

ghost use Rattle.std.specs.Prelude.{ℕ, List};
ghost use Rattle.js_grammar.specs.Derives.{ArgumentsBy, LiteralBy, ScriptBy};
ghost use Rattle.js_parser.specs.Accepted.{AcceptsWholeTrees};
ghost use Rattle.js_parser.specs.Parsed.{IsRefusedOnce};

use grammar_laws::{arguments_are_formed, literals_are_formed, scripts_are_formed};

/// A text has at most one refusal, and none where its tokens have a tree. So `parse`,
/// `parse_literal` and `parse_arguments` answer `Refused` with the one refusal of a text.
pub fn texts_are_refused_once()
    ensures scripts { (bytes : List ℕ) → IsRefusedOnce ScriptBy bytes }
    ensures literals { (bytes : List ℕ) → IsRefusedOnce LiteralBy bytes }
    ensures arguments { (bytes : List ℕ) → IsRefusedOnce ArgumentsBy bytes }
{}

/// What the rule for the whole of a text accepts is a tree, and each of its forms has what its kind
/// asks for. So the parser may make a script of it without a test.
pub(crate) fn accepted_trees_are_whole()
    ensures { AcceptsWholeTrees }
{
    scripts_are_formed();
    literals_are_formed();
    arguments_are_formed();
}
