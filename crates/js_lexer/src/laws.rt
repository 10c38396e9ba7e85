//! What holds of the definitions of tokens and faults.

ghost use Rattle.std.specs.Prelude.{ℕ, List};
ghost use Rattle.js_lexer.specs.Tokens.{HasOneReading};

/// A text is read in one way: it has its tokens or its first fault, one of each, and never both.
/// So `lex` answers `Ok` exactly with the tokens of the text, and `Refused` exactly with its first
/// fault.
pub fn one_reading()
    ensures { (bytes : List ℕ) → HasOneReading bytes }
{}
