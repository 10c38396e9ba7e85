//! Tokens, and why a text has none.

ghost use Rattle.std.specs.Prelude.{◌≡◌};

use ivm_text::{Items, NoMemory, Refusal, Units};
use std::alloc::AllocError;

/// What a token is.
#[derive(Debug, Clone, Copy, PartialEq, Eq)]
pub enum TokenKind {
    /// A name or a reserved word.
    Word,
    /// A punctuator.
    Punct,
    /// A number.
    Num,
    /// A string.
    Text,
}

/// One token of a text.
#[derive(Debug, Drop)]
pub struct Token {
    pub kind: TokenKind,
    /// The word, the punctuator, or what the string stands for; empty for a number.
    pub text: Units,
    /// The value of a number; 0 for all others.
    pub number: i64,
    /// The byte at which it begins, counted from 0.
    pub place: u32,
    /// Whether a line terminator stands between it and the token before it, or the text's start for
    /// the first.
    pub after_line: bool,
}

/// The tokens of a text, in order.
pub type Tokens = Items<Token>;

/// Why a text gave no tokens.
#[derive(Debug, Drop)]
pub enum SyntaxFault {
    /// It is no text of tokens.
    Refused(Refusal),
    NoMemory,
}

impl From<NoMemory> for SyntaxFault {
    ghost use Rattle.js_lexer.specs.declared.token.SyntaxFault.TheVariants as faults;

    ghost from_gives = { λ _ fault. fault ≡ faults.NoMemory };

    fn from(_: NoMemory) -> SyntaxFault {
        SyntaxFault::NoMemory
    }
}

impl From<AllocError> for SyntaxFault {
    ghost use Rattle.js_lexer.specs.declared.token.SyntaxFault.TheVariants as faults;

    ghost from_gives = { λ _ fault. fault ≡ faults.NoMemory };

    fn from(_: AllocError) -> SyntaxFault {
        SyntaxFault::NoMemory
    }
}
