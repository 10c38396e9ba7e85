//! The tokens of a script's text, or its first fault.
//!
//! Contracts see a text as its characters, tokens as a list of `Token`, and a refusal as it is.
//! Rely on: tokens are exactly those of the text, a refusal is its first fault at its byte, and a
//! text has one reading.
//! Over `ivm_text` and `unicode_ident`; under `parser_rules` and `js_parser`.
//! Begin with `specs/Front.antt` and `specs/Tokens.antt`, then `src/lexer.rt`.
#![tactic(auto)]

mod escapes;
mod front;
mod gaps;
mod laws;
mod letters;
mod lexer;
mod numbers;
mod places;
mod punctuators;
mod strings;
mod token;
mod words;

pub use laws::one_reading;
pub use lexer::lex;
pub use token::{SyntaxFault, Token, TokenKind, Tokens};
