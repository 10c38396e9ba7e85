//! Laws of texts as bytes and of their tokens, which `ivm_text` and `js_lexer` define.
//!
//! Contracts see bytes as lists of numbers, and texts as lists of characters.
//! Rely on: a block comment ends at the first `*/`; numbers and escapes are those that stand there;
//! bytes that are no text have the place of the first byte that no text could have there.
//! Over `js_lexer` and `ivm_text`; under no crate.
//! Begin with `specs/Comments.antt`, `specs/Numerals.antt`, `specs/Escapes.antt` and
//! `specs/FirstFault.antt`.
#![tactic(auto)]

mod laws;

pub use laws::{comments_end, escapes_stand, fault_is_first, numbers_stand};
