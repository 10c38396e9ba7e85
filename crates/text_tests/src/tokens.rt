//! The tokens of a text.

use crate::spelling::{hexadecimal, spelled};
use anyhow::Error;
use js_lexer::{Token, TokenKind, Tokens};
use std::alloc::Global;

/// A token is its kind (`w`, `p`, `n`, `t`), its byte, `:` and its text; a string is its units. `^` stands before a token
/// behind a line terminator.
pub fn tokens_line(alloc: Global, tokens: &Tokens) -> Result<String, Error> {
    let mut line = String::new(alloc);
    for token in tokens.as_slice() {
        let between = if line.is_empty() { "" } else { " " };
        let mark = if token.after_line { "^" } else { "" };
        let (kind, text) = token_text(alloc, token)?;
        write!(line, "{between}{mark}{kind}{}:{text}", token.place)?;
    }
    Ok(line)
}

fn token_text(alloc: Global, token: &Token) -> Result<(char, String), Error> {
    match token.kind {
        TokenKind::Word => Ok(('w', spelled(alloc, &token.text)?)),
        TokenKind::Punct => Ok(('p', spelled(alloc, &token.text)?)),
        TokenKind::Num => Ok(('n', format!(in alloc; "{}", token.number)?)),
        TokenKind::Text => Ok(('t', hexadecimal(alloc, &token.text)?)),
    }
}
