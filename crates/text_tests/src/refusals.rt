//! Why a text is refused: the name of the refusal, its byte, and its word where it has one.

use crate::spelling::spelled;
use anyhow::Error;
use js_lexer::SyntaxFault;
use js_syntax::{EarlyFault, Refusal, Script, early};
use std::alloc::Global;

pub fn fault_line(alloc: Global, fault: &SyntaxFault) -> Result<String, Error> {
    match fault {
        SyntaxFault::Refused(refusal) => refusal_line(alloc, refusal),
        SyntaxFault::NoMemory => Ok(String::from_str(alloc, "no memory")?),
    }
}

pub fn refusal_line(alloc: Global, refusal: &Refusal) -> Result<String, Error> {
    let mut line = format!(in alloc; "{:?} {}", refusal.kind, refusal.place)?;
    if let Some(word) = &refusal.word {
        write!(line, " {}", spelled(alloc, word)?)?;
    }
    Ok(line)
}

/// `checked`, or the early fault of a script; `not built` where there is none.
pub fn checked_line(alloc: Global, script: Option<Script>) -> Result<String, Error> {
    let Some(script) = script else {
        return Ok(String::from_str(alloc, "not built")?);
    };
    match early(script) {
        Ok(_checked) => Ok(String::from_str(alloc, "checked")?),
        Err(
            EarlyFault::Refused {
                refusal,
                script: _script,
            },
        ) => refusal_line(alloc, &refusal),
    }
}
