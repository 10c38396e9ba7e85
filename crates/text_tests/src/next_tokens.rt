//! Where statements end: each form in front of each kind of token, on its line and on the next.

use crate::places::list_named;
use anyhow::Error;
use js_parser::{SyntaxFault, parse};
use js_syntax::RefusalKind;
use std::alloc::Global;
use test_tables::{Table, Tally, text_of};

/// A row has a form, and the letters of the tokens in the list `next`: behind it on its line, then on the next.
pub fn run(
    rt: &HostRuntime,
    tally: &mut Tally,
    tables: &[Table],
    table: &Table,
) -> Result<(), Error> {
    let alloc = rt.alloc();
    let next = list_named(tables, "next")?;
    for row in table.rows.as_slice() {
        let form = text_of(alloc, row.field(0)?)?;
        let found = format!(in alloc;
            "{},{}",
            letters(alloc, &form, " ", next)?,
            letters(alloc, &form, "\n", next)?
        )?;
        let wanted = format!(in alloc; "{},{}", row.field(1)?, row.field(2)?)?;
        let wanted = wanted.replace(alloc, " ", "")?;
        tally.check(rt, row, &wanted, &found)?;
    }
    Ok(())
}

/// The letter of each token behind a form and a gap.
fn letters(alloc: Global, form: &str, gap: &str, next: &Table) -> Result<String, Error> {
    let mut letters = String::new(alloc);
    for row in next.rows.as_slice() {
        let token = text_of(alloc, row.field(0)?)?;
        let text = format!(in alloc; "{form}{gap}{token}")?;
        letters.push(letter(alloc, &text, form.len().saturating_add(1)))?;
    }
    Ok(letters)
}

/// What comes of a text in which a token stands at a byte: `1`, both are one statement; `2`, the form ends and another
/// statement follows; `-`, the token is refused; `x`, as one out of profile; `>`, what follows the token is refused.
fn letter(alloc: Global, text: &str, byte: usize) -> char {
    if text.len() > 1000 {
        return '?';
    }
    match parse(alloc, text.as_bytes()) {
        Ok(script) if script.len() > 0 => match script.node(script.root()).kids.len() {
            1 => '1',
            2 => '2',
            _ => '?',
        },
        Err(SyntaxFault::Refused(refusal)) => {
            let place = refusal.place as usize;
            match refusal.kind {
                RefusalKind::Unexpected if place == byte => '-',
                RefusalKind::Unexpected if place > byte => '>',
                RefusalKind::OutOfProfile if place == byte => 'x',
                _ => '?',
            }
        }
        _ => '?',
    }
}
