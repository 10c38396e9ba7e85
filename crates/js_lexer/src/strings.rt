//! What stands between the quotes of a string.

ghost use Rattle.std.specs.Prelude.{◌≡◌, ◌∷◌, ◌++◌, ◌≤◌, IfOk, IfSome, OnOk};
ghost use Rattle.js_lexer.specs.Strings.{Inside, units_for, part_of, backslash};
ghost use Rattle.js_lexer.specs.Element.{ending_of, IsWithin, Turns, IsNearer};

use crate::escapes::escaped;
use ivm_text::{NoMemory, Units};
use std::alloc::Global;

/// What a string comes to behind its first quote.
#[derive(Drop)]
pub(crate) enum StringEnd<'a> {
    /// It stands for these units, and this is the text behind its last quote.
    Closed(Units, &'a [char]),
    Unclosed,
    /// The backslash at the front of this text begins no escape.
    Bad(&'a [char]),
}

/// What one character of a string does, or one escape.
#[derive(Clone, Copy, Drop)]
enum Turn<'a> {
    /// It stands for this code point, or for nothing, and the string goes on behind it.
    Go(Option<u32>, &'a [char]),
    Close(&'a [char]),
    Unclosed,
    Bad(&'a [char]),
}

/// What stands between the quotes, from behind the first one on.
pub(crate) fn read_string<'a>(
    alloc: Global,
    quote: char,
    text: &'a [char],
) -> Result<StringEnd<'a>, NoMemory>
    ensures inside { IfOk result (λ e. Inside quote text.now (ending_of e)) }
    ensures within { IfOk result (IsWithin text.now) }
{
    let mut units = Units::new(alloc);
    let mut rest = text;
    while let [c, tail @ ..] = rest {
        match take_turn(quote, *c, rest, tail) {
            Turn::Go(code, after) => {
                push_escape(&mut units, code)?;
                rest = after;
            }
            Turn::Close(after) => return Ok(StringEnd::Closed(units, after)),
            Turn::Unclosed => return Ok(StringEnd::Unclosed),
            Turn::Bad(at) => return Ok(StringEnd::Bad(at)),
        }
    }
    Ok(StringEnd::Unclosed)
}

fn take_turn<'a>(quote: char, c: char, text: &'a [char], tail: &'a [char]) -> Turn<'a>
    requires { text.now ≡ c ∷ tail.now }

    ensures turns { Turns quote text.now result }
    ensures within { IsNearer text.now result }
{
    if c == quote {
        return Turn::Close(tail);
    }
    if c == '\n' {
        return Turn::Unclosed;
    }
    if c == '\r' {
        return Turn::Unclosed;
    }
    if c == '\\' {
        return match tail {
            [d, behind @ ..] => escape_turn(quote, c, *d, text, behind),
            [] => Turn::Bad(text),
        };
    }
    Turn::Go(Some(c as u32), tail)
}

fn escape_turn<'a>(quote: char, c: char, d: char, text: &'a [char], behind: &'a [char]) -> Turn<'a>
    requires text_is { text.now ≡ c ∷ d ∷ behind.now }
    requires escapes { part_of quote c ≡ backslash }

    ensures turns { Turns quote text.now result }
    ensures within { IsNearer text.now result }
{
    match escaped(d, behind) {
        Some((code, after)) => Turn::Go(code, after),
        None => Turn::Bad(text),
    }
}

fn push_escape(units: &mut Units, code: Option<u32>) -> Result<(), NoMemory>
    requires { IfSome code (λ c. c ≤ 0x10FFFF) }
    ensures { OnOk result (units.new ≡ units.old ++ units_for code) }
{
    match code {
        Some(code) => units.push_code(code),
        None => Ok(()),
    }
}
