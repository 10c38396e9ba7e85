//! What stands at the front of a text.

ghost use Rattle.std.specs.Prelude.{◌≡◌, ◌∷◌, ◌<◌, length, IfOk};
ghost use Rattle.js_lexer.specs.Letters.{begin_of};
ghost use Rattle.js_lexer.specs.Front.{Front, may_mark};
ghost use Rattle.js_lexer.specs.Element.{seen_of, IsShorter};
ghost use Rattle.std.specs.Prelude.{true};
ghost use Rattle.js_lexer.specs.declared.letters.Begin.TheVariants as begins;

use crate::TokenKind;
use crate::gaps::{skip_past_star, skip_to_line};
use crate::letters::{Begin, beginning};
use crate::numbers::read_number;
use crate::punctuators::{fraction, read_punctuator};
use crate::strings::{StringEnd, read_string};
use crate::words::read_word;
use ivm_text::{NoMemory, RefusalKind, Units};
use std::alloc::Global;

/// What stands at the front of a text, and the text behind it; or a fault, and the text at whose
/// front it is.
#[derive(Drop)]
pub(crate) enum Element<'a> {
    End,
    /// White space, a line terminator or a comment; whether a line terminator is in it.
    Gap(bool, &'a [char]),
    Token(TokenKind, Units, u64, &'a [char]),
    Fault(RefusalKind, &'a [char]),
}

pub(crate) fn front(alloc: Global, text: &[char]) -> Result<Element<'_>, NoMemory>
    ensures front { IfOk result (λ e. Front text.now (seen_of e)) }
    ensures within { IfOk result (IsShorter text.now) }
{
    match text {
        [c, tail @ ..] => front_of(alloc, *c, text, tail),
        [] => Ok(Element::End),
    }
}

fn front_of<'a>(
    alloc: Global,
    c: char,
    text: &'a [char],
    tail: &'a [char],
) -> Result<Element<'a>, NoMemory>
    requires { text.now ≡ c ∷ tail.now }

    ensures front { IfOk result (λ e. Front text.now (seen_of e)) }
    ensures within { IfOk result (IsShorter text.now) }
{
    match beginning(c) {
        Begin::Line => Ok(Element::Gap(true, tail)),
        Begin::White => Ok(Element::Gap(false, tail)),
        Begin::Slash => slash(alloc, c, text, tail),
        Begin::Word => word(alloc, c, text, tail),
        Begin::Digit => Ok(number(alloc, c, text, tail)),
        Begin::Quote => string(alloc, c, text, tail),
        Begin::Mark => mark(alloc, c, text, tail),
    }
}

/// A comment, or a punctuator that begins with `/`.
fn slash<'a>(
    alloc: Global,
    c: char,
    text: &'a [char],
    tail: &'a [char],
) -> Result<Element<'a>, NoMemory>
    requires text_is { text.now ≡ c ∷ tail.now }
    requires begins { begin_of c ≡ begins.Slash }

    ensures front { IfOk result (λ e. Front text.now (seen_of e)) }
    ensures within { IfOk result (IsShorter text.now) }
{
    if let [d, behind @ ..] = tail {
        if *d == '/' {
            return Ok(line_comment(text, behind));
        }
        if *d == '*' {
            return Ok(block_comment(text, behind));
        }
    }
    mark(alloc, c, text, tail)
}

fn line_comment<'a>(text: &'a [char], behind: &'a [char]) -> Element<'a>
    requires { text.now ≡ 47 ∷ 47 ∷ behind.now }

    ensures front { Front text.now (seen_of result) }
    ensures within { IsShorter text.now result }
{
    Element::Gap(false, skip_to_line(behind))
}

fn block_comment<'a>(text: &'a [char], behind: &'a [char]) -> Element<'a>
    requires { text.now ≡ 47 ∷ 42 ∷ behind.now }

    ensures front { Front text.now (seen_of result) }
    ensures within { IsShorter text.now result }
{
    match skip_past_star(behind) {
        Some((line, rest)) => Element::Gap(line, rest),
        None => Element::Fault(RefusalKind::OpenComment, text),
    }
}

fn word<'a>(
    alloc: Global,
    c: char,
    text: &'a [char],
    tail: &'a [char],
) -> Result<Element<'a>, NoMemory>
    requires text_is { text.now ≡ c ∷ tail.now }
    requires begins { begin_of c ≡ begins.Word }

    ensures front { IfOk result (λ e. Front text.now (seen_of e)) }
    ensures within { IfOk result (IsShorter text.now) }
{
    let (units, rest) = read_word(alloc, c, tail)?;
    Ok(Element::Token(TokenKind::Word, units, 0, rest))
}

fn number<'a>(alloc: Global, c: char, text: &'a [char], tail: &'a [char]) -> Element<'a>
    requires text_is { text.now ≡ c ∷ tail.now }
    requires begins { begin_of c ≡ begins.Digit }

    ensures front { Front text.now (seen_of result) }
    ensures within { IsShorter text.now result }
{
    match read_number(c, tail) {
        Some((n, rest)) => Element::Token(TokenKind::Num, Units::new(alloc), n, rest),
        None => Element::Fault(RefusalKind::NumberOutOfProfile, text),
    }
}

fn string<'a>(
    alloc: Global,
    c: char,
    text: &'a [char],
    tail: &'a [char],
) -> Result<Element<'a>, NoMemory>
    requires text_is { text.now ≡ c ∷ tail.now }
    requires begins { begin_of c ≡ begins.Quote }

    ensures front { IfOk result (λ e. Front text.now (seen_of e)) }
    ensures within { IfOk result (IsShorter text.now) }
{
    match read_string(alloc, c, tail)? {
        StringEnd::Closed(units, rest) => Ok(Element::Token(TokenKind::Text, units, 0, rest)),
        StringEnd::Unclosed => Ok(Element::Fault(RefusalKind::OpenString, text)),
        StringEnd::Bad(at) => Ok(Element::Fault(RefusalKind::BadEscape, at)),
    }
}

/// A punctuator, or no token.
fn mark<'a>(
    alloc: Global,
    c: char,
    text: &'a [char],
    tail: &'a [char],
) -> Result<Element<'a>, NoMemory>
    requires text_is { text.now ≡ c ∷ tail.now }
    requires marks { may_mark (begin_of c) tail.now ≡ true }

    ensures front { IfOk result (λ e. Front text.now (seen_of e)) }
    ensures within { IfOk result (IsShorter text.now) }
{
    match read_punctuator(text) {
        Some((spelling, rest)) => {
            if fraction(spelling, rest) {
                return Ok(Element::Fault(RefusalKind::NumberOutOfProfile, text));
            }
            let units = Units::from_latin1(alloc, spelling)?;
            Ok(Element::Token(TokenKind::Punct, units, 0, rest))
        }
        None => Ok(Element::Fault(RefusalKind::BadCharacter, text)),
    }
}
