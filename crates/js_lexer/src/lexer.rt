//! The tokens of a text, or its first fault.

ghost use Rattle.std.specs.Prelude.{◌≡◌, ◌<◌, ◌≤◌, ◌^◌, pos, length, IfOk, IfErr};
ghost use Rattle.std.specs.Str.{chars};
ghost use Rattle.ivm_text.specs.Text.{max_number};
ghost use Rattle.js_lexer.specs.Tokens.{AreTokens, IsFaultOf, refusal, token_of};
ghost use Rattle.js_lexer.specs.Places.{places_from};
ghost use Rattle.js_lexer.specs.Element.{IsReading};

use crate::front::{Element, front};
use crate::places::{chars_of, place_in, places_of};
use crate::{SyntaxFault, Token, TokenKind, Tokens};
use ivm_text::{Items, NoMemory, Refusal, RefusalKind, Units, text_of};
use std::alloc::Global;

/// The tokens of a text of fewer than 2^32 bytes.
///
/// It is refused exactly where the bytes are no text of tokens. `BadUtf8` comes before all others,
/// at the first byte that no UTF-8 text could have there; else the refusal is the first fault from
/// left to right, at its byte.
pub fn lex(alloc: Global, text: &[u8]) -> Result<Tokens, SyntaxFault>
    requires { length text.now < 2 ^ 32 }

    ensures ok { IfOk result (AreTokens text.now) }
    ensures err { IfErr result (IsFaultOf text.now) }
{
    let text = match text_of(text) {
        Ok(text) => text,
        Err(place) => return Err(refused(RefusalKind::BadUtf8, place as u32)),
    };
    match read(alloc, text) {
        Ok(Reading::Tokens(tokens)) => Ok(tokens),
        Ok(Reading::Fault(kind, place)) => Err(refused(kind, place)),
        Err(NoMemory) => Err(SyntaxFault::NoMemory),
    }
}

/// What a text is read as: its tokens, or the kind of its first fault and the byte at which it is.
#[derive(Drop)]
enum Reading {
    Tokens(Tokens),
    Fault(RefusalKind, u32),
}

fn read(alloc: Global, text: &str) -> Result<Reading, NoMemory>
    requires { length text.now < 2 ^ 32 }
    ensures { IfOk result (IsReading (chars text.now)) }
{
    let characters = chars_of(alloc, text)?;
    let places = places_of(alloc, &characters)?;
    read_tokens(alloc, &characters, &places)
}

fn read_tokens(alloc: Global, text: &[char], places: &[u32]) -> Result<Reading, NoMemory>
    requires { places.now ≡ places_from 0 text.now }
    ensures { IfOk result (IsReading text.now) }
{
    let mut tokens = Items::new(alloc);
    let mut after_line = false;
    let mut rest = text;
    'elements: loop {
        let element = front(alloc, rest)?;
        match element {
            Element::End => return Ok(Reading::Tokens(tokens)),
            Element::Gap(line, behind) => {
                after_line = after_line | line;
                rest = behind;
            }
            Element::Token(kind, units, number, behind) => {
                let place = place_in(text, places, rest);
                tokens.push(token(kind, units, number, place, after_line))?;
                after_line = false;
                rest = behind;
            }
            Element::Fault(kind, at) => {
                return Ok(Reading::Fault(kind, place_in(text, places, at)));
            }
        }
    }
}

fn token(kind: TokenKind, text: Units, number: u64, place: u32, after_line: bool) -> Token
    requires { number ≤ max_number }
    ensures { result ≡ token_of kind text (pos number) place after_line }
{
    Token {
        kind,
        text,
        number: number as i64,
        place,
        after_line,
    }
}

fn refused(kind: RefusalKind, place: u32) -> SyntaxFault
    ensures { result ≡ SyntaxFault.Refused (refusal kind place) }
{
    SyntaxFault::Refused(Refusal {
        kind,
        place,
        word: None,
    })
}
