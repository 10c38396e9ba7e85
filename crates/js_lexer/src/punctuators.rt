//! The longest punctuator at the front of a text.

ghost use Rattle.std.specs.Prelude.{◌≡◌, ◌≤◌, ◌<◌, length, None, Some, MatchOption, IfSome};
ghost use Rattle.js_lexer.specs.Punctuators.{punctuators, first_of, behind, past_all, spellings, is_chain, is_dot, is_fraction};

use crate::letters::digit_first;

/// From the longest on.
const PUNCTUATORS: [&[u8]; 57] = [
    b">>>=", b"...", b"===", b"!==", b">>>", b"**=", b"<<=", b">>=", b"&&=", b"||=", b"??=", b"<=",
    b">=", b"==", b"!=", b"**", b"++", b"--", b"<<", b">>", b"&&", b"||", b"??", b"?.", b"+=",
    b"-=", b"*=", b"/=", b"%=", b"&=", b"|=", b"^=", b"=>", b"{", b"}", b"(", b")", b"[", b"]",
    b".", b";", b",", b"<", b">", b"+", b"-", b"*", b"/", b"%", b"&", b"|", b"^", b"!", b"~", b"?",
    b":", b"=",
];

/// The longest punctuator that may stand at the front, and the text behind it.
pub(crate) fn read_punctuator(text: &[char]) -> Option<(&'static [u8], &[char])>
    ensures value { MatchOption result (first_of punctuators text.now ≡ None) (λ p. first_of punctuators text.now ≡ Some (p.0.now, p.1.now)) }
{
    first_in(&PUNCTUATORS, text)
}

fn first_in<'a>(table: &[&'static [u8]], text: &'a [char]) -> Option<(&'static [u8], &'a [char])>
    ensures value { MatchOption result (first_of (spellings table.now) text.now ≡ None) (λ p. first_of (spellings table.now) text.now ≡ Some (p.0.now, p.1.now)) }
{
    for spelling in table {
        if let Some(rest) = standing(spelling, text) {
            return Some((*spelling, rest));
        }
    }
    None
}

/// The text behind a punctuator, where it stands at the front.
fn standing<'a>(spelling: &[u8], text: &'a [char]) -> Option<&'a [char]>
    ensures value { MatchOption result (behind spelling.now text.now ≡ None) (λ rest. behind spelling.now text.now ≡ Some rest.now) }
{
    let rest = strip(spelling, text)?;
    if chain(spelling) && digit_first(rest) {
        return None;
    }
    Some(rest)
}

fn strip<'a>(spelling: &[u8], text: &'a [char]) -> Option<&'a [char]>
    ensures value { MatchOption result (past_all spelling.now text.now ≡ None) (λ rest. past_all spelling.now text.now ≡ Some rest.now) }
{
    let mut rest = text;
    for byte in spelling {
        let [c, tail @ ..] = rest else {
            return None;
        };
        if *c as u32 != *byte as u32 {
            return None;
        }
        rest = tail;
    }
    Some(rest)
}

fn chain(spelling: &[u8]) -> bool
    ensures { result ≡ is_chain spelling.now }
{
    match spelling {
        [a, b] => *a == b'?' && *b == b'.',
        _ => false,
    }
}

fn dot(spelling: &[u8]) -> bool
    ensures { result ≡ is_dot spelling.now }
{
    match spelling {
        [a] => *a == b'.',
        _ => false,
    }
}

/// Whether a fraction begins here: it is a `.`, and a digit stands behind it.
pub(crate) fn fraction(spelling: &[u8], rest: &[char]) -> bool
    ensures { result ≡ is_fraction spelling.now rest.now }
{
    dot(spelling) && digit_first(rest)
}
