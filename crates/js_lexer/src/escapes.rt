//! What the characters behind a backslash stand for in a string.

ghost use Rattle.std.specs.Prelude.{◌≡◌, ◌≤◌, ◌<◌, length, None, Some, MatchOption, IfSome};
ghost use Rattle.js_lexer.specs.Escapes.{two_digits, four_digits, to_brace, unicode_escape, past_feed, single, escape};

use crate::letters::{digit, digit_first, ends_line};

/// What `c` and the text behind it stand for after a backslash: a code point or nothing, and the
/// text behind that.
pub(crate) fn escaped(c: char, text: &[char]) -> Option<(Option<u32>, &[char])>
    ensures value { MatchOption result (escape c text.now ≡ None) (λ p. escape c text.now ≡ Some (p.0, p.1.now)) }
    ensures within { IfSome result (λ p. length p.1.now ≤ length text.now) }
    ensures code { IfSome result (λ p. IfSome p.0 (λ code. code ≤ 0x10FFFF)) }
{
    match c {
        'x' => {
            let (code, rest) = read_two_digits(text)?;
            Some((Some(code), rest))
        }
        'u' => {
            let (code, rest) = read_unicode(text)?;
            Some((Some(code), rest))
        }
        '0' if digit_first(text) => None,
        '0' => Some((Some(0), text)),
        '\r' => Some((None, skip_feed(text))),
        _ if digit(c) => None,
        _ if ends_line(c) => Some((None, text)),
        _ => Some((Some(single_escape(c)), text)),
    }
}

fn read_two_digits(text: &[char]) -> Option<(u32, &[char])>
    ensures value { MatchOption result (two_digits text.now ≡ None) (λ p. two_digits text.now ≡ Some (p.0, p.1.now)) }
    ensures within { IfSome result (λ p. length p.1.now ≤ length text.now) }
    ensures small { IfSome result (λ p. p.0 < 256) }
{
    let [a, b, rest @ ..] = text else {
        return None;
    };
    let high = a.to_digit(16)?;
    let low = b.to_digit(16)?;
    Some((16 * high + low, rest))
}

fn read_four_digits(text: &[char]) -> Option<(u32, &[char])>
    ensures value { MatchOption result (four_digits text.now ≡ None) (λ p. four_digits text.now ≡ Some (p.0, p.1.now)) }
    ensures within { IfSome result (λ p. length p.1.now ≤ length text.now) }
    ensures small { IfSome result (λ p. p.0 < 65536) }
{
    let (high, after_two) = read_two_digits(text)?;
    let (low, rest) = read_two_digits(after_two)?;
    Some((256 * high + low, rest))
}

fn read_unicode(text: &[char]) -> Option<(u32, &[char])>
    ensures value { MatchOption result (unicode_escape text.now ≡ None) (λ p. unicode_escape text.now ≡ Some (p.0, p.1.now)) }
    ensures within { IfSome result (λ p. length p.1.now ≤ length text.now) }
    ensures code { IfSome result (λ p. p.0 ≤ 0x10FFFF) }
{
    match text {
        ['{', first, ..] if first.is_digit(16) => read_to_brace(&text[1..]),
        ['{', ..] => None,
        _ => read_four_digits(text),
    }
}

fn read_to_brace(text: &[char]) -> Option<(u32, &[char])>
    ensures value { MatchOption result (to_brace 0 text.now ≡ None) (λ p. to_brace 0 text.now ≡ Some (p.0, p.1.now)) }
    ensures within { IfSome result (λ p. length p.1.now ≤ length text.now) }
    ensures code { IfSome result (λ p. p.0 ≤ 0x10FFFF) }
{
    let mut code: u32 = 0;
    let mut rest = text;
    while let [c, tail @ ..] = rest {
        let Some(digit) = c.to_digit(16) else {
            return if *c == '}' { Some((code, tail)) } else { None };
        };
        code = 16 * code + digit;
        if code > 0x10FFFF {
            return None;
        }
        rest = tail;
    }
    None
}

fn skip_feed(text: &[char]) -> &[char]
    ensures value { result.now ≡ past_feed text.now }
    ensures within { length result.now ≤ length text.now }
{
    match text {
        ['\n', rest @ ..] => rest,
        _ => text,
    }
}

fn single_escape(c: char) -> u32
    ensures value { result ≡ single c }
    ensures code { result ≤ 0x10FFFF }
{
    match c {
        'b' => 8,
        'f' => 12,
        'n' => 10,
        'r' => 13,
        't' => 9,
        'v' => 11,
        _ => c as u32,
    }
}
