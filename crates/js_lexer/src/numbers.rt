//! The numbers at the front of a text.

ghost use Rattle.std.specs.Prelude.{◌≡◌, ◌≤◌, length, None, Some, MatchOption, IfSome, IsTrue};
ghost use Rattle.ivm_text.specs.Text.{max_number};
ghost use Rattle.js_lexer.specs.Numbers.{clings, digits, hexadecimal, after_zero, number};
ghost use Rattle.js_lexer.specs.Letters.{is_digit};

use crate::letters::{digit, word_start};

const MAX_NUMBER: u64 = 9_007_199_254_740_991;

/// The number whose first digit is `c`, and the text behind it.
pub(crate) fn read_number(c: char, text: &[char]) -> Option<(u64, &[char])>
    requires { IsTrue (is_digit c) }

    ensures value { MatchOption result (number c text.now ≡ None) (λ p. number c text.now ≡ Some (p.0, p.1.now)) }
    ensures within { IfSome result (λ p. length p.1.now ≤ length text.now) }
    ensures small { IfSome result (λ p. p.0 ≤ max_number) }
{
    if c == '0' {
        read_after_zero(text)
    } else {
        read_digits(10, (c as u32 - '0' as u32) as u64, text)
    }
}

fn read_after_zero(text: &[char]) -> Option<(u64, &[char])>
    ensures value { MatchOption result (after_zero text.now ≡ None) (λ p. after_zero text.now ≡ Some (p.0, p.1.now)) }
    ensures within { IfSome result (λ p. length p.1.now ≤ length text.now) }
    ensures small { IfSome result (λ p. p.0 ≤ max_number) }
{
    match text {
        ['x' | 'X', tail @ ..] => read_hexadecimal(tail),
        _ if clinging(text) => None,
        _ => Some((0, text)),
    }
}

fn read_hexadecimal(text: &[char]) -> Option<(u64, &[char])>
    ensures value { MatchOption result (hexadecimal text.now ≡ None) (λ p. hexadecimal text.now ≡ Some (p.0, p.1.now)) }
    ensures within { IfSome result (λ p. length p.1.now ≤ length text.now) }
    ensures small { IfSome result (λ p. p.0 ≤ max_number) }
{
    match text {
        [c, tail @ ..] => {
            let first = c.to_digit(16)?;
            read_digits(16, first as u64, tail)
        }
        [] => None,
    }
}

/// The number that the digits at the front write after those of `first`, and the text behind them.
fn read_digits(base: u32, first: u64, text: &[char]) -> Option<(u64, &[char])>
    requires low { 2 ≤ base }
    requires high { base ≤ 16 }
    requires first { first ≤ max_number }

    ensures value { MatchOption result (digits base first text.now ≡ None) (λ p. digits base first text.now ≡ Some (p.0, p.1.now)) }
    ensures within { IfSome result (λ p. length p.1.now ≤ length text.now) }
    ensures small { IfSome result (λ p. p.0 ≤ max_number) }
{
    let mut n = first;
    let mut rest = text;
    while let [c, tail @ ..] = rest {
        let Some(digit) = c.to_digit(base) else {
            break;
        };
        n = base as u64 * n + digit as u64;
        if n > MAX_NUMBER {
            return None;
        }
        rest = tail;
    }
    if clinging(rest) {
        None
    } else {
        Some((n, rest))
    }
}

/// Whether something stands here that may not stand at once behind a number.
fn clinging(text: &[char]) -> bool
    ensures { result ≡ clings text.now }
{
    match text {
        [c, ..] => digit(*c) || word_start(*c) || *c == '.',
        [] => false,
    }
}
