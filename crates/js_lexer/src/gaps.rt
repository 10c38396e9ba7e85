//! Where comments end.

ghost use Rattle.std.specs.Prelude.{◌≡◌, ◌≤◌, ◌<◌, length, None, Some, false, MatchOption, IfSome};
ghost use Rattle.js_lexer.specs.Gaps.{to_line, past_star};

use crate::letters::ends_line;

/// The text from its first line terminator on.
pub(crate) fn skip_to_line(text: &[char]) -> &[char]
    ensures value { result.now ≡ to_line text.now }
    ensures within { length result.now ≤ length text.now }
{
    let mut rest = text;
    while let [c, tail @ ..] = rest {
        if ends_line(*c) {
            return rest;
        }
        rest = tail;
    }
    rest
}

/// Whether a line terminator stands before the first `*/`, and the text behind it.
pub(crate) fn skip_past_star(text: &[char]) -> Option<(bool, &[char])>
    ensures value { MatchOption result (past_star false text.now ≡ None) (λ p. past_star false text.now ≡ Some (p.0, p.1.now)) }
    ensures within { IfSome result (λ p. length p.1.now < length text.now) }
{
    let mut line = false;
    let mut rest = text;
    while let [c, tail @ ..] = rest {
        if *c == '*' {
            if let ['/', after @ ..] = tail {
                return Some((line, after));
            }
        }
        line = line || ends_line(*c);
        rest = tail;
    }
    None
}
