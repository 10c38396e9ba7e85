//! The further characters of a word.

ghost use Rattle.std.specs.Prelude.{◌≡◌, ◌≤◌, ◌∷◌, length, IfOk};
ghost use Rattle.ivm_text.specs.Text.{encode_utf16_all};
ghost use Rattle.js_lexer.specs.Words.{word_of, behind_word};

use crate::letters::word_part;
use ivm_text::{NoMemory, Units};
use std::alloc::Global;

/// The word whose first character is `c`, and the text behind it.
pub(crate) fn read_word(alloc: Global, c: char, text: &[char]) -> Result<(Units, &[char]), NoMemory>
    ensures word { IfOk result (λ p. p.0 ≡ encode_utf16_all (c ∷ word_of text.now)) }
    ensures behind { IfOk result (λ p. p.1.now ≡ behind_word text.now) }
    ensures within { IfOk result (λ p. length p.1.now ≤ length text.now) }
{
    let mut units = Units::new(alloc);
    units.push_code(c as u32)?;
    let mut rest = text;
    while let [c, tail @ ..] = rest {
        if !word_part(*c) {
            break;
        }
        units.push_code(*c as u32)?;
        rest = tail;
    }
    Ok((units, rest))
}
