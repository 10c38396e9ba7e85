//! The characters of a text, and the bytes at which they stand.

ghost use Rattle.std.specs.Prelude.{◌≡◌, ◌<◌, ◌^◌, IfOk};
ghost use Rattle.std.specs.Str.{chars};
ghost use Rattle.js_lexer.specs.Tokens.{byte_len, place_of};
ghost use Rattle.js_lexer.specs.Places.{places_from};

use ivm_text::NoMemory;
use std::alloc::Global;

/// The characters of a text.
pub(crate) fn chars_of(alloc: Global, text: &str) -> Result<Vec<char>, NoMemory>
    ensures { IfOk result (λ v. v.items ≡ chars text.now) }
{
    Ok(text.chars().collect(alloc)?)
}

/// The byte at which each character stands, and the number of all bytes.
pub(crate) fn places_of(alloc: Global, text: &[char]) -> Result<Vec<u32>, NoMemory>
    requires { byte_len text.now < 2 ^ 32 }
    ensures { IfOk result (λ v. v.items ≡ places_from 0 text.now) }
{
    let mut places = Vec::new(alloc);
    let mut place: u32 = 0;
    for c in text {
        places.push(place)?;
        place += c.len_utf8() as u32;
    }
    places.push(place)?;
    Ok(places)
}

/// The byte at which `rest` begins, with which the text ends.
pub(crate) fn place_in(text: &[char], places: &[u32], rest: &[char]) -> u32
    requires { places.now ≡ places_from 0 text.now }
    ensures { result ≡ place_of text.now rest.now }
{
    places[text.len().saturating_sub(rest.len())]
}
