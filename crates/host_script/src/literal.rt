//! The primitive literal that the text of a command is.
ghost use Rattle.std.specs.Prelude.{◌≡◌, ◌≤◌, [], ◌∷◌, not, position, IfSome};
ghost use Rattle.std.specs.List.{list_all};
ghost use Rattle.std.specs.Option.{option_copied};
ghost use Rattle.host_script.specs.Literals.{most_number, read_on, number_of, is_space, skip_spaces, lone_word, plain_literal, negative, literal_of};

use ivm_text::Leaf;

const MAX_NUMBER: u64 = 9_007_199_254_740_991;

fn is_space(byte: u8) -> bool
    ensures { result ≡ is_space byte }
{
    byte == b' '
}

fn are_spaces(text: &[u8]) -> bool
    ensures { result ≡ list_all is_space text.now }
{
    text.iter().all(|byte| is_space(*byte))
}

// Where the first byte is that is no space.
fn first_text(text: &[u8]) -> Option<usize>
    ensures { result ≡ position (λ byte. not (is_space byte)) text.now }
{
    text.iter().position(|byte| !is_space(*byte))
}

// Where the first space is.
fn first_space(text: &[u8]) -> Option<usize>
    ensures { result ≡ position is_space text.now }
{
    text.iter().position(|byte| is_space(*byte))
}

#[tactic(auto, using(crate::proofs::Places::place_or_end, crate::proofs::Places::place_within))]
fn skip_spaces(text: &[u8]) -> &[u8]
    ensures { result.now ≡ skip_spaces text.now }
{
    let start = first_text(text).unwrap_or(text.len());
    &text[start..]
}

// The bytes up to the first space, where only spaces follow.
#[tactic(auto, using(crate::proofs::Places::place_or_end, crate::proofs::Places::place_within), unfolding(crate::specs::Literals::lone_word))]
fn lone_word(text: &[u8]) -> Option<&[u8]>
    ensures { option_copied result ≡ lone_word text.now }
{
    let end = first_space(text).unwrap_or(text.len());
    let (word, rest) = text.split_at(end);
    if !are_spaces(rest) {
        return None;
    }
    Some(word)
}

// The digits read so far, and one more.
fn read_digit(n: u64, digit: u8) -> Option<u64>
    requires { n ≤ most_number }
    ensures value { result ≡ read_on n (digit ∷ []) }
    ensures within { IfSome result (λ more. more ≤ most_number) }
{
    if !digit.is_ascii_digit() {
        return None;
    }
    let more = 10 * n + (digit - b'0') as u64;
    if more > MAX_NUMBER {
        return None;
    }
    Some(more)
}

// The number that digits write, none of them superfluous.
#[tactic(auto, unfolding(crate::specs::Literals::number_of))]
pub(crate) fn number(digits: &[u8]) -> Option<u64>
    ensures value { result ≡ number_of digits.now }
    ensures within { IfSome result (λ n. n ≤ most_number) }
{
    if digits.is_empty() || digits[0] == b'0' && digits.len() != 1 {
        return None;
    }
    let mut n = 0;
    for digit in digits {
        n = read_digit(n, *digit)?;
    }
    Some(n)
}

// A literal without a sign.
#[tactic(auto, unfolding(crate::specs::Literals::plain_literal))]
fn plain(word: &[u8]) -> Option<Leaf>
    ensures { result ≡ plain_literal word.now }
{
    if word == b"undefined".as_slice() {
        return Some(Leaf::Undefined);
    }
    if word == b"null".as_slice() {
        return Some(Leaf::Null);
    }
    if word == b"true".as_slice() {
        return Some(Leaf::Bool(true));
    }
    if word == b"false".as_slice() {
        return Some(Leaf::Bool(false));
    }
    let n = number(word)?;
    Some(Leaf::Num(n as i64))
}

// A number behind `-`. There is no -0.
#[tactic(auto, unfolding(crate::specs::Literals::negative))]
fn negative(n: u64) -> Option<Leaf>
    requires { n ≤ most_number }
    ensures { result ≡ negative n }
{
    if n == 0 {
        return None;
    }
    Some(Leaf::Num(-(n as i64)))
}

// A text as a literal. None where it isn't one.
#[tactic(auto, unfolding(crate::specs::Literals::literal_of))]
pub(crate) fn literal(text: &[u8]) -> Option<Leaf>
    ensures { result ≡ literal_of text.now }
{
    let rest = skip_spaces(text);
    if !rest.starts_with(b"-") {
        return plain(lone_word(rest)?);
    }
    let n = number(lone_word(skip_spaces(&rest[1..]))?)?;
    negative(n)
}
