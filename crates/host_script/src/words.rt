//! The words of a line, and which of them can be names.
ghost use Rattle.std.specs.Prelude.{◌≡◌, ◌-◌, ◌≤◌, length, not, position};
ghost use Rattle.std.specs.Char.{is_ascii_alphabetic};
ghost use Rattle.std.specs.List.{list_all, slice_index, suffix_len};
ghost use Rattle.host_script.specs.Words.{is_blank, skip_blanks, word, word_count, after_word, is_name, is_name_byte, ends_after, before_last_word, last_word};

// A space or a tab.
pub(crate) fn is_blank(byte: u8) -> bool
    ensures { result ≡ is_blank byte }
{
    byte == b' ' || byte == b'\t'
}

// Where the first byte is that is no blank.
fn first_text(line: &[u8]) -> Option<usize>
    ensures { result ≡ position (λ byte. not (is_blank byte)) line.now }
{
    line.iter().position(|byte| !is_blank(*byte))
}

// Where the first blank is.
fn first_blank(line: &[u8]) -> Option<usize>
    ensures { result ≡ position is_blank line.now }
{
    line.iter().position(|byte| is_blank(*byte))
}

// The line without the blanks at its front.
#[tactic(auto, using(crate::proofs::Places::place_or_end, crate::proofs::Places::place_within))]
pub(crate) fn skip_blanks(line: &[u8]) -> &[u8]
    ensures { result.now ≡ skip_blanks line.now }
{
    let start = first_text(line).unwrap_or(line.len());
    &line[start..]
}

// The first word, empty where there is none, and what stands behind it.
#[tactic(auto, using(crate::proofs::Places::place_or_end, crate::proofs::Places::place_within))]
pub(crate) fn next_word(line: &[u8]) -> (&[u8], &[u8])
    ensures word { result.0.now ≡ word 0 line.now }
    ensures rest { result.1.now ≡ after_word line.now }
{
    let rest = skip_blanks(line);
    let end = first_blank(rest).unwrap_or(rest.len());
    rest.split_at(end)
}

// No word is left.
pub(crate) fn is_end(line: &[u8]) -> bool
    ensures { result ≡ ends_after 0 line.now }
{
    skip_blanks(line).is_empty()
}

fn is_name_byte(byte: u8) -> bool
    ensures { result ≡ is_name_byte byte }
{
    byte.is_ascii_alphanumeric() || byte == b'_'
}

// Whether the first byte is an ASCII letter.
fn begins_with_letter(word: &[u8]) -> bool
    ensures { result ≡ is_ascii_alphabetic (slice_index word.now 0) }
{
    match word.first() {
        Some(first) => first.is_ascii_alphabetic(),
        None => false,
    }
}

fn are_name_bytes(word: &[u8]) -> bool
    ensures { result ≡ list_all is_name_byte word.now }
{
    word.iter().all(|byte| is_name_byte(*byte))
}

// A name begins with a letter, and has at most 32 letters, digits and underscores.
pub(crate) fn is_name(word: &[u8]) -> bool
    ensures { result ≡ is_name word.now }
{
    word.len() <= 32 && begins_with_letter(word) && are_name_bytes(word)
}

// The first words of a line, each empty where there is none, and how many words there are.
#[derive(Clone, Copy)]
pub(crate) struct Words<'a> {
    pub(crate) first: &'a [u8],
    pub(crate) second: &'a [u8],
    pub(crate) third: &'a [u8],
    // No more than four are counted.
    pub(crate) count: u32,
}

// The words of what stands behind a command.
pub(crate) fn words_of(line: &[u8]) -> Words<'_>
    ensures first { result.first.now ≡ word 0 line.now }
    ensures second { result.second.now ≡ word 1 line.now }
    ensures third { result.third.now ≡ word 2 line.now }
    ensures count { result.count ≡ word_count line.now }
{
    let (first, behind_one) = next_word(line);
    let (second, behind_two) = next_word(behind_one);
    let (third, behind_three) = next_word(behind_two);
    let count = if is_end(line) {
        0
    } else if is_end(behind_one) {
        1
    } else if is_end(behind_two) {
        2
    } else if is_end(behind_three) {
        3
    } else {
        4
    };
    Words {
        first,
        second,
        third,
        count,
    }
}

// What stands before the last word and the blank in front of it, and the last word.
pub(crate) fn split_last_word(line: &[u8]) -> (&[u8], &[u8])
    ensures front { result.0.now ≡ before_last_word line.now }
    ensures word { result.1.now ≡ last_word line.now }
{
    let end = text_end(line);
    let line = &line[..end];
    let start = word_start(line);
    if start == 0 {
        return (&[], line);
    }
    (&line[..start - 1], &line[start..])
}

// The place behind the last byte that is no blank.
fn text_end(line: &[u8]) -> usize
    ensures end { result ≡ length line.now - suffix_len is_blank line.now }
    ensures within { result ≤ length line.now }
{
    let mut end = line.len();
    while end > 0 && is_blank(line[end - 1]) {
        end -= 1;
    }
    end
}

// The place behind the last blank.
fn word_start(line: &[u8]) -> usize
    ensures start { result ≡ length line.now - suffix_len (λ byte. not (is_blank byte)) line.now }
    ensures within { result ≤ length line.now }
{
    let mut start = line.len();
    while start > 0 && !is_blank(line[start - 1]) {
        start -= 1;
    }
    start
}
