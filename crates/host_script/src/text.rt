//! The text at the end of a command, and the words in front of it.
ghost use Rattle.std.specs.Prelude.{◌≡◌, ◌+◌, ◌-◌, ◌≤◌, false, length, drop, None, Some, OnOk, MatchOption};
ghost use Rattle.std.specs.Str.{is_utf8};
ghost use Rattle.host_script.specs.Words.{lines_of};
ghost use Rattle.host_script.specs.Texts.{begins_text, text_place, text_here, end_word, text_of};
ghost use Rattle.host_script.specs.Faults.{Gives};
ghost use Rattle.host_script.specs.Steps.{Goes};

use crate::fault::at;
use crate::lines::Lines;
use crate::long_text::long_text;
use crate::words::{is_blank, split_last_word};
use crate::{HostFault, HostKind};
use ivm_text::{Bytes, Items};
use std::alloc::Global;

pub(crate) const MOST_TEXT: usize = 65_536;

// What a command has at its end.
#[derive(Debug, Drop)]
pub(crate) enum Text {
    Missing,
    // No later line ends it.
    Open,
    // With the number of its first line that isn't UTF-8.
    Given { text: Bytes, bad: Option<u32> },
}

// Whether bytes are UTF-8.
#[tactic(auto, using(crate::proofs::NameLemmas::utf8_yes, crate::proofs::NameLemmas::utf8_no))]
pub(crate) fn is_utf8(bytes: &[u8]) -> bool
    ensures { result ≡ is_utf8 bytes.now }
{
    match std::str::from_utf8(bytes) {
        Ok(_) => true,
        Err(_) => false,
    }
}

// A `:` that one space or the line's end follows.
fn begins_text(bytes: &[u8]) -> bool
    ensures { result ≡ begins_text bytes.now }
{
    bytes == b":".as_slice() || bytes.starts_with(b": ")
}

// The place of the word `:` that begins a text, else the length.
fn text_place(rest: &[u8]) -> usize
    ensures place { result ≡ text_place false rest.now }
    ensures within { result ≤ length rest.now }
{
    let mut behind_blank = false;
    for place in 0..rest.len() {
        if behind_blank && begins_text(&rest[place..]) {
            return place;
        }
        behind_blank = is_blank(rest[place]);
    }
    rest.len()
}

// The bytes without the first two.
fn without_two(bytes: &[u8]) -> &[u8]
    ensures { result.now ≡ drop 2 bytes.now }
{
    if bytes.len() < 2 {
        return &[];
    }
    &bytes[2..]
}

// The words before a text on the line, and the text.
fn text_here(rest: &[u8]) -> Option<(&[u8], &[u8])>
    ensures { MatchOption result (text_here rest.now ≡ None) (λ here. text_here rest.now ≡ Some (here.0.now, here.1.now)) }
{
    let place = text_place(rest);
    if place == rest.len() {
        return None;
    }
    let (words, text) = rest.split_at(place);
    Some((words, without_two(text)))
}

// The words before `<<W` at the line's end, and the W.
fn end_word(rest: &[u8]) -> Option<(&[u8], &[u8])>
    ensures { MatchOption result (end_word rest.now ≡ None) (λ front. end_word rest.now ≡ Some (front.0.now, front.1.now)) }
{
    let (words, last) = split_last_word(rest);
    if !last.starts_with(b"<<") || last.len() <= 2 {
        return None;
    }
    Some((words, &last[2..]))
}

// The words behind a command, and its text. Of the lines after it, those of the text are read.
pub(crate) fn read_text<'a>(
    alloc: Global,
    can_have: bool,
    rest: &'a [u8],
    lines: &mut Lines<'_>,
) -> Result<(&'a [u8], Text), HostFault>
    requires { lines.old.number + length lines.old.rest.now ≤ 4194304 }

    ensures gives { Gives (λ parts. (parts.0.now, parts.1, lines.new.number - lines.old.number)) result
        (text_of can_have lines.old.number rest.now (lines_of lines.old.rest.now)) }
    ensures goes { OnOk result (Goes lines.old.number lines.old.rest.now lines.new.number lines.new.rest.now) }
{
    if let Some((words, text)) = text_here(rest) {
        if text.len() > MOST_TEXT {
            return Err(at(lines.number, HostKind::TooLong));
        }
        let text = Items::from_vec(text.to_vec(alloc)?);
        return Ok((words, Text::Given { text, bad: None }));
    }
    if can_have {
        if let Some((words, word)) = end_word(rest) {
            let text = long_text(alloc, word, lines)?;
            return Ok((words, text));
        }
    }
    Ok((rest, Text::Missing))
}
