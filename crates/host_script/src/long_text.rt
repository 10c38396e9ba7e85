//! A text on the lines after its command.
ghost use Rattle.std.specs.Prelude.{◌≡◌, ◌+◌, ◌-◌, ◌≤◌, length, Some, None, IfOk, OnOk, if◌then◌else◌};
ghost use Rattle.std.specs.Option.{option_or};
ghost use Rattle.std.specs.Str.{is_utf8};
ghost use Rattle.host_script.specs.Words.{lines_of};
ghost use Rattle.host_script.specs.Texts.{long_text};
ghost use Rattle.host_script.specs.Faults.{Gives};
ghost use Rattle.host_script.specs.Steps.{kept, Goes};

use crate::fault::at;
use crate::lines::Lines;
use crate::text::{MOST_TEXT, Text, is_utf8};
use crate::{HostFault, HostKind};
use ivm_text::Items;
use std::alloc::{AllocError, Global};

// The number of the first line that isn't UTF-8: the one found before, else this one.
fn first_bad(found: Option<u32>, line: &[u8], number: u32) -> Option<u32>
    ensures { result ≡ option_or found (if is_utf8 line.now then None else Some number) }
{
    if found.is_some() || is_utf8(line) {
        return found;
    }
    Some(number)
}

// Appends a line, behind an LF where it isn't the first. A text that is too long already grows no more.
fn keep_line(text: &mut Vec<u8>, line: &[u8], is_first: bool) -> Result<(), AllocError>
    ensures { IfOk result (λ _. text.new.items ≡ kept is_first text.old.items line.now) }
{
    if text.len() > MOST_TEXT {
        return Ok(());
    }
    if !is_first {
        text.push(b'\n')?;
    }
    text.extend_from_slice(line)
}

// The text up to the line that is the word, its lines joined by LF. Once it is too long, only its end is looked for.
pub(crate) fn long_text(
    alloc: Global,
    word: &[u8],
    lines: &mut Lines<'_>,
) -> Result<Text, HostFault>
    requires { lines.old.number + length lines.old.rest.now ≤ 4194304 }

    ensures gives { Gives (λ text. (text, lines.new.number - lines.old.number)) result
        (long_text lines.old.number word.now (lines_of lines.old.rest.now)) }
    ensures goes { OnOk result (Goes lines.old.number lines.old.rest.now lines.new.number lines.new.rest.now) }
{
    let command = lines.number;
    let mut text = Vec::new(alloc);
    let mut bad = None;
    while let Some(line) = lines.next() {
        if line == word {
            if text.len() > MOST_TEXT {
                return Err(at(command, HostKind::TooLong));
            }
            return Ok(Text::Given {
                text: Items::from_vec(text),
                bad,
            });
        }
        keep_line(&mut text, line, lines.number == command + 1)?;
        bad = first_bad(bad, line, lines.number);
    }
    Ok(Text::Open)
}
