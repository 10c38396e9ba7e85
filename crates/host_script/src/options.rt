//! The options that may stand behind the names of a command.
ghost use Rattle.std.specs.Prelude.{◌≡◌, ◌≤◌, IfOk};
ghost use Rattle.std.specs.Option.{option_copied};
ghost use Rattle.host_script.specs.Faults.{Gives};
ghost use Rattle.host_script.specs.Options.{given_to, words_with, number_between};

use crate::fault::at;
use crate::literal::number;
use crate::{HostFault, HostKind};

// What a word gives to an option, whose name comes with its `=`.
#[tactic(auto, unfolding(crate::specs::Options::given_to))]
pub(crate) fn given_to<'a>(option: &[u8], word: &'a [u8]) -> Option<&'a [u8]>
    ensures { option_copied result ≡ given_to option.now word.now }
{
    if !word.starts_with(option) {
        return None;
    }
    Some(&word[option.len()..])
}

// The words that are wanted: those that are no options, and the one that gives this.
pub(crate) fn words_with(count: u32, given: Option<&[u8]>) -> u32
    requires { count ≤ 3 }
    ensures { result ≡ words_with count (option_copied given.entry) }
{
    match given {
        Some(_) => count + 1,
        None => count,
    }
}

// The number in a range that the value of an option is.
#[tactic(auto, unfolding(crate::specs::Options::number_between))]
pub(crate) fn number_between(
    least: u32,
    most: u32,
    line: u32,
    value: &[u8],
) -> Result<u32, HostFault>
    ensures gives { Gives (λ n. n) result (number_between least most line value.now) }
    ensures within { IfOk result (λ n. n ≤ most) }
{
    let Some(n) = number(value) else {
        return Err(at(line, HostKind::BadNumber));
    };
    if n < least as u64 || n > most as u64 {
        return Err(at(line, HostKind::BadNumber));
    }
    Ok(n as u32)
}
