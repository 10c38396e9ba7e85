//! The report of a record.
ghost use Rattle.std.specs.Prelude.{◌≡◌, ℕ, ◌++◌, ◌<◌, ◌+◌, ◌≤◌, codes, length, IfOk, OnOk};
ghost use Rattle.ivm_report.specs.Report.{call_text, calls_in, command_text, entry_text, is_at, lines_of, report_of, unsettled_text, want_of};
ghost use Rattle.ivm_report.specs.Tables.{AreTables};
ghost use Rattle.task_history.specs.Lists.{journal_at};

use crate::outcomes::{own_text, push_outcome, push_units};
use crate::settlements::{first_disposals, settlements};
use host_syntax::{Command, HostScript, What};
use ivm_text::{NoMemory, Want};
use std::alloc::Global;
use task_history::{Record, Settlement};

/// The numbers that calls may draw.
const MOST_CALLS: usize = 100_000;

// A record, with what is looked up in it for each line.
#[derive(Drop)]
struct Ledger<'a> {
    kept: &'a Record,
    settlements: Vec<Option<Settlement>>,
    first_disposals: Vec<Option<usize>>,
}

/// The report of a record of a script: one line for each call, in the order of the script.
///
/// A call that drew no number is told as `too many calls`, one that was settled by an entry by that entry's
/// outcome, one that the host settled itself by its cause, a disposal that was done as `done`, and any other
/// call, which no run leaves without a settlement, as `not settled`.
/// Only want of memory refuses it.
pub fn report(alloc: Global, script: &HostScript, kept: &Record) -> Result<Vec<u8>, NoMemory>
    ensures { IfOk result (λ text. text.items ≡ report_of script.now kept.now) }
{
    let commands = script.commands.as_slice();
    let ledger = Ledger {
        kept,
        settlements: settlements(alloc, commands.len(), kept.host.as_slice())?,
        first_disposals: first_disposals(alloc, kept.isolates.as_slice())?,
    };
    all_lines(alloc, commands, &ledger)
}

fn all_lines(alloc: Global, commands: &[Command], ledger: &Ledger) -> Result<Vec<u8>, NoMemory>
    requires { AreTables ledger.now.kept.now (length commands.now) ledger.now.settlements.items ledger.now.first_disposals.items }
    ensures { IfOk result (λ text. text.items ≡ lines_of ledger.now.kept.now 0 commands.now) }
{
    let mut text = Vec::new(alloc);
    let mut calls = 0;
    for command in commands {
        calls = push_command(alloc, &mut text, command, calls, ledger)?;
    }
    Ok(text)
}

// Appends the line of a command that comes after so many calls, and gives the calls after it.
fn push_command(
    alloc: Global,
    text: &mut Vec<u8>,
    command: &Command,
    calls: usize,
    ledger: &Ledger,
) -> Result<usize, NoMemory>
    requires tables { (count : ℕ) × (calls < count) × AreTables ledger.now.kept.now count ledger.now.settlements.items ledger.now.first_disposals.items }
    ensures line { OnOk result (text.new.items ≡ text.old.items ++ command_text ledger.now.kept.now calls command.now.what command.now.label) }
    ensures calls { IfOk result (λ next. next ≡ calls + calls_in command.now.label) }
{
    let Some(label) = &command.label else {
        return Ok(calls);
    };
    push_units(alloc, text, label)?;
    text.extend_from_slice(b": ")?;
    push_call(alloc, text, &command.what, calls, ledger)?;
    text.push(b'\n')?;
    Ok(calls + 1)
}

// Appends what is said of the call with a number.
fn push_call(
    alloc: Global,
    text: &mut Vec<u8>,
    what: &What,
    number: usize,
    ledger: &Ledger,
) -> Result<(), NoMemory>
    requires tables { (count : ℕ) × (number < count) × AreTables ledger.now.kept.now count ledger.now.settlements.items ledger.now.first_disposals.items }
    ensures { OnOk result (text.new.items ≡ text.old.items ++ call_text ledger.now.kept.now what.now number) }
{
    if number >= MOST_CALLS {
        text.extend_from_slice(b"too many calls")?;
        return Ok(());
    }
    match ledger.settlements[number] {
        None => text.extend_from_slice(unsettled_text(what).as_bytes())?,
        Some(Settlement::Own(own)) => text.extend_from_slice(own_text(own).as_bytes())?,
        Some(Settlement::Entry { isolate, place }) => {
            push_entry(alloc, text, want_of(what), isolate, place, ledger)?
        }
    }
    Ok(())
}

// Appends what an entry of an isolate's journal says of its call.
fn push_entry(
    alloc: Global,
    text: &mut Vec<u8>,
    want: Want,
    isolate: u32,
    place: u32,
    ledger: &Ledger,
) -> Result<(), NoMemory>
    requires tables { (count : ℕ) × AreTables ledger.now.kept.now count ledger.now.settlements.items ledger.now.first_disposals.items }
    ensures { OnOk result (text.new.items ≡ text.old.items ++ entry_text want (journal_at ledger.now.kept.now.isolates isolate) place) }
{
    let Some(journal) = ledger.kept.isolates.get(isolate) else {
        return push_absent(text);
    };
    let Some(entry) = journal.get(place) else {
        return push_absent(text);
    };
    let first = is_at(place as usize, ledger.first_disposals[isolate as usize]);
    push_outcome(alloc, text, want, first, entry.ticks, &entry.outcome)
}

// Appends what is said where the entry isn't there.
fn push_absent(text: &mut Vec<u8>) -> Result<(), NoMemory>
    ensures { OnOk result (text.new.items ≡ text.old.items ++ codes "no entry") }
{
    text.extend_from_slice(b"no entry")?;
    Ok(())
}

fn is_at(place: usize, found: Option<usize>) -> bool
    ensures { result ≡ is_at place found }
{
    match found {
        Some(n) => n == place,
        None => false,
    }
}

// What is said of a call that no settlement was noted for.
fn unsettled_text(what: &What) -> &'static str
    ensures { result.now ≡ unsettled_text what.now }
{
    match what {
        What::Dispose { .. } => "done",
        What::Declare
        | What::Context { .. }
        | What::Eval { .. }
        | What::Get { .. }
        | What::Set { .. }
        | What::Wait { .. } => "not settled",
    }
}

fn want_of(what: &What) -> Want
    ensures { result ≡ want_of what.now }
{
    match what {
        What::Eval { want, .. } | What::Get { want, .. } => *want,
        _ => Want::Value,
    }
}
