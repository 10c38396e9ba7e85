//! What a record tells of each call, looked up by number.
ghost use Rattle.std.specs.Prelude.{◌≡◌, ℕ, ◌<◌, length, IfOk, OnOk, None, slice_index_or, slice_set, map, if◌then◌else◌, nat_lt};
ghost use Rattle.std.specs.Option.{option_copied, option_or};
ghost use Rattle.host_meaning.specs.Settlement.{settlement_in, settlement_of};
ghost use Rattle.task_history.specs.Lists.{is_disposal};
ghost use Rattle.ivm_report.specs.Report.{first_disposal};

use ivm_text::NoMemory;
use std::alloc::Global;
use task_history::{Entry, Event, Journal, Outcome, Settlement};

/// The settlements of the first calls of a history.
pub(crate) fn settlements(
    alloc: Global,
    count: usize,
    history: &[Event],
) -> Result<Vec<Option<Settlement>>, NoMemory>
    ensures long { IfOk result (λ table. length table.items ≡ count) }
    ensures told { IfOk result (λ table. (n : ℕ) → n < count → slice_index_or table.items n None ≡ settlement_of n history.now) }
{
    let mut table = vec![in alloc; None; count]?;
    for event in history {
        note(&mut table, event);
    }
    Ok(table)
}

// Notes the settlement that an event says, where none was noted for its call.
fn note(table: &mut Vec<Option<Settlement>>, event: &Event)
    ensures long { length table.new.items ≡ length table.old.items }
    ensures noted { (n : ℕ) → n < length table.old.items → slice_index_or table.new.items n None ≡ option_or (slice_index_or table.old.items n None) (settlement_in n event.now) }
{
    if let Event::Settle { call, how } = event {
        let place = *call as usize;
        if place < table.len() && table[place].is_none() {
            table[place] = Some(*how);
        }
    }
}

/// The place of each journal's first disposal.
pub(crate) fn first_disposals(
    alloc: Global,
    journals: &[Journal],
) -> Result<Vec<Option<usize>>, NoMemory>
    ensures { IfOk result (λ firsts. firsts.items ≡ map first_disposal journals.now) }
{
    let mut firsts = Vec::new(alloc);
    for journal in journals {
        firsts.push(first_disposal(journal.as_slice()))?;
    }
    Ok(firsts)
}

fn first_disposal(journal: &[Entry]) -> Option<usize>
    ensures { result ≡ first_disposal journal.now }
{
    journal.iter().position(|entry| is_disposal(&entry.outcome))
}

fn is_disposal(outcome: &Outcome) -> bool
    ensures { result ≡ is_disposal outcome.now }
{
    matches!(outcome, Outcome::MemoryLimit(_) | Outcome::Disposed(_))
}
