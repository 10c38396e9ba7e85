//! The journal of a cell.

ghost use Rattle.std.specs.Prelude.{◌≡◌, true, [], ◌∷◌, ◌++◌, IfOk, OnOk, OnErr};
ghost use Rattle.isolate_meaning.specs.Does.{stop_entry};
ghost use Rattle.isolate_core.specs.Written.{closed};

use ivm_text::{CloneWhole, Items, NoMemory};
use std::alloc::Global;
use std::marker::Model;
use task_history::{By, Entry, Journal, Out, Outcome, Shared};

/// The entries of a cell, fewer than 2^32, with all that a stop by the host needs kept ready: its entry and a
/// place for it. So the stop takes no memory.
#[derive(Drop)]
pub(crate) struct Ledger {
    entries: Vec<Entry>,
    stop: Option<Entry>,
}

impl Model for Ledger {
    ghost use Rattle.std.specs.Prelude.{is_some};
    ghost use Rattle.std.specs.Vec.{vec_len, vec_capacity};
    ghost use Rattle.isolate_core.specs.Written.{Written, IsReady};

    ghost Value = { Written };

    ghost view = { λ l. record { entries = l.entries.items; is_open = is_some l.stop } };

    ghost invariant = { λ l. IsReady (vec_len l.entries) (vec_capacity l.entries) l.stop };
}

impl Ledger {
    /// No entries yet, and room for a stop.
    pub(crate) fn new(alloc: Global) -> Result<Ledger, NoMemory>
        ensures { IfOk result (λ ledger. ledger ≡ record { entries = []; is_open = true }) }
    {
        let stop = stop_entry(alloc)?;
        let entries = Vec::with_capacity(alloc, 1)?;
        Ok(Ledger {
            entries,
            stop: Some(stop),
        })
    }

    /// Adds an entry, and keeps a place after it free for a stop. It is refused for want of memory, and where
    /// that place would be the last but one of 2^32. Then nothing has changed.
    pub(crate) fn push(&mut self, entry: Entry) -> Result<(), NoMemory>
        ensures ok { OnOk result (self.new ≡ record self.old { entries = self.old.entries ++ entry ∷ [] }) }
        ensures err { OnErr result (self.new ≡ self.old) }
    {
        if self.entries.len() >= u32::MAX as usize - 1 {
            return Err(NoMemory);
        }
        self.entries.reserve(2)?;
        self.entries.push(entry)?;
        Ok(())
    }

    /// Writes the stop with the cells that are charged, if it isn't written yet. It takes no memory.
    pub(crate) fn close(&mut self, cells: u32)
        ensures { self.new ≡ closed cells self.old }
    {
        if let Some(mut stop) = self.stop.take() {
            stop.cells = cells;
            let _ = self.entries.push(stop);
        }
    }

    /// The entries, in order.
    pub(crate) fn entries(&self) -> &[Entry]
        ensures { result.now ≡ self.now.entries }
    {
        self.entries.as_slice()
    }

    /// The entries of a ledger that is done with.
    pub(crate) fn into_journal(self) -> Journal
        ensures { result ≡ self.entries }
    {
        let Ledger { entries, stop: _ } = self;
        Items::from_vec(entries)
    }
}

/// The entry of a stop, without its cells.
fn stop_entry(alloc: Global) -> Result<Entry, NoMemory>
    ensures { IfOk result (λ entry. entry ≡ stop_entry 0) }
{
    let mut outs = Items::new(alloc);
    let outcome = Shared::new(alloc, Outcome::Disposed(By::Host))?;
    outs.push(Out::Reply {
        call: None,
        outcome: outcome.clone_whole(alloc)?,
    })?;
    Ok(Entry {
        task: None,
        outcome,
        ticks: 0,
        cells: 0,
        outs,
    })
}
