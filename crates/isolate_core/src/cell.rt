//! A cell: an isolate's state and the journal that gives it again.

ghost use Rattle.std.specs.Prelude.{◌≡◌, ◌↔◌, None, IfOk, IsErr, IsTrue, OnOk, OnErr};
ghost use Rattle.isolate_meaning.specs.Replay.{charged, fresh_cell, has_ended, stopped, void, IsKept, MayPerform, Performs};
ghost use Rattle.isolate_core.specs.Only.{IsOnlyPerformance};

use crate::contents::Contents;
use crate::fits::fits;
use crate::ledger::Ledger;
use crate::life::{Life, carry_out};
use ivm_text::NoMemory;
use js_scripts::texts_are_read_once;
use std::alloc::Global;
use std::marker::Model;
use std::mem;
use task_history::{By, Entry, Journal, Task};

/// One isolate with its journal (isolated-vm: `Isolate`). It is void, without a state, once a task was given up
/// for want of memory.
#[derive(Drop)]
pub struct Cell {
    isolate: u32,
    limit: u32,
    ledger: Ledger,
    life: Life,
    alloc: Global,
}

impl Model for Cell {
    ghost use Rattle.isolate_meaning.specs.Replay.{Kept};
    ghost use Rattle.isolate_core.specs.Cell.{kept_in, IsWhole};

    ghost Value = { Kept };

    ghost view = { λ c. kept_in c.isolate c.limit c.ledger c.life };

    ghost invariant = { λ c. IsWhole c.isolate c.limit c.ledger c.life };
}

impl Cell {
    /// A fresh cell: live, without contexts, with an empty journal, and not void. All that a stop needs is
    /// reserved. `limit` is the most cells that may be charged. It is refused for want of memory alone.
    pub fn new(alloc: Global, isolate: u32, limit: u32) -> Result<Cell, NoMemory>
        ensures { IfOk result (λ cell. cell ≡ fresh_cell isolate limit) }
    {
        Ok(Cell {
            isolate,
            limit,
            ledger: Ledger::new(alloc)?,
            life: Life::Live(Contents::new(alloc, limit)),
            alloc,
        })
    }

    /// Whether a task may be performed: its values are whole, and the context or the row that it names is there. An
    /// isolate that has ended takes any, and so does a void cell.
    pub fn may_perform(&self, task: &Task) -> bool
        ensures { IsTrue result ↔ MayPerform self.now task.now }
    {
        fits(&self.life, task)
    }

    /// Performs one task and appends its one entry, with the ticks that it took and the cells that are charged after it:
    /// on a live isolate what the task asks for, and on one that has ended `Disposed` with the cause of its end. A task
    /// whose next charge would pass the limit is told so and ends the isolate, whose items are gone. After `NoMemory` the
    /// cell is void: its journal stays, its state is gone, and each later task is refused so.
    pub fn perform(&mut self, task: Task) -> Result<(), NoMemory>
        requires { MayPerform self.old task }

        ensures ok { OnOk result (Performs task self.old self.new) }
        ensures only { OnOk result (IsOnlyPerformance task self.old self.new) }
        ensures err { OnErr result (self.new ≡ void self.old) }

        ensures void { self.old.state ≡ None → IsErr result }
    {
        // So what the task does is one thing.
        texts_are_read_once();
        let life = mem::replace(&mut self.life, Life::Void);
        let (life, entry) = carry_out(self.alloc, life, task)?;
        self.ledger.push(entry)?;
        self.life = life;
        Ok(())
    }

    /// Stops a live isolate for the host (isolated-vm: `isolate.dispose`): it has ended, with one more entry that tells
    /// the cells that were charged. An isolate that has ended, and a void cell, stay as they are. It takes no memory.
    pub fn dispose(&mut self)
        ensures { self.new ≡ stopped self.old }
    {
        if let Life::Live(contents) = &self.life {
            let cells = contents.heap.charged();
            self.ledger.close(cells);
            self.life = Life::Ended(By::Host);
        }
    }

    /// The entries so far. Carried out again they give the state.
    pub fn journal(&self) -> &[Entry]
        ensures value { result.now ≡ self.now.journal }
        ensures kept { IsKept self.now }
    {
        self.ledger.entries()
    }

    /// Whether the isolate has ended. A void cell has no state that has.
    pub fn is_ended(&self) -> bool
        ensures { result ≡ has_ended self.now.state }
    {
        matches!(self.life, Life::Ended(_))
    }

    /// The cells that are charged. None are where the isolate has ended or the cell is void.
    pub fn charged(&self) -> u32
        ensures { result ≡ charged self.now.state }
    {
        match &self.life {
            Life::Live(contents) => contents.heap.charged(),
            Life::Ended(_) | Life::Void => 0,
        }
    }

    /// The journal of a cell that is done with.
    pub fn into_journal(self) -> Journal
        ensures value { result ≡ self.journal }
        ensures kept { IsKept self }
    {
        let Cell { ledger, .. } = self;
        ledger.into_journal()
    }
}
