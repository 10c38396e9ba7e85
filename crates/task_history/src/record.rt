//! What is kept of a run: the host's history and each isolate's journal.
ghost use Rattle.std.specs.Prelude.{◌≡◌, []};

use crate::{Out, Outcome, Outs, Own, Shared, Task};
use ivm_text::{CloneWhole, Items};
use std::alloc::{AllocError, Global};

/// One entry of a journal: a task, what came of it, and all that it sent out. An entry without a task is
/// a stop by the host. It holds a disposal where its outcome is `MemoryLimit` or `Disposed`.
#[derive(Debug, Drop)]
pub struct Entry {
    pub task: Option<Task>,
    pub outcome: Shared<Outcome>,
    /// The ticks that it took.
    pub ticks: u32,
    /// The cells that are charged after it.
    pub cells: u32,
    pub outs: Outs,
}

/// An isolate's entries, the first first.
pub type Journal = Items<Entry>;

/// The journals of a run, one an isolate, in the order of the isolates' numbers.
pub type Journals = Items<Journal>;

/// How a call was settled.
#[derive(Debug, Clone, Copy, PartialEq, Eq)]
pub enum Settlement {
    /// By the entry at a place of an isolate's journal.
    Entry { isolate: u32, place: u32 },
    /// By the host itself.
    Own(Own),
}

/// What the host did or received.
#[derive(Debug, Drop)]
pub enum Event {
    /// A task was posted to an isolate.
    Post { isolate: u32, task: Task },
    /// An out of an isolate was received.
    Recv { isolate: u32, out: Out },
    /// An isolate was asked to stop.
    Ask { isolate: u32 },
    /// The call released what its label held.
    Release { call: u32 },
    /// A call was settled.
    Settle { call: u32, how: Settlement },
}

/// The host's events, the first first.
pub type History = Items<Event>;

/// The record of one run.
#[derive(Debug, Drop)]
pub struct Record {
    pub host: History,
    pub isolates: Journals,
}

impl Record {
    ghost use Rattle.task_history.specs.Lists.{empty_record};

    /// The record of no run.
    pub fn empty(alloc: Global) -> Record
        ensures { result ≡ empty_record }
    {
        Record {
            host: Items::new(alloc),
            isolates: Items::new(alloc),
        }
    }
}

impl CloneWhole for Entry {
    fn clone_whole(&self, alloc: Global) -> Result<Entry, AllocError> {
        let task = match &self.task {
            Some(task) => Some(task.clone_whole(alloc)?),
            None => None,
        };
        let outcome = self.outcome.clone_whole(alloc)?;
        Ok(Entry {
            task,
            outcome,
            ticks: self.ticks,
            cells: self.cells,
            outs: self.outs.clone_whole(alloc)?,
        })
    }
}
