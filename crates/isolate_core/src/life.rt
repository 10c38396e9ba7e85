//! The state of an isolate, and what a task does to it.
ghost use Rattle.std.specs.Prelude.{◌≡◌, Some, IfOk};
ghost use Rattle.isolate_meaning.specs.Does.{entry_of};
ghost use Rattle.isolate_meaning.specs.Replay.{FitsUnlessVoid};
ghost use Rattle.isolate_core.specs.Done.{done_of};
ghost use Rattle.isolate_core.specs.Life.{state_of, CarriesOut, IsClosedLife};

use crate::act::act;
use crate::contents::Contents;
use crate::done::Done;
use crate::entry::entry_of;
use ivm_text::NoMemory;
use std::alloc::Global;
use task_history::{By, Entry, Outcome, Task};

/// The state that a cell holds.
#[derive(Drop)]
pub(crate) enum Life {
    /// What a live isolate holds.
    Live(Contents),
    /// The isolate has ended.
    Ended(By),
    /// None: a task was given up for want of memory.
    Void,
}

/// The state after a task of a live isolate, and the task's entry. At the limit in cells the isolate has ended.
fn told(alloc: Global, task: Task, done: Done) -> Result<(Life, Entry), NoMemory>
    ensures state { IfOk result (λ end. state_of end.0 ≡ Some (done_of done).state) }
    ensures entry { IfOk result (λ end. end.1 ≡ entry_of task (done_of done).out (done_of done).ticks (done_of done).cells) }
{
    match done {
        Done::Lives {
            contents,
            outcome,
            ticks,
        } => {
            let cells = contents.heap.charged();
            let entry = entry_of(alloc, task, outcome, ticks, cells)?;
            Ok((Life::Live(contents), entry))
        }
        Done::Over {
            overrun,
            ticks,
            cells,
        } => {
            let outcome = Outcome::MemoryLimit(overrun);
            let entry = entry_of(alloc, task, outcome, ticks, cells)?;
            Ok((Life::Ended(By::Memory), entry))
        }
    }
}

/// Carries a task out, and gives the state after it with the task's entry. A live isolate does what the task
/// asks for, within the task's ticks; one that has ended refuses it, with the cause of its end; a void cell finds no memory.
pub(crate) fn carry_out(alloc: Global, life: Life, task: Task) -> Result<(Life, Entry), NoMemory>
    requires fits { FitsUnlessVoid (state_of life) task }
    requires closed { IsClosedLife (state_of life) }

    ensures { IfOk result (λ done. CarriesOut task life done.0 done.1) }
{
    match life {
        Life::Live(contents) => {
            let done = act(alloc, contents, task.budget, &task.kind)?;
            told(alloc, task, done)
        }
        Life::Ended(by) => {
            let entry = entry_of(alloc, task, Outcome::Disposed(by), 0, 0)?;
            Ok((Life::Ended(by), entry))
        }
        Life::Void => Err(NoMemory),
    }
}
