//! The entry that a task leaves.
ghost use Rattle.std.specs.Prelude.{◌≡◌, IfOk};
ghost use Rattle.isolate_meaning.specs.Does.{entry_of};

use ivm_text::{CloneWhole, Items, NoMemory};
use std::alloc::Global;
use task_history::{Entry, Out, Outcome, Shared, Task};

/// The entry of a task with this outcome, its ticks and the cells that are charged: its one out is the reply.
pub(crate) fn entry_of(
    alloc: Global,
    task: Task,
    outcome: Outcome,
    ticks: u32,
    cells: u32,
) -> Result<Entry, NoMemory>
    ensures { IfOk result (λ entry. entry ≡ entry_of task outcome ticks cells) }
{
    let outcome = Shared::new(alloc, outcome)?;
    let reply = Out::Reply {
        call: task.call,
        outcome: outcome.clone_whole(alloc)?,
    };
    let mut outs = Items::new(alloc);
    outs.push(reply)?;
    Ok(Entry {
        task: Some(task),
        outcome,
        ticks,
        cells,
        outs,
    })
}
