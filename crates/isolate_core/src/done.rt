//! What came of a task.
ghost use Rattle.std.specs.Prelude.{◌≡◌, ◌≢◌, IfOk, Some};
ghost use Rattle.isolate_meaning.specs.State.{AreClosed, HeapIsClosed};
ghost use Rattle.isolate_core.specs.Contents.{contents_of};
ghost use Rattle.isolate_core.specs.Done.{done_of, refused_done};
ghost use Rattle.charged_heap.specs.Ends.{IsSoundFail};

use crate::contents::Contents;
use crate::values::thrown;
use charged_heap::Fail;
use ivm_text::{NoMemory, Overrun};
use std::alloc::Global;
use task_history::Outcome;

/// What came of a task on a live isolate.
#[derive(Drop)]
pub(crate) enum Done {
    /// The isolate lives on.
    Lives {
        contents: Contents,
        outcome: Outcome,
        ticks: u32,
    },
    /// The cells asked would have passed the limit, which ends the isolate; so many were charged then.
    Over {
        overrun: Overrun,
        ticks: u32,
        cells: u32,
    },
}

/// What comes of a task whose call over the heap gave nothing, before a tick was taken: a charge above the limit
/// ends the isolate, and what is thrown is told.
pub(crate) fn refused(alloc: Global, contents: Contents, fail: Fail) -> Result<Done, NoMemory>
    requires closed { AreClosed (contents_of contents) }
    requires thrown { IsSoundFail contents.heap fail }

    ensures done { IfOk result (λ done. refused_done (contents_of contents) fail ≡ Some (done_of done)) }
    ensures found { IfOk result (λ _. fail ≢ Fail.NoMemory) }
    ensures closed { IfOk result (λ done. HeapIsClosed (done_of done).state) }
{
    match fail {
        Fail::Throw(value) => {
            let outcome = thrown(alloc, &contents.heap, value)?;
            Ok(Done::Lives {
                contents,
                outcome,
                ticks: 0,
            })
        }
        Fail::Over(overrun) => Ok(Done::Over {
            overrun,
            ticks: 0,
            cells: contents.heap.charged(),
        }),
        Fail::NoMemory => Err(NoMemory),
    }
}
