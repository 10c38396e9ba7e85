//! What one task does to the contents of a live isolate.
ghost use Rattle.std.specs.Prelude.{◌<◌, length, IfOk};
ghost use Rattle.isolate_meaning.specs.State.{AreClosed, HeapIsClosed};
ghost use Rattle.isolate_meaning.specs.Fits.{IsSoundAct, IsSoundKind, NamesIn};
ghost use Rattle.isolate_meaning.specs.Does.{Acts, ActsOn};
ghost use Rattle.isolate_core.specs.Contents.{contents_of};
ghost use Rattle.isolate_core.specs.Done.{done_of};

use crate::contents::Contents;
use crate::contexts::make_context;
use crate::done::Done;
use crate::rows::{read_property, write_property};
use crate::texts::run_text;
use crate::values::passed_value;
use ivm_text::NoMemory;
use std::alloc::Global;
use task_history::{Act, TaskKind};

/// Does what a task of this kind does, within so many ticks.
pub(crate) fn act(
    alloc: Global,
    contents: Contents,
    budget: u32,
    kind: &TaskKind,
) -> Result<Done, NoMemory>
    requires closed { AreClosed (contents_of contents) }
    requires sound { IsSoundKind kind.now }
    requires names { NamesIn (contents_of contents) kind.now }

    ensures acts { IfOk result (λ done. Acts budget kind.now (contents_of contents) (done_of done)) }
    ensures closed { IfOk result (λ done. HeapIsClosed (done_of done).state) }
{
    match kind {
        TaskKind::Context => make_context(alloc, contents),
        TaskKind::Eval { context, text, .. } => {
            run_text(alloc, contents, budget, *context, text.as_slice())
        }
        TaskKind::Act { row, act } => act_on(alloc, contents, *row, act),
        TaskKind::Compile(_) | TaskKind::Run { .. } | TaskKind::Resume { .. } => unreachable!(),
    }
}

/// Reads or writes a property of the value of a row.
#[tactic(auto, using(crate::proofs::Growing::passed_sound))]
fn act_on(alloc: Global, contents: Contents, row: u32, act: &Act) -> Result<Done, NoMemory>
    requires closed { AreClosed (contents_of contents) }
    requires sound { IsSoundAct act.now }
    requires there { row < length contents.rows }

    ensures acts { IfOk result (λ done. ActsOn row act.now (contents_of contents) (done_of done)) }
    ensures closed { IfOk result (λ done. HeapIsClosed (done_of done).state) }
{
    match act {
        Act::Get(key, _) => read_property(alloc, contents, row, key),
        Act::Set(key, passed) => {
            let value = passed_value(passed);
            write_property(alloc, contents, row, key, value)
        }
        Act::Apply(..) | Act::CopyOut => unreachable!(),
    }
}
