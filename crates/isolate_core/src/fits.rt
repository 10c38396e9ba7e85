//! Whether a task may be performed.
ghost use Rattle.std.specs.Prelude.{◌↔◌, IsTrue};
ghost use Rattle.isolate_meaning.specs.Fits.{IsPlainLeaf, IsPrimitive, IsSound, IsSoundAct, IsSoundKind, NamesIn};
ghost use Rattle.isolate_meaning.specs.Replay.{FitsUnlessVoid};
ghost use Rattle.isolate_core.specs.Contents.{contents_of};
ghost use Rattle.isolate_core.specs.Life.{state_of};

use crate::contents::Contents;
use crate::life::Life;
use ivm_text::{Leaf, Passed, Want};
use task_history::{Act, Task, TaskKind};

/// The most ticks that a task may be given.
const MOST_TICKS: u32 = 100_000_000;

/// Whether a task fits. An isolate that has ended refuses any, and so does a void cell.
pub(crate) fn fits(life: &Life, task: &Task) -> bool
    ensures { IsTrue result ↔ FitsUnlessVoid (state_of life.now) task.now }
{
    match life {
        Life::Live(contents) => is_sound(task) && names_in(contents, &task.kind),
        Life::Ended(_) | Life::Void => true,
    }
}

/// Whether the context or the row that a task names is there.
fn names_in(contents: &Contents, kind: &TaskKind) -> bool
    ensures { IsTrue result ↔ NamesIn (contents_of contents.now) kind.now }
{
    match kind {
        TaskKind::Run { context, .. } | TaskKind::Eval { context, .. } => {
            *context < contents.contexts.len()
        }
        TaskKind::Act { row, .. } => *row < contents.rows.len(),
        TaskKind::Context | TaskKind::Compile(_) | TaskKind::Resume { .. } => true,
    }
}

// ---- what the task alone decides

fn is_sound(task: &Task) -> bool
    ensures { IsTrue result ↔ IsSound task.now }
{
    1 <= task.budget && task.budget <= MOST_TICKS && is_sound_kind(&task.kind)
}

fn is_sound_kind(kind: &TaskKind) -> bool
    ensures { IsTrue result ↔ IsSoundKind kind.now }
{
    match kind {
        TaskKind::Context => true,
        TaskKind::Eval { want, .. } => matches!(want, Want::Value),
        TaskKind::Act { act, .. } => is_sound_act(act),
        TaskKind::Compile(_) | TaskKind::Run { .. } | TaskKind::Resume { .. } => false,
    }
}

fn is_sound_act(act: &Act) -> bool
    ensures { IsTrue result ↔ IsSoundAct act.now }
{
    match act {
        Act::Get(_, want) => matches!(want, Want::Value),
        Act::Set(_, value) => is_primitive(value),
        Act::Apply(..) | Act::CopyOut => false,
    }
}

/// Whether a value is no string, array, object or error.
fn is_primitive(value: &Passed) -> bool
    ensures { IsTrue result ↔ IsPrimitive value.now }
{
    match value {
        Passed::Copy(copy) => copy.nodes.len() == 0 && is_plain_leaf(copy.root),
        Passed::External(_) | Passed::Ref(_) | Passed::Deref(_) | Passed::Callback(_) => false,
    }
}

fn is_plain_leaf(leaf: Leaf) -> bool
    ensures { IsTrue result ↔ IsPlainLeaf leaf }
{
    !matches!(leaf, Leaf::Node(_))
}
