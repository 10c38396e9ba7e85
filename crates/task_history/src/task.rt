//! A task, and what is asked of an isolate by it.

use crate::{Outcome, Shared};
use ivm_text::{Bytes, CloneWhole, Items, Passed, Units, Want};
use std::alloc::{AllocError, Global};

/// Values that pass, in order.
pub type PassedList = Items<Passed>;

/// What is to be done with the value of a row (isolated-vm: the members of `Reference`).
#[derive(Debug, Drop)]
pub enum Act {
    /// Reads the property under a key.
    Get(Units, Want),
    /// Writes a value to the property under a key.
    Set(Units, Passed),
    /// Calls it with a receiver and arguments.
    Apply(Passed, PassedList, Want),
    /// Copies it out.
    CopyOut,
}

/// A refusal of a call by the host itself, before any task.
#[derive(Debug, Clone, Copy, PartialEq, Eq)]
pub enum Own {
    /// All numbers of calls were drawn.
    TooManyCalls,
    /// The label holds no reference.
    NotReference,
    /// The label holds no script.
    NotScript,
    /// The label holds no copy.
    NotCopy,
    /// The label was released.
    Released,
    /// The isolate was asked to stop, or has told its end.
    Disposed,
}

/// What a call comes to: the outcome of its task, or a refusal by the host.
#[derive(Debug, Drop)]
pub enum Answer {
    Of(Outcome),
    Own(Own),
}

/// What is to be done in an isolate.
#[derive(Debug, Drop)]
pub enum TaskKind {
    /// Makes a context (isolated-vm: `isolate.createContext`).
    Context,
    /// Builds a text (isolated-vm: `isolate.compileScript`).
    Compile(Shared<Bytes>),
    /// Runs a script in a context (isolated-vm: `script.run`).
    Run {
        script: u32,
        context: u32,
        want: Want,
    },
    /// Builds a text and runs it in a context (isolated-vm: `context.eval`).
    Eval {
        context: u32,
        text: Shared<Bytes>,
        want: Want,
    },
    /// Works on the value of a row.
    Act {
        row: u32,
        act: Act,
    },
    /// Tells a waiting promise what its call came to.
    Resume {
        promise: u32,
        answer: Answer,
    },
}

/// One task: the number of the call that it answers, if any, and the ticks that it may take.
#[derive(Debug, Drop)]
pub struct Task {
    pub call: Option<u32>,
    pub budget: u32,
    pub kind: TaskKind,
}

impl CloneWhole for Act {
    fn clone_whole(&self, alloc: Global) -> Result<Act, AllocError> {
        match self {
            Act::Get(key, want) => Ok(Act::Get(key.clone_whole(alloc)?, *want)),
            Act::Set(key, value) => Ok(Act::Set(
                key.clone_whole(alloc)?,
                value.clone_whole(alloc)?,
            )),
            Act::Apply(receiver, args, want) => Ok(Act::Apply(
                receiver.clone_whole(alloc)?,
                args.clone_whole(alloc)?,
                *want,
            )),
            Act::CopyOut => Ok(Act::CopyOut),
        }
    }
}

impl CloneWhole for Answer {
    fn clone_whole(&self, alloc: Global) -> Result<Answer, AllocError> {
        match self {
            Answer::Of(outcome) => Ok(Answer::Of(outcome.clone_whole(alloc)?)),
            Answer::Own(own) => Ok(Answer::Own(*own)),
        }
    }
}

impl CloneWhole for TaskKind {
    fn clone_whole(&self, alloc: Global) -> Result<TaskKind, AllocError> {
        match self {
            TaskKind::Context => Ok(TaskKind::Context),
            TaskKind::Compile(text) => Ok(TaskKind::Compile(text.clone_whole(alloc)?)),
            TaskKind::Run {
                script,
                context,
                want,
            } => Ok(TaskKind::Run {
                script: *script,
                context: *context,
                want: *want,
            }),
            TaskKind::Eval {
                context,
                text,
                want,
            } => Ok(TaskKind::Eval {
                context: *context,
                text: text.clone_whole(alloc)?,
                want: *want,
            }),
            TaskKind::Act { row, act } => Ok(TaskKind::Act {
                row: *row,
                act: act.clone_whole(alloc)?,
            }),
            TaskKind::Resume { promise, answer } => Ok(TaskKind::Resume {
                promise: *promise,
                answer: answer.clone_whole(alloc)?,
            }),
        }
    }
}

impl CloneWhole for Task {
    fn clone_whole(&self, alloc: Global) -> Result<Task, AllocError> {
        let kind = self.kind.clone_whole(alloc)?;
        Ok(Task {
            call: self.call,
            budget: self.budget,
            kind,
        })
    }
}
