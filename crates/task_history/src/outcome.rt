//! What comes of a task, and what an isolate sends to its host.

use crate::{Act, Shared};
use ivm_text::{CloneWhole, Copy, Handle, Items, Overrun, Passed, Refusal, Uncopyable};
use std::alloc::{AllocError, Global};

/// Copies, in order.
pub type Copies = Items<Copy>;

/// Who ended an isolate.
#[derive(Debug, Clone, Copy, PartialEq, Eq)]
pub enum By {
    /// The host, which asked it to stop (isolated-vm: `isolate.dispose`).
    Host,
    /// Its own limit in cells.
    Memory,
}

/// What came of a task.
#[derive(Debug, Drop)]
pub enum Outcome {
    /// A context was made; `row` is the row of its global object.
    Context { context: u32, row: u32 },
    /// A script was made.
    Script(u32),
    /// It gave this value.
    Passed(Passed),
    /// It was done, and gives no value.
    Done,
    /// It threw this value.
    Throw(Copy),
    /// The text was refused.
    Syntax(Refusal),
    /// It would have taken more than this many ticks.
    Timeout(u32),
    /// It would have taken more cells than the isolate may have, which ended it.
    MemoryLimit(Overrun),
    /// The isolate has ended.
    Disposed(By),
    /// A `derefInto` of another isolate was to be resolved.
    WrongIsolate,
    /// The result can't pass.
    NotTransferable,
    /// The result has no copy.
    NotCopyable(Uncopyable),
}

/// What an isolate sends to its host.
#[derive(Debug, Drop)]
pub enum Out {
    /// A call that a script makes through a reference.
    Call {
        promise: Option<u32>,
        to: Handle,
        budget: u32,
        act: Act,
    },
    /// The arguments of a call of a callback that logs.
    Log {
        callback: u32,
        args: Copies,
    },
    /// The key that a script asks the table of a callback for.
    AskTable {
        callback: u32,
        promise: u32,
        key: Copy,
    },
    /// The outcome of a task, told once at its end.
    Reply {
        call: Option<u32>,
        outcome: Shared<Outcome>,
    },
}

/// Outs, the first sent first.
pub type Outs = Items<Out>;

impl CloneWhole for Outcome {
    fn clone_whole(&self, alloc: Global) -> Result<Outcome, AllocError> {
        match self {
            Outcome::Context { context, row } => Ok(Outcome::Context {
                context: *context,
                row: *row,
            }),
            Outcome::Script(script) => Ok(Outcome::Script(*script)),
            Outcome::Passed(passed) => Ok(Outcome::Passed(passed.clone_whole(alloc)?)),
            Outcome::Done => Ok(Outcome::Done),
            Outcome::Throw(copy) => Ok(Outcome::Throw(copy.clone_whole(alloc)?)),
            Outcome::Syntax(refusal) => Ok(Outcome::Syntax(refusal.clone_whole(alloc)?)),
            Outcome::Timeout(ticks) => Ok(Outcome::Timeout(*ticks)),
            Outcome::MemoryLimit(overrun) => Ok(Outcome::MemoryLimit(*overrun)),
            Outcome::Disposed(by) => Ok(Outcome::Disposed(*by)),
            Outcome::WrongIsolate => Ok(Outcome::WrongIsolate),
            Outcome::NotTransferable => Ok(Outcome::NotTransferable),
            Outcome::NotCopyable(kind) => Ok(Outcome::NotCopyable(*kind)),
        }
    }
}

impl CloneWhole for Out {
    fn clone_whole(&self, alloc: Global) -> Result<Out, AllocError> {
        match self {
            Out::Call {
                promise,
                to,
                budget,
                act,
            } => Ok(Out::Call {
                promise: *promise,
                to: *to,
                budget: *budget,
                act: act.clone_whole(alloc)?,
            }),
            Out::Log { callback, args } => Ok(Out::Log {
                callback: *callback,
                args: args.clone_whole(alloc)?,
            }),
            Out::AskTable {
                callback,
                promise,
                key,
            } => Ok(Out::AskTable {
                callback: *callback,
                promise: *promise,
                key: key.clone_whole(alloc)?,
            }),
            Out::Reply { call, outcome } => Ok(Out::Reply {
                call: *call,
                outcome: outcome.clone_whole(alloc)?,
            }),
        }
    }
}
