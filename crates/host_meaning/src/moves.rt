//! What the host asks for, and what the settlement of a call holds.

use task_history::Task;

/// What a step of the host asks for.
#[derive(Debug, Drop)]
pub enum Move {
    /// The task is to be handed to the isolate.
    Post { isolate: u32, task: Task },
    /// The isolate is to stop.
    Ask { isolate: u32 },
    /// Nothing: the host settled the call itself, or it was a declaration or a `wait`.
    Own,
    /// No command is left, or the next one waits for a call that isn't settled.
    Blocked,
    /// The next command is a call whose isolate, context or row isn't there, and nothing was done. This is no lawful
    /// move: beside isolates that do what was posted to them no run comes to it.
    NoTarget,
}

/// A task that follows from an out, to be handed to an isolate.
#[derive(Debug, Drop)]
pub struct Posting {
    pub isolate: u32,
    pub task: Task,
}

/// What the settlement of a call holds for later commands.
#[derive(Debug, Clone, Copy, PartialEq, Eq)]
pub enum Held {
    Nothing,
    /// A context, and the row of its global object.
    Context { context: u32, row: u32 },
}
