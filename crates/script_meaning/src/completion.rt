//! How the evaluation of a node ends, and that of a whole run.

use crate::Place;
use charged_heap::Value;
use ivm_text::Overrun;

/// How a node ends that isn't cut short (ECMA-262, Completion Record: normal).
#[derive(Debug, Clone, Copy, PartialEq, Eq)]
pub enum Ended {
    /// A statement without a value.
    Empty,
    /// An expression, or a statement with a value.
    Value(Value),
    /// A target of an assignment.
    Place(Place),
    /// A callee that was read from a member, and the value from which it was read.
    Member { function: Value, receiver: Value },
}

/// Why a run is stopped. No `catch` or `finally` sees it.
#[derive(Debug, Clone, Copy, PartialEq, Eq)]
pub enum StopCause {
    /// A tick was due and the budget was used up.
    Timeout,
    /// The next charge would have passed the limit.
    Memory(Overrun),
}

/// Why a node ends before its end (ECMA-262, Completion Record: abrupt).
#[derive(Debug, Clone, Copy, PartialEq, Eq)]
pub enum Abrupt {
    Throw(Value),
    Return(Value),
    /// `break`, with the value of the list that it left, where there is one.
    Break(Option<Value>),
    /// `continue`, with the value of the list that it left, where there is one.
    Continue(Option<Value>),
    Stop(StopCause),
    /// No memory was found. No rule of the language ends so.
    NoMemory,
}

/// How a whole run ends.
#[derive(Debug, Clone, Copy, PartialEq, Eq)]
pub enum Completion {
    Normal(Value),
    Throw(Value),
    Stop(StopCause),
}
