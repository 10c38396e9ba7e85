//! Outcomes, values and calls as rows have them.

use anyhow::Error;
use ivm_text::{Copy, Leaf, Overrun, Passed, Units};
use std::alloc::Global;
use task_history::Outcome;

/// `call 7`, or `no call`.
pub fn told_of_call(alloc: Global, call: Option<u32>) -> Result<String, Error> {
    match call {
        Some(number) => Ok(format!(in alloc; "call {number}")?),
        None => Ok(String::from_str(alloc, "no call")?),
    }
}

/// An outcome as the report tells it, with the numbers of a context and who ended the isolate.
pub fn told_of_outcome(alloc: Global, outcome: &Outcome) -> Result<String, Error> {
    match outcome {
        Outcome::Context { context, row } => Ok(format!(in alloc; "context {context} row {row}")?),
        Outcome::Passed(Passed::Copy(Copy { root, .. })) => {
            let value = told_of_leaf(alloc, *root)?;
            Ok(format!(in alloc; "value {value}")?)
        }
        Outcome::Done => Ok(String::from_str(alloc, "done")?),
        Outcome::Syntax(refusal) => {
            Ok(format!(in alloc; "syntax {:?} {}", refusal.kind, refusal.place)?)
        }
        Outcome::Timeout(ticks) => Ok(format!(in alloc; "timeout {ticks}")?),
        Outcome::MemoryLimit(
            Overrun {
                charged,
                asked,
                limit,
            },
        ) => { Ok(format!(in alloc; "memory charged={charged} asked={asked} limit={limit}")?) }
        Outcome::Disposed(by) => Ok(format!(in alloc; "disposed by {by:?}")?),
        _ => Ok(String::from_str(alloc, "another outcome")?),
    }
}

/// A primitive value as it is printed. A string, an object and an array are told as `node`.
pub fn told_of_leaf(alloc: Global, leaf: Leaf) -> Result<String, Error> {
    match leaf {
        Leaf::Undefined => Ok(String::from_str(alloc, "undefined")?),
        Leaf::Null => Ok(String::from_str(alloc, "null")?),
        Leaf::Bool(value) => Ok(format!(in alloc; "{value}")?),
        Leaf::Num(number) => Ok(format!(in alloc; "{number}")?),
        Leaf::Node(_) => Ok(String::from_str(alloc, "node")?),
    }
}

/// The text of units.
pub fn spelled(alloc: Global, units: &Units) -> Result<String, Error> {
    Ok(String::from_utf8(units.to_utf8(alloc)?)?)
}
