//! The tasks of isolates, what comes of them, and the record of a run.
//!
//! Contracts see every type here as it is, and its lists as lists.
//! Rely on: plain values that hold no number of an isolate's item; a clone is equal to what was cloned.
//! Over `ivm_text`; under `isolate_core` and all that posts tasks or reads records.
//! Begin with `src/task.rt`, then `specs/Lists.antt`.
#![tactic(auto)]

mod outcome;
mod record;
mod shared;
mod task;

pub use outcome::{By, Copies, Out, Outcome, Outs};
pub use record::{Entry, Event, History, Journal, Journals, Record, Settlement};
pub use shared::Shared;
pub use task::{Act, Answer, Own, PassedList, Task, TaskKind};
