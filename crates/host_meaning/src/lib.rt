//! What a host script means: the host machine, its runs beside isolates, and when a record is lawful.
//!
//! Contracts see the machine as a `Stand`: the script, the numbers that were drawn, and the history of events.
//! Rely on: definitions and plain types alone; nothing here knows a cell, a lock or a thread.
//! Over `host_syntax`, `task_history` and `isolate_meaning`; under `host_machine`, `host_laws`, `ivm_report` and `ivm_cli`.
//! Begin with `specs/Machine.antt`, then `specs/Lawful.antt`.
#![tactic(auto)]

mod moves;

pub use moves::{Held, Move, Posting};
