//! The report of a run: one line for each call of the script, by the record that was kept.
//!
//! Contracts see the report as the bytes that `specs/Report.antt` gives for a script and a record.
//! Rely on: the bytes are exactly those; only want of memory refuses them.
//! Over `host_meaning` and `task_history`; under `ivm_cli`.
//! Begin with `specs/Values.antt`, then `specs/Outcomes.antt` and `specs/Report.antt`.
#![tactic(auto)]

mod lines;
mod numbers;
mod outcomes;
mod settlements;
mod values;

pub use lines::report;
pub use numbers::push_decimal;
