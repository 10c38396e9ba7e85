//! A host script carried out: its isolates, their tasks and their replies, until nothing is left to do.
//!
//! Contracts see the script and the record as they are.
//! Rely on: the record of a script is lawful for it; only want of memory ends a run without one.
//! Over `host_machine`, `host_laws` and `isolate_core`; under `ivm_cli`.
//! Begin with `host_meaning/specs/Lawful.antt`, then `src/one_thread.rt`.
#![tactic(auto)]

mod one_thread;

pub use one_thread::carry_out;
