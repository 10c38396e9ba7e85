//! What holds of the heap of every evaluation.
//!
//! Contracts see stores and runs as `charged_heap` and `script_meaning` define them.
//! Rely on: what an item names of the scripts is there after a run, where it was before.
//! Over `script_meaning`; under `isolate_meaning`.
//! Begin with `specs/Scripts.antt`, then `src/laws.rt`.
#![tactic(auto)]

mod laws;

pub use laws::scripts_are_there;
