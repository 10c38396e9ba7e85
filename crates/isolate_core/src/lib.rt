//! One isolate on one thread: a cell that performs tasks and keeps the journal of them.
//!
//! Contracts see a `Cell` as its number, its limit, its journal and its state (`Kept` in `specs/Replay.antt` of
//! `isolate_meaning`).
//! Rely on: one exact entry per task, with its ticks and cells; the journal, carried out again, gives the state; a stop
//! takes no memory.
//! Over `isolate_meaning`, `script_eval` and `js_scripts`; under the host.
//! Begin with `specs/Tasks.antt` and `specs/Does.antt` of `isolate_meaning`, then `src/cell.rt`.
#![tactic(auto)]

mod act;
mod cell;
mod contents;
mod contexts;
mod done;
mod entry;
mod fits;
mod ledger;
mod life;
mod rows;
mod texts;
mod values;

pub use cell::Cell;
