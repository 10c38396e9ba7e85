//! The machine that runs scripts: their ticks, their nesting, and how a run ends.
//!
//! Contracts see a run as its end, its store and its ticks, and cite `run_end` of `script_meaning`.
//! Rely on: a run does what `script_run` says, tick by tick and cell by cell; a closed heap stays closed.
//! Over `script_steps`, `script_meaning` and `js_scopes`; under an isolate's tasks.
//! Begin with `src/run.rt`, then `src/machine.rt` and `specs/Rest.antt`.
#![tactic(auto)]

mod enter;
mod machine;
mod run;

pub use run::run_script;
