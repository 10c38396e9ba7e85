//! The host machine: it does the commands of a script one after another, and receives what isolates send.
//!
//! Contracts see a `Host` as its `Stand`: the script, the numbers that were drawn, and the events.
//! Rely on: each call is one step of the machine that `host_meaning` defines; a refused call changes nothing.
//! Over `host_meaning`; under `host_runs`.
//! Begin with `src/host.rt`; what a step is stands in `host_meaning/specs/Machine.antt`.
#![tactic(auto)]

mod calls;
mod command;
mod host;
mod last;
mod ledger;
mod tally;

pub use host::Host;
