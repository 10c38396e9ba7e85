//! The steps of each form of a script, which evaluate no node themselves.
//!
//! Contracts see a step as what it comes to: an end, a `Frame` that waits for a node inside it, or a built-in's call.
//! Rely on: `begin` and `resume` come to what the form's rule says, whatever the nodes inside it do.
//! Over `script_meaning`, `js_scopes` and `js_members`; under the machine that carries scripts out.
//! Begin with `specs/After.antt`, then `src/frame.rt`, `src/beginning.rt` and `src/resuming.rt`.
#![tactic(auto)]

mod assignments;
mod beginning;
mod builtins;
mod called;
mod calls;
mod endings;
mod ends;
mod forms;
mod frame;
mod functions;
mod handlers;
mod leaves;
mod literals;
mod loops;
mod members;
mod operators;
mod places;
mod resuming;
mod statements;
mod targets;

pub use beginning::begin;
pub use builtins::call_builtin;
pub use ends::{abrupt_of, of_heap};
pub use forms::declarations_at;
pub use frame::{Frame, Inner, LoopParts, Step};
pub use resuming::resume;
