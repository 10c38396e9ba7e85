//! What one isolate is, what a task does to it, and what its journal means: definitions and their laws.
//!
//! Contracts see states, tasks and journals as plain values, stores and lists; nothing here knows a heap, a lock or a frame.
//! Rely on: the laws that stand on the functions of `laws`.
//! Over `script_meaning`, `js_scripts` and `task_history`; under `isolate_core` and `host_meaning`.
//! Begin with `specs/State.antt`, then `specs/Tasks.antt`, `specs/Does.antt` and `specs/Replay.antt`.
#![tactic(auto)]

mod laws;

pub use laws::{
    disposals_end, each_task_is_answered_once, ended_isolates_refuse, ends_have_causes,
    entries_keep_their_limits, journals_have_one_end, known_tasks_fit, new_contexts_are_numbered,
    scripts_stay_there, tasks_do_one_thing, told_contexts_are_there,
};
