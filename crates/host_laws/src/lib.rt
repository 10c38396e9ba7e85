//! What holds of every run of the host machine, and of every course of the host beside its isolates.
//!
//! Contracts see stands, scenes and records as `host_meaning` defines them.
//! Rely on: the laws that stand on the functions of `laws`, `courses` and `hosts`; none does anything when it is called.
//! Over `host_meaning`, `host_syntax`, `isolate_meaning` and `task_history`; under `host_runs`.
//! Begin with `src/laws.rt`, `src/courses.rt` and `src/hosts.rt`, then the files of `specs`.
#![tactic(auto)]

mod courses;
mod hosts;
mod laws;

pub use courses::{
    cells_end_lawful, courses_end_lawful, courses_have_targets, isolates_stand_beside_the_host,
    one_thread_is_one_order, waiting_tasks_fit,
};
pub use hosts::{
    finished_records_are_lawful, isolates_stay_beside, moves_name_isolates, outs_may_be_received,
};
pub use laws::{
    calls_are_settled_or_posted, calls_have_targets, each_call_is_settled_once,
    numbers_are_posted_once, posted_tasks_are_known, settlements_are_replied,
    the_host_waits_for_calls_alone,
};
