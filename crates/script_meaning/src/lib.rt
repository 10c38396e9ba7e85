//! What scripts mean: how each form is evaluated, with its ticks and cells.
//!
//! Contracts of the evaluator cite `Evaluates`, a function of the scripts, the store and the ticks that are left.
//! Rely on: one rule a form; each rule speaks of trees, values and stores, and of what stands inside it.
//! Over `js_trees`, `js_scopes` and `js_members`; under the steps and the machine that carry it out.
//! Begin with `specs/Outcome.antt`, `specs/Expressions.antt` and `specs/Statements.antt`; `src/laws.rt` has what holds of all.
#![tactic(auto)]

mod completion;
mod laws;
mod site;

pub use completion::{Abrupt, Completion, Ended, StopCause};
pub use laws::{loops_go_on, nodes_take_ticks, runs_keep_limits};
pub use site::{Key, Place, Role, Site};
