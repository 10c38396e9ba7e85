//! The syntax of a script: nodes by number, and whether their tree has an early fault.
//!
//! Contracts see a `Script` as the list of its nodes, the one added last being the root.
//! Rely on: each kid stands below its parent, and each node has the name, names and kids that its
//! kind asks for.
//! Over `ivm_text` and `indexmap`; under `js_trees`, `parser_rules` and all that reads or runs
//! scripts.
//! Begin with `specs/Shape.antt` and `specs/Tree.antt`, then `src/script.rt`.
#![tactic(auto)]

mod around;
mod check;
mod checked;
mod fault;
mod faults;
mod kind;
mod listing;
mod node;
mod script;
mod shape;
mod twice;

pub use around::Around;
pub use check::{EarlyFault, early};
pub use checked::{Checked, Scripts};
pub use fault::{Fault, FaultKind};
pub use ivm_text::{Refusal, RefusalKind};
pub use kind::Kind;
pub use node::{Kids, Names, Node, Places};
pub use script::Script;
