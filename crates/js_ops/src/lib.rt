//! The operators of scripts over the values of a heap.
//!
//! Contracts see a `Heap` as its `Store`, and say what a call gives by one function of that store.
//! Rely on: a call gives that value, throws that error or is refused with those cells, and nothing else;
//! a closed heap stays closed however a call ends.
//! Over `charged_heap` and `js_syntax`; under all that evaluates.
//! Begin with `specs/Operators.antt` and `specs/Outcome.antt`, then `src/operations.rt`.
#![tactic(auto)]

mod answer;
mod calculate;
mod compare;
mod decide;
mod error;
mod join;
mod making;
mod operations;
mod operators;
mod values;

pub use answer::Answer;
pub use charged_heap::Fail;
pub use error::{ScriptError, refuse, refuse_name};
pub use making::throw;
pub use operations::{binary, unary};
pub use operators::{Arithmetic, BinaryOperator, Comparison, Operator, UnaryOperator};
pub use values::{same, truthy, type_of};
