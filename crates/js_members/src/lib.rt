//! The members of values over a heap: what a key reads, what a write leaves, `push` and `pop`.
//!
//! Contracts see a `Heap` as its `Store`, and say what a call gives by one function of that store.
//! Rely on: a call gives that value, throws that error or is refused with those cells, and nothing else;
//! a closed heap stays closed however a call ends.
//! Over `js_ops`, `charged_heap` and `ivm_text`; under all that evaluates.
//! Begin with `specs/Reads.antt`, `specs/Writes.antt` and `specs/Arrays.antt`, then `src/members.rt`.
#![tactic(auto)]

mod arrays;
mod members;
mod names;
mod reading;
mod target;

pub use arrays::{pop, push};
pub use charged_heap::Fail;
pub use members::{read, write};
pub use names::{MemberName, is_named};
pub use reading::Reading;
pub use target::Target;
