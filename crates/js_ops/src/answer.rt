//! What an operator comes to, before anything is made in the heap.

use crate::ScriptError;
use ivm_text::Units;

/// What an operator comes to on its operands.
#[derive(Debug, Drop)]
pub enum Answer {
    Truth(bool),
    Number(i64),
    /// A string that is to be made.
    Text(Units),
    /// An error that is to be made and thrown.
    Fault(ScriptError),
}
