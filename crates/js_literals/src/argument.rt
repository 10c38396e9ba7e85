//! What an argument of a text is.

use ivm_text::{Copy, Units};

/// What an argument of the form `W(N)` passes.
#[derive(Debug, Clone, Copy, PartialEq, Eq)]
pub enum FormKind {
    Ref,
    Deref,
    Copy,
    Into,
    Callback,
}

/// One argument: the copy of a literal, or what is passed and the name that it has in the host
/// script.
#[derive(Debug, Drop)]
pub enum Argument {
    Literal(Copy),
    Form(FormKind, Units),
}
