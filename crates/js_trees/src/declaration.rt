//! What a statement declares in its list.

use ivm_text::{Items, Units};

/// A name that a statement declares in its list (ECMA-262, Declarations).
#[derive(Debug, Drop)]
pub enum Declaration {
    /// A name of a `let`.
    Variable(Units),
    /// A name of a `const`.
    Constant(Units),
    /// The name of a function declaration, and its node.
    Function(Units, u32),
}

/// What the statements of a list declare, in the order of the text.
pub type Declarations = Items<Declaration>;
