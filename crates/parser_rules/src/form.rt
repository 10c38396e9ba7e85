//! What a reader of the grammar keeps in mind.

/// What is read one level further inside.
#[derive(Debug, Clone, Copy, PartialEq, Eq, Drop)]
pub enum Form {
    /// An expression without a comma outside of brackets.
    Expression,
    /// An operator before its operand, with that operand.
    Prefix,
    Statement,
    /// A statement or a declaration.
    Item,
    /// `{`, items, `}`.
    Block,
    /// A value that stands for itself: no names, no operators but a `-` before a number.
    Literal,
}

/// What stands behind a `(`, as far as it has been read.
#[derive(Debug, Clone, Copy, PartialEq, Eq, Drop)]
pub enum Cover {
    /// Names alone: expressions, or the parameters of an arrow function.
    Names,
    /// Expressions.
    Expressions,
    /// The parameters of an arrow function.
    Parameters,
}

/// Why no form can be read on.
#[derive(Debug, Clone, Copy, PartialEq, Eq, Drop)]
pub enum Why {
    /// The token cannot stand here.
    Unexpected,
    /// The token is open to more levels than there may be.
    TooDeep,
}
