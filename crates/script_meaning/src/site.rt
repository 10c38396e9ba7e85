//! Where a node stands, and what it is evaluated for.

use charged_heap::Value;

/// Where a node is evaluated (ECMA-262, execution contexts).
#[derive(Debug, Clone, Copy, PartialEq, Eq)]
pub struct Site {
    /// The number of its script.
    pub script: u32,
    /// The innermost scope.
    pub scope: u32,
    /// The global object of its context.
    pub global: u32,
    /// What `this` is.
    pub receiver: Value,
}

/// What a node is evaluated for.
#[derive(Debug, Clone, Copy, PartialEq, Eq)]
pub enum Role {
    /// An expression, for its value.
    Value,
    /// The left side of an assignment, or the operand of `++` and `--`: for its place.
    Target,
    /// What is called: for the function, and where it is a member for what it is a member of.
    Callee,
    /// A statement.
    Statement,
}

/// What is assigned to (ECMA-262, Reference Record).
#[derive(Debug, Clone, Copy, PartialEq, Eq)]
pub enum Place {
    /// The name of the node with this number.
    Name(u32),
    /// A member of a value.
    Member { base: Value, key: Key },
}

/// The key of a member.
#[derive(Debug, Clone, Copy, PartialEq, Eq)]
pub enum Key {
    /// The name of the node with this number.
    Name(u32),
    /// A string or a number that was computed.
    Computed(Value),
}
