//! The values of a script, and the lists in which items keep them.

use crate::Builtin;
use ivm_text::{Items, Units};

/// A value of a script. All but primitives and built-in functions stand for an item by its number.
#[derive(Debug, Clone, Copy, PartialEq, Eq)]
pub enum Value {
    Undefined,
    Null,
    Bool(bool),
    /// A whole number.
    Num(i64),
    /// The item with this number in the heap.
    Item(u32),
    Builtin(Builtin),
}

/// The elements of an array, or the arguments of a call.
pub type Values = Items<Value>;

/// A name of a scope. It has no value in its dead zone (ECMA-262, TDZ).
#[derive(Debug, Drop)]
pub struct Binding {
    pub name: Units,
    pub constant: bool,
    pub value: Option<Value>,
}

/// The state of a promise (ECMA-262, Promise Objects). One that adopts another is pending still.
#[derive(Debug, Clone, Copy, PartialEq, Eq)]
pub enum PromiseState {
    Pending,
    /// It was resolved with another promise, and waits for that one.
    Adopting,
    Fulfilled(Value),
    Rejected(Value),
}

/// What is to be done once a promise settles.
#[derive(Debug, Clone, Copy, PartialEq, Eq)]
pub struct Reaction {
    /// The handler of a fulfilment.
    pub good: Value,
    /// The handler of a rejection.
    pub bad: Value,
    /// The number of the promise that the handler's result settles.
    pub next: Option<u32>,
}

/// The reactions of a promise in order of registration.
pub type Reactions = Items<Reaction>;
