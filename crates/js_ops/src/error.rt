//! The errors that a script's own use of operators, members and names throws.
ghost use Rattle.std.specs.Prelude.{◌≡◌, IfOk, IsErr};
ghost use Rattle.charged_heap.specs.Closed.{IsClosed};
ghost use Rattle.charged_heap.specs.Ends.{Meets, IsSoundResult};
ghost use Rattle.charged_heap.specs.Growth.{Grows};
ghost use Rattle.js_ops.specs.Errors.{error_kind, error_text, name_error_text};
ghost use Rattle.js_ops.specs.Outcome.{error_thrown, name_error_thrown};

use crate::throw;
use charged_heap::{Fail, Heap, Value};
use ivm_text::{ErrorKind, NoMemory, Units};
use std::alloc::Global;

/// Why an operator, a member or a name throws.
#[derive(Debug, Clone, Copy, PartialEq, Eq)]
pub enum ScriptError {
    /// An operand of a kind that the operator doesn't take.
    WrongKind,
    /// The result is no number from -(2^53 - 1) to 2^53 - 1.
    OutOfRange,
    /// A quotient with a remainder.
    NotWhole,
    DivisionByZero,
    /// A property of undefined or null.
    NoObject,
    /// A write above the length of an array.
    PastEnd,
    /// A write to anything but a property of an object or an index of an array.
    NotWritable,
    /// A member function that is called on a value of another kind.
    BadArgument,
    /// The name is nowhere.
    NotDefined,
    /// The name's binding is in its dead zone.
    NotInitialised,
    /// An assignment to a constant or to a built-in name.
    Constant,
    /// An earlier script of the context has declared the name.
    AlreadyDeclared,
}

impl ScriptError {
    /// The kind of the error that is thrown.
    pub fn kind(self) -> ErrorKind
        ensures { result ≡ error_kind self }
    {
        match self {
            ScriptError::WrongKind => ErrorKind::TypeError,
            ScriptError::OutOfRange => ErrorKind::RangeError,
            ScriptError::NotWhole => ErrorKind::RangeError,
            ScriptError::DivisionByZero => ErrorKind::RangeError,
            ScriptError::NoObject => ErrorKind::TypeError,
            ScriptError::PastEnd => ErrorKind::RangeError,
            ScriptError::NotWritable => ErrorKind::TypeError,
            ScriptError::BadArgument => ErrorKind::TypeError,
            ScriptError::NotDefined => ErrorKind::ReferenceError,
            ScriptError::NotInitialised => ErrorKind::ReferenceError,
            ScriptError::Constant => ErrorKind::TypeError,
            ScriptError::AlreadyDeclared => ErrorKind::SyntaxError,
        }
    }

    /// The message of the error that is thrown; of an error of a name, what it says behind the name.
    pub fn message(self) -> &'static [u8]
        ensures { result.now ≡ error_text self }
    {
        match self {
            ScriptError::WrongKind => b"wrong kind of operand",
            ScriptError::OutOfRange => b"number out of range",
            ScriptError::NotWhole => b"not a whole quotient",
            ScriptError::DivisionByZero => b"division by zero",
            ScriptError::NoObject => b"property of undefined or null",
            ScriptError::PastEnd => b"index past the end",
            ScriptError::NotWritable => b"cannot write this member",
            ScriptError::BadArgument => b"bad argument",
            ScriptError::NotDefined => b" is not defined",
            ScriptError::NotInitialised => b" is not initialised",
            ScriptError::Constant => b" is constant",
            ScriptError::AlreadyDeclared => b" is already declared",
        }
    }
}

/// Throws the new error of an operator or a member. It is always an `Err`, as by `throw`.
pub fn refuse(alloc: Global, heap: &mut Heap, error: ScriptError) -> Result<Value, Fail>
    ensures gives { Meets result heap.new (error_thrown error heap.old) }
    ensures err { IsErr result }

    ensures grown { Grows heap.old heap.new }
    ensures closed { IsClosed heap.old → IsClosed heap.new }
    ensures sound { IsSoundResult heap.new result }
{
    let message = Units::from_latin1(alloc, error.message())?;
    throw(heap, error.kind(), message)
}

/// The message of an error of a name: the name, and what is said of it. Only want of memory refuses it.
fn name_message(alloc: Global, error: ScriptError, name: &Units) -> Result<Units, NoMemory>
    ensures { IfOk result (λ units. units ≡ name_error_text error name.now) }
{
    let words = Units::from_latin1(alloc, error.message())?;
    name.join(alloc, &words)
}

/// Throws the new error of a name. It is always an `Err`, as by `throw`.
pub fn refuse_name(
    alloc: Global,
    heap: &mut Heap,
    error: ScriptError,
    name: &Units,
) -> Result<Value, Fail>
    ensures gives { Meets result heap.new (name_error_thrown error name.now heap.old) }
    ensures err { IsErr result }

    ensures grown { Grows heap.old heap.new }
    ensures closed { IsClosed heap.old → IsClosed heap.new }
    ensures sound { IsSoundResult heap.new result }
{
    let message = name_message(alloc, error, name)?;
    throw(heap, error.kind(), message)
}
