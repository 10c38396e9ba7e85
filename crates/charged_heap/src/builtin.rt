//! The functions that every isolate has from the start.

/// A built-in function, or a member function of the kind of value from which it is read.
///
/// Two reads of one member of one kind give the same function, and the members of two kinds differ
/// even where they share a name.
#[derive(Debug, Clone, Copy, PartialEq, Eq)]
pub enum Builtin {
    /// `Object`, which throws when it is called.
    Object,
    /// `Object.keys`
    ObjectKeys,
    /// `Array`, which throws when it is called.
    Array,
    /// `Array.isArray`
    ArrayIsArray,
    /// `String`
    String,
    /// `Number`
    Number,
    /// `Error`, with or without `new`; the four after it likewise.
    Error,
    /// `TypeError`
    TypeError,
    /// `RangeError`
    RangeError,
    /// `ReferenceError`
    ReferenceError,
    /// `SyntaxError`
    SyntaxError,
    /// `Promise`, which throws when it is called without `new`.
    Promise,
    /// `Promise.resolve`
    PromiseResolve,
    /// `Promise.reject`
    PromiseReject,
    /// `Reference`, with or without `new`.
    Reference,
    /// `ExternalCopy`, with or without `new`.
    ExternalCopy,
    /// `push` of an array.
    ArrayPush,
    /// `pop` of an array.
    ArrayPop,
    /// `join` of an array.
    ArrayJoin,
    /// `slice` of an array.
    ArraySlice,
    /// `indexOf` of an array.
    ArrayIndexOf,
    /// `charCodeAt` of a string.
    StringCharCodeAt,
    /// `slice` of a string.
    StringSlice,
    /// `indexOf` of a string.
    StringIndexOf,
    /// `then` of a promise.
    PromiseThen,
    /// `catch` of a promise.
    PromiseCatch,
    /// `get` of a reference.
    ReferenceGet,
    /// `set` of a reference.
    ReferenceSet,
    /// `apply` of a reference.
    ReferenceApply,
    /// `applyIgnored` of a reference.
    ReferenceApplyIgnored,
    /// `copy` of a reference.
    ReferenceCopy,
    /// `deref` of a reference.
    ReferenceDeref,
    /// `derefInto` of a reference.
    ReferenceDerefInto,
    /// `release` of a reference.
    ReferenceRelease,
    /// `getSync` of a reference, which throws when it is called; the three after it likewise.
    ReferenceGetSync,
    /// `setSync` of a reference.
    ReferenceSetSync,
    /// `applySync` of a reference.
    ReferenceApplySync,
    /// `copySync` of a reference.
    ReferenceCopySync,
    /// `copy` of an external copy.
    ExternalCopyCopy,
    /// `copyInto` of an external copy.
    ExternalCopyCopyInto,
}
