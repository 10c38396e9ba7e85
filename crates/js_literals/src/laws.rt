//! What follows of literals and arguments, beside what the calls say.

ghost use Rattle.std.specs.Prelude.{ℕ, List};
ghost use Rattle.js_literals.specs.One.{HasOneRefusal, HasOneValue};

/// A text has at most one value. So `literal` answers `Ok` with the one copy that the text stands
/// for, and `arguments` with its one list of arguments.
pub fn one_value()
    ensures { (bytes : List ℕ) → HasOneValue bytes }
{}

/// A text has at most one refusal, and none where it has a value. So `literal` and `arguments`
/// answer `Refused` with the one refusal of a text.
pub fn one_refusal()
    ensures { (bytes : List ℕ) → HasOneRefusal bytes }
{}
