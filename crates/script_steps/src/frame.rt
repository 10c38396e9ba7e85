//! What is left of a form while a node inside it is evaluated.

ghost use Rattle.std.specs.Prelude.{◌≡◌};

use charged_heap::{Builtin, Value, Values};
use js_ops::{BinaryOperator, UnaryOperator};
use js_syntax::Kind;
use script_meaning::{Abrupt, Ended, Place, Role, Site};

/// A form that waits for a node inside it. Nodes are named by their numbers in the site's script.
#[derive(Drop)]
pub enum Frame {
    /// What stands inside is all that the form comes to.
    Pass,
    /// A comma that waits for its left operand.
    Comma {
        right: u32,
        site: Site,
    },
    /// An operator that waits for its left operand.
    Left {
        operator: BinaryOperator,
        right: u32,
        site: Site,
    },
    /// An operator that waits for its right operand.
    Right {
        operator: BinaryOperator,
        left: Value,
    },
    /// An operator that waits for its one operand.
    Operand {
        operator: UnaryOperator,
    },
    /// `typeof` of a name.
    TypeOfPlace {
        site: Site,
    },
    Void,
    /// `?:` that waits for its condition.
    Condition {
        good: u32,
        bad: u32,
        site: Site,
    },
    /// `&&`, `||` or `??` that waits for its left operand.
    Logical {
        operator: Kind,
        right: u32,
        site: Site,
    },
    /// `=` that waits for its target.
    AssignTarget {
        right: u32,
        site: Site,
    },
    /// `=` that waits for its value.
    AssignValue {
        place: Place,
        site: Site,
    },
    /// `+=` and its kin that wait for their target.
    UpdateTarget {
        operator: BinaryOperator,
        right: u32,
        site: Site,
    },
    /// `+=` and its kin that wait for their right side.
    UpdateValue {
        operator: BinaryOperator,
        place: Place,
        old: Value,
        site: Site,
    },
    /// `++` or `--` that waits for its target.
    StepTarget {
        operator: UnaryOperator,
        before: bool,
        site: Site,
    },
    /// A member that waits for its object.
    Member {
        role: Role,
        node: u32,
        script: u32,
    },
    /// A computed member that waits for its object.
    IndexObject {
        role: Role,
        key: u32,
        site: Site,
    },
    /// A computed member that waits for its key.
    IndexKey {
        role: Role,
        object: Value,
    },
    /// A call that waits for its callee.
    Callee {
        node: u32,
        site: Site,
    },
    /// A call that waits for the kid with this place, which is an argument.
    Argument {
        node: u32,
        place: u32,
        function: Value,
        receiver: Value,
        values: Values,
        site: Site,
    },
    /// A call that waits for the body of the function.
    Body,
    /// An array that waits for the element at this place.
    Element {
        node: u32,
        place: u32,
        array: u32,
        site: Site,
    },
    /// An object that waits for the property at this place.
    Property {
        node: u32,
        place: u32,
        object: u32,
        site: Site,
    },
    /// A list that waits for the statement at this place, with the last value so far.
    List {
        node: u32,
        place: u32,
        last: Option<Value>,
        site: Site,
    },
    /// A `let` or `const` that waits for the initialiser at this place.
    Declarator {
        node: u32,
        place: u32,
        site: Site,
    },
    /// An `if` that waits for its condition.
    If {
        good: u32,
        bad: u32,
        site: Site,
    },
    /// An `if` that waits for the statement that it chose.
    Filled,
    /// A `return` that waits for its value.
    Return,
    /// A loop that waits for its test, with the last value so far.
    LoopTest {
        parts: LoopParts,
        last: Option<Value>,
        site: Site,
    },
    /// A loop that waits for its body.
    LoopBody {
        parts: LoopParts,
        last: Option<Value>,
        site: Site,
    },
    /// A loop that waits for its update.
    LoopUpdate {
        parts: LoopParts,
        last: Option<Value>,
        site: Site,
    },
    /// A `for` that waits for what stands before its first `;`.
    ForHead {
        parts: LoopParts,
        site: Site,
    },
    /// A `throw` that waits for its value.
    Throw,
    /// A `try` that waits for its block.
    Try {
        node: u32,
        site: Site,
    },
    /// A `try` that waits for the block of its `catch`.
    Catch {
        node: u32,
        site: Site,
    },
    /// A `try` that waits for its `finally`, with the end before.
    Finally {
        before: Result<Ended, Abrupt>,
    },
}

/// The parts of a loop, by their numbers in the site's script.
#[derive(Debug, Clone, Copy, PartialEq, Eq)]
pub struct LoopParts {
    /// None where it is left out: then it holds.
    pub test: Option<u32>,
    pub body: u32,
    pub update: Option<u32>,
    /// Whether each round has a scope of its own.
    pub fresh: bool,
}

/// A node that is to be evaluated, for what, and where.
#[derive(Debug, Clone, Copy, PartialEq, Eq)]
pub struct Inner {
    pub role: Role,
    pub node: u32,
    pub site: Site,
}

/// What a step comes to.
#[derive(Drop)]
pub enum Step {
    /// The form has ended.
    Ended(Result<Ended, Abrupt>),
    /// The form waits for a node inside it.
    Into {
        frame: Frame,
        inner: Inner,
    },
    /// The form's end is that of a call of a built-in function, which takes a tick.
    Builtin {
        which: Builtin,
        receiver: Value,
        arguments: Values,
    },
}

impl Step {
    /// The form waits in this frame for an expression of its site.
    pub(crate) fn value(frame: Frame, node: u32, site: Site) -> Step
        ensures { result ≡ Step.Into frame (record { role = Role.Value; node = node; site = site }) }
    {
        Step::waits(frame, Role::Value, node, site)
    }

    /// The form waits in this frame for a target of its site.
    pub(crate) fn target(frame: Frame, node: u32, site: Site) -> Step
        ensures { result ≡ Step.Into frame (record { role = Role.Target; node = node; site = site }) }
    {
        Step::waits(frame, Role::Target, node, site)
    }

    /// The form waits in this frame for a statement of its site.
    pub(crate) fn statement(frame: Frame, node: u32, site: Site) -> Step
        ensures { result ≡ Step.Into frame (record { role = Role.Statement; node = node; site = site }) }
    {
        Step::waits(frame, Role::Statement, node, site)
    }

    fn waits(frame: Frame, role: Role, node: u32, site: Site) -> Step
        ensures { result ≡ Step.Into frame (record { role = role; node = node; site = site }) }
    {
        Step::Into {
            frame,
            inner: Inner { role, node, site },
        }
    }
}
