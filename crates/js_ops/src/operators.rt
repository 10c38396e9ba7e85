//! The operators that give a value from values alone.
ghost use Rattle.std.specs.Prelude.{◌≡◌};
ghost use Rattle.js_ops.specs.Operators.{operator_of};

use js_syntax::Kind;

/// An operator that calculates with numbers. `Add` joins texts too.
#[derive(Debug, Clone, Copy, PartialEq, Eq)]
pub enum Arithmetic {
    Add,
    Sub,
    Mul,
    Div,
    Rem,
}

/// An operator that compares two numbers or two strings.
#[derive(Debug, Clone, Copy, PartialEq, Eq)]
pub enum Comparison {
    Less,
    More,
    AtMost,
    AtLeast,
}

/// An operator of two operands whose values are both needed.
#[derive(Debug, Clone, Copy, PartialEq, Eq)]
pub enum BinaryOperator {
    Calculate(Arithmetic),
    Compare(Comparison),
    /// `===`
    Same,
    /// `!==`
    NotSame,
}

/// An operator of one operand.
#[derive(Debug, Clone, Copy, PartialEq, Eq)]
pub enum UnaryOperator {
    /// `!`
    Not,
    /// `-`
    Minus,
    /// `+`
    Plus,
    TypeOf,
    /// The value that `++` stores, on either side of its operand.
    Raise,
    /// The value that `--` stores, on either side of its operand.
    Lower,
}

/// An operator with the place of its operands: what a kind of node says of both.
#[derive(Debug, Clone, Copy, PartialEq, Eq)]
pub enum Operator {
    /// Of two operands, whose values are both needed.
    Binary(BinaryOperator),
    /// Of one operand.
    Unary(UnaryOperator),
    /// `+=` and its kin: of the value of a place and the operand behind it.
    Update(BinaryOperator),
    /// `++` or `--` of a place; true where it stands before its operand.
    Step(UnaryOperator, bool),
}

impl Operator {
    /// The operator that a kind of node is; none for all other kinds.
    pub fn of_kind(kind: Kind) -> Option<Operator>
        ensures { result ≡ operator_of kind }
    {
        let operator = match kind {
            Kind::Same => Operator::Binary(BinaryOperator::Same),
            Kind::NotSame => Operator::Binary(BinaryOperator::NotSame),
            Kind::Less => Operator::Binary(BinaryOperator::Compare(Comparison::Less)),
            Kind::More => Operator::Binary(BinaryOperator::Compare(Comparison::More)),
            Kind::AtMost => Operator::Binary(BinaryOperator::Compare(Comparison::AtMost)),
            Kind::AtLeast => Operator::Binary(BinaryOperator::Compare(Comparison::AtLeast)),
            Kind::Add => Operator::Binary(BinaryOperator::Calculate(Arithmetic::Add)),
            Kind::Sub => Operator::Binary(BinaryOperator::Calculate(Arithmetic::Sub)),
            Kind::Mul => Operator::Binary(BinaryOperator::Calculate(Arithmetic::Mul)),
            Kind::Div => Operator::Binary(BinaryOperator::Calculate(Arithmetic::Div)),
            Kind::Rem => Operator::Binary(BinaryOperator::Calculate(Arithmetic::Rem)),
            Kind::AssignAdd => Operator::Update(BinaryOperator::Calculate(Arithmetic::Add)),
            Kind::AssignSub => Operator::Update(BinaryOperator::Calculate(Arithmetic::Sub)),
            Kind::AssignMul => Operator::Update(BinaryOperator::Calculate(Arithmetic::Mul)),
            Kind::AssignDiv => Operator::Update(BinaryOperator::Calculate(Arithmetic::Div)),
            Kind::AssignRem => Operator::Update(BinaryOperator::Calculate(Arithmetic::Rem)),
            Kind::Not => Operator::Unary(UnaryOperator::Not),
            Kind::Minus => Operator::Unary(UnaryOperator::Minus),
            Kind::Plus => Operator::Unary(UnaryOperator::Plus),
            Kind::TypeOf => Operator::Unary(UnaryOperator::TypeOf),
            Kind::PreInc => Operator::Step(UnaryOperator::Raise, true),
            Kind::PreDec => Operator::Step(UnaryOperator::Lower, true),
            Kind::PostInc => Operator::Step(UnaryOperator::Raise, false),
            Kind::PostDec => Operator::Step(UnaryOperator::Lower, false),
            _ => return None,
        };
        Some(operator)
    }
}
