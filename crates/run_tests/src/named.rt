//! Operators, nodes, errors and built-in functions by their names.

use anyhow::{Error, bail};
use charged_heap::Builtin;
use ivm_text::ErrorKind;
use js_ops::{Arithmetic, BinaryOperator, Comparison, UnaryOperator};
use js_syntax::Kind;

/// The operator of two values that is written so.
pub fn binary_named(name: &str) -> Result<BinaryOperator, Error> {
    Ok(match name {
        "+" => BinaryOperator::Calculate(Arithmetic::Add),
        "-" => BinaryOperator::Calculate(Arithmetic::Sub),
        "*" => BinaryOperator::Calculate(Arithmetic::Mul),
        "/" => BinaryOperator::Calculate(Arithmetic::Div),
        "%" => BinaryOperator::Calculate(Arithmetic::Rem),
        "<" => BinaryOperator::Compare(Comparison::Less),
        ">" => BinaryOperator::Compare(Comparison::More),
        "<=" => BinaryOperator::Compare(Comparison::AtMost),
        ">=" => BinaryOperator::Compare(Comparison::AtLeast),
        "===" => BinaryOperator::Same,
        "!==" => BinaryOperator::NotSame,
        _ => bail!("{name}: no operator of two values"),
    })
}

/// The operator of one value that is written so.
pub fn unary_named(name: &str) -> Result<UnaryOperator, Error> {
    Ok(match name {
        "!" => UnaryOperator::Not,
        "-" => UnaryOperator::Minus,
        "+" => UnaryOperator::Plus,
        "typeof" => UnaryOperator::TypeOf,
        "++" => UnaryOperator::Raise,
        "--" => UnaryOperator::Lower,
        _ => bail!("{name}: no operator of one value"),
    })
}

/// The kind of a node that has this name.
pub fn kind_named(name: &str) -> Result<Kind, Error> {
    Ok(match name {
        "Add" => Kind::Add,
        "Less" => Kind::Less,
        "NotSame" => Kind::NotSame,
        "AssignAdd" => Kind::AssignAdd,
        "And" => Kind::And,
        "Not" => Kind::Not,
        "TypeOf" => Kind::TypeOf,
        "PreInc" => Kind::PreInc,
        "PostInc" => Kind::PostInc,
        "PreDec" => Kind::PreDec,
        "PostDec" => Kind::PostDec,
        "Void" => Kind::Void,
        _ => bail!("{name}: no kind of a node"),
    })
}

/// The constructor of an error that has this name.
pub fn error_named(name: &str) -> Option<ErrorKind> {
    match name {
        "Error" => Some(ErrorKind::Error),
        "TypeError" => Some(ErrorKind::TypeError),
        "RangeError" => Some(ErrorKind::RangeError),
        "ReferenceError" => Some(ErrorKind::ReferenceError),
        "SyntaxError" => Some(ErrorKind::SyntaxError),
        _ => None,
    }
}

/// The built-in function of this name.
pub fn builtin_named(name: &str) -> Result<Builtin, Error> {
    Ok(match name {
        "Object" => Builtin::Object,
        "Array" => Builtin::Array,
        "String" => Builtin::String,
        "ArrayPush" => Builtin::ArrayPush,
        "ArraySlice" => Builtin::ArraySlice,
        "StringSlice" => Builtin::StringSlice,
        "ReferenceGet" => Builtin::ReferenceGet,
        _ => bail!("{name}: no built-in function of the rows"),
    })
}
