//! What the nodes of each kind have, as a table.
ghost use Rattle.std.specs.Prelude.{◌≡◌, ◌↔◌, IsTrue, length};
ghost use Rattle.js_syntax.specs.Shape.{HasName, Counts, shape_of, IsFormed};
ghost use Rattle.js_syntax.specs.Table.{named_of, count_of, read_shape};

use crate::{Kind, Node};
use ivm_text::Units;

// Whether a node has a name of its own.
#[derive(Clone, Copy)]
enum Naming {
    Never,
    Maybe,
    Always,
}

// How many of something a node has.
#[derive(Clone, Copy)]
enum Amount {
    Exactly(u32),
    AtLeast(u32),
    OneAName,
}

// What a kind asks for.
#[derive(Clone, Copy)]
struct Form {
    name: Naming,
    names: Amount,
    kids: Amount,
}

impl Naming {
    fn allows(&self, name: &Option<Units>) -> bool
        ensures { IsTrue result ↔ HasName (named_of self.now) name.now }
    {
        match self {
            Naming::Never => name.is_none(),
            Naming::Maybe => true,
            Naming::Always => name.is_some(),
        }
    }
}

impl Amount {
    fn allows(&self, names: u32, count: u32) -> bool
        ensures { IsTrue result ↔ Counts (count_of self.now) names count }
    {
        match self {
            Amount::Exactly(wanted) => count == *wanted,
            Amount::AtLeast(least) => count >= *least,
            Amount::OneAName => count == names,
        }
    }
}

// No name, no names, and so many kids.
fn leaf(kids: u32) -> Form
    ensures { result ≡ record { name = Naming.Never; names = Amount.Exactly 0; kids = Amount.Exactly kids } }
{
    Form {
        name: Naming::Never,
        names: Amount::Exactly(0),
        kids: Amount::Exactly(kids),
    }
}

// A form that is not a leaf.
fn branch(name: Naming, names: Amount, kids: Amount) -> Form
    ensures { result ≡ record { name = name; names = names; kids = kids } }
{
    Form { name, names, kids }
}

// What a kind asks for.
fn form_of(kind: Kind) -> Form
    ensures { read_shape result ≡ shape_of kind }
{
    match kind {
        Kind::Empty | Kind::Break | Kind::Continue | Kind::Absent => leaf(0),
        Kind::Num | Kind::Undefined | Kind::Null => leaf(0),
        Kind::True | Kind::False | Kind::This => leaf(0),
        Kind::ExprStmt | Kind::Return | Kind::Throw => leaf(1),
        Kind::Not | Kind::Minus | Kind::Plus | Kind::TypeOf | Kind::Void => leaf(1),
        Kind::PreInc | Kind::PreDec | Kind::PostInc | Kind::PostDec => leaf(1),
        Kind::While | Kind::Comma | Kind::Index => leaf(2),
        Kind::Assign | Kind::AssignAdd | Kind::AssignSub => leaf(2),
        Kind::AssignMul | Kind::AssignDiv | Kind::AssignRem => leaf(2),
        Kind::Coalesce | Kind::Or | Kind::And | Kind::Same | Kind::NotSame => leaf(2),
        Kind::Less | Kind::More | Kind::AtMost | Kind::AtLeast => leaf(2),
        Kind::Add | Kind::Sub | Kind::Mul | Kind::Div | Kind::Rem => leaf(2),
        Kind::If | Kind::Cond => leaf(3),
        Kind::For => leaf(4),
        Kind::Script | Kind::Body | Kind::Block | Kind::Array => branch(
            Naming::Never,
            Amount::Exactly(0),
            Amount::AtLeast(0),
        ),
        Kind::Let | Kind::Const => branch(Naming::Never, Amount::AtLeast(1), Amount::OneAName),
        Kind::FunctionDecl => branch(Naming::Always, Amount::AtLeast(0), Amount::Exactly(1)),
        Kind::FunctionExpr => branch(Naming::Maybe, Amount::AtLeast(0), Amount::Exactly(1)),
        Kind::Arrow => branch(Naming::Never, Amount::AtLeast(0), Amount::Exactly(1)),
        Kind::Try => branch(Naming::Maybe, Amount::Exactly(0), Amount::Exactly(3)),
        Kind::Member => branch(Naming::Always, Amount::Exactly(0), Amount::Exactly(1)),
        Kind::Call => branch(Naming::Never, Amount::Exactly(0), Amount::AtLeast(1)),
        Kind::New => branch(Naming::Always, Amount::Exactly(0), Amount::AtLeast(0)),
        Kind::Text | Kind::Name => branch(Naming::Always, Amount::Exactly(0), Amount::Exactly(0)),
        Kind::Object => branch(Naming::Never, Amount::AtLeast(0), Amount::OneAName),
    }
}

/// Whether a node has the name, names, places and kids that its kind asks for.
pub(crate) fn is_formed(node: &Node) -> bool
    ensures { IsTrue result ↔ IsFormed node.now }
{
    let form = form_of(node.kind);
    let names = node.names.len();
    form.name.allows(&node.name)
        && form.names.allows(names, names)
        && form.kids.allows(names, node.kids.len())
        && node.places.len() == names
}
