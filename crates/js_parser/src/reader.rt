//! The tokens that are left, with one of them in view, and the forms that are open.

ghost use Rattle.std.specs.Prelude.{◌≡◌, ◌≤◌, length, drop};
ghost use Rattle.parser_rules.specs.Classes.{class_of};
ghost use Rattle.parser_rules.specs.Rules.{is_names, is_parameters, prefix_kind, operator_kind};

use crate::builder::Builder;
use crate::classes::{class_of, is_among, is_passing_word};
use ivm_text::NoMemory;
use js_lexer::{Token, TokenKind};
use js_syntax::Kind;
use parser_rules::{Class, Cover, Why};

/// Where reading stands.
#[derive(Drop)]
pub(crate) struct Reader<'a> {
    pub tokens: &'a [Token],
    /// How many tokens were taken.
    pub at: usize,
    /// The class of the token in view.
    pub class: Class,
    /// Why the token in view is refused, if it is: then nothing is read any more.
    pub refused: Option<Why>,
    pub builder: Builder,
    ghost within: { at ≤ length tokens.now },
    ghost in_view: { class ≡ class_of (drop at tokens.now) },
}

impl Reader<'_> {
    ghost use Rattle.std.specs.Prelude.{◌≡◌, ◌∷◌, [], true, ◌&&◌, not, None};
    ghost use Rattle.parser_rules.specs.Rules.{after};
    ghost use Rattle.parser_rules.specs.Work.{place_of};
    ghost use Rattle.parser_rules.specs.Rules.{Test, passes, passes_on, is_line, ends_statement, kind_passes, is_word_kind, is_key_kind, is_nonzero, is_passing, is_names, is_parameters, refused, sees, sees_other, sees_on_line, sees_word, sees_key, sees_nonzero, sees_passing, after_line, may_end, may_be_parameters, must_be_parameters, open_form, open_prefix, precede, precede_operator, close, pair, unwrap, name_it, declare, key, value, shorthand, offer, parameters_only, clear, omit, prefix_kind, operator_kind};
    ghost use Rattle.js_parser.specs.State.{state_of, rest_of, Acts, Takes};

    // ---- what is in view

    /// Whether the token in view is of a class.
    pub fn sees(&self, class: Class) -> bool
        ensures { result ≡ passes (sees (class ∷ [])) (state_of self.now) }
    {
        match self.refused {
            None => is_among(self.class, &[class]),
            Some(_) => false,
        }
    }

    /// Whether the token in view is of one of these classes.
    pub fn sees_any(&self, classes: &[Class]) -> bool
        ensures { result ≡ passes (sees classes.now) (state_of self.now) }
    {
        match self.refused {
            None => is_among(self.class, classes),
            Some(_) => false,
        }
    }

    /// Whether the token in view is of none of these classes.
    pub fn sees_other(&self, classes: &[Class]) -> bool
        ensures { result ≡ passes (sees_other classes.now) (state_of self.now) }
    {
        match self.refused {
            None => !is_among(self.class, classes),
            Some(_) => false,
        }
    }

    /// Whether the token in view is of one of these classes, and no line terminator stands before
    /// it.
    pub fn sees_on_line(&self, classes: &[Class]) -> bool
        ensures { result ≡ passes (sees_on_line classes.now) (state_of self.now) }
    {
        match self.refused {
            None => is_among(self.class, classes) & !self.is_line(),
            Some(_) => false,
        }
    }

    /// Whether the token in view is a word, reserved or not.
    pub fn sees_word(&self) -> bool
        ensures { result ≡ passes (sees_word) (state_of self.now) }
    {
        match self.refused {
            None => self.is_word(),
            Some(_) => false,
        }
    }

    /// Whether the token in view is a word, a string or a number.
    pub fn sees_key(&self) -> bool
        ensures { result ≡ passes (sees_key) (state_of self.now) }
    {
        match self.refused {
            None => self.is_key(),
            Some(_) => false,
        }
    }

    /// Whether the token in view is a number, and not 0.
    pub fn sees_nonzero(&self) -> bool
        ensures { result ≡ passes (sees_nonzero) (state_of self.now) }
    {
        match self.refused {
            None => self.is_nonzero(),
            Some(_) => false,
        }
    }

    /// Whether the token in view is a word that says what an argument passes.
    pub fn sees_passing(&self) -> bool
        ensures { result ≡ passes (sees_passing) (state_of self.now) }
    {
        match self.refused {
            None => self.is_passing(),
            Some(_) => false,
        }
    }

    /// Whether a line terminator stands before the token in view.
    pub fn after_line(&self) -> bool
        ensures { result ≡ passes (after_line) (state_of self.now) }
    {
        match self.refused {
            None => self.is_line(),
            Some(_) => false,
        }
    }

    /// Whether a statement may end here without a `;`.
    pub fn may_end(&self) -> bool
        ensures { result ≡ passes (may_end) (state_of self.now) }
    {
        match self.refused {
            None => is_among(self.class, &[Class::BraceClose, Class::End]) | self.is_line(),
            Some(_) => false,
        }
    }

    /// Whether what was read behind a `(` may be parameters.
    pub fn may_be_parameters(&self) -> bool
        ensures { result ≡ passes (may_be_parameters) (state_of self.now) }
    {
        match self.refused {
            None => names_alone(self.builder.top.cover),
            Some(_) => false,
        }
    }

    /// Whether what was read behind a `(` can only be parameters.
    pub fn must_be_parameters(&self) -> bool
        ensures { result ≡ passes (must_be_parameters) (state_of self.now) }
    {
        match self.refused {
            None => parameters_alone(self.builder.top.cover),
            Some(_) => false,
        }
    }

    fn is_line(&self) -> bool
        ensures { result ≡ is_line (rest_of self.now) }
    {
        match behind(self.tokens, self.at) {
            [token, ..] => token.after_line,
            [] => false,
        }
    }

    fn is_word(&self) -> bool
        ensures { result ≡ kind_passes is_word_kind (rest_of self.now) }
    {
        match behind(self.tokens, self.at) {
            [token, ..] => match token.kind {
                TokenKind::Word => true,
                _ => false,
            },
            [] => false,
        }
    }

    fn is_key(&self) -> bool
        ensures { result ≡ kind_passes is_key_kind (rest_of self.now) }
    {
        match behind(self.tokens, self.at) {
            [token, ..] => match token.kind {
                TokenKind::Punct => false,
                _ => true,
            },
            [] => false,
        }
    }

    fn is_nonzero(&self) -> bool
        ensures { result ≡ is_nonzero (rest_of self.now) }
    {
        match behind(self.tokens, self.at) {
            [token, ..] => match token.kind {
                TokenKind::Num => token.number != 0,
                _ => false,
            },
            [] => false,
        }
    }

    fn is_passing(&self) -> bool
        ensures { result ≡ is_passing (rest_of self.now) }
    {
        match behind(self.tokens, self.at) {
            [token, ..] => match token.kind {
                TokenKind::Word => is_passing_word(&token.text),
                _ => false,
            },
            [] => false,
        }
    }

    /// The byte at which the token in view stands.
    fn place(&self) -> u32
        ensures { result ≡ place_of (rest_of self.now) }
    {
        match behind(self.tokens, self.at) {
            [token, ..] => token.place,
            [] => 0,
        }
    }

    // ---- tokens

    /// Takes the token in view, where it passed a test.
    fn take_where(&mut self, passed: bool)
        ensures { (test : Test) → passed ≡ passes test (state_of self.old) → Takes test self.old self.new }
    {
        match self.refused {
            None => self.take_next(passed),
            Some(_) => (),
        }
    }

    fn take_next(&mut self, passed: bool)
        requires { self.old.refused ≡ None }
        ensures { (test : Test) → passed ≡ passes test (state_of self.old) → Takes test self.old self.new }
    {
        let more = self.at < self.tokens.len();
        if passed & more {
            self.at += 1;
            self.class = class_of(behind(self.tokens, self.at));
        } else {
            self.refused = Some(Why::Unexpected);
        }
    }

    /// Takes the token in view, which has to be of this class.
    pub fn take(&mut self, class: Class)
        ensures { Takes (sees (class ∷ [])) self.old self.new }
    {
        let passed = self.sees(class);
        self.take_where(passed);
    }

    /// Takes the token in view, which has to be of one of these classes.
    pub fn take_any(&mut self, classes: &[Class])
        ensures { Takes (sees classes.now) self.old self.new }
    {
        let passed = self.sees_any(classes);
        self.take_where(passed);
    }

    /// Takes the token in view, which has to be of one of these classes, on the line of the token
    /// before it.
    pub fn take_on_line(&mut self, classes: &[Class])
        ensures { Takes (sees_on_line classes.now) self.old self.new }
    {
        let passed = self.sees_on_line(classes);
        self.take_where(passed);
    }

    /// Takes the token in view, which has to be a word.
    pub fn take_word(&mut self)
        ensures { Takes (sees_word) self.old self.new }
    {
        let passed = self.sees_word();
        self.take_where(passed);
    }

    /// Takes the token in view, which has to be a word, a string or a number.
    pub fn take_key(&mut self)
        ensures { Takes (sees_key) self.old self.new }
    {
        let passed = self.sees_key();
        self.take_where(passed);
    }

    /// Takes the token in view, which has to be a number, and not 0.
    pub fn take_nonzero(&mut self)
        ensures { Takes (sees_nonzero) self.old self.new }
    {
        let passed = self.sees_nonzero();
        self.take_where(passed);
    }

    /// Takes the token in view, which has to be a word that says what an argument passes.
    pub fn take_passing(&mut self)
        ensures { Takes (sees_passing) self.old self.new }
    {
        let passed = self.sees_passing();
        self.take_where(passed);
    }

    /// The token in view cannot stand here.
    pub fn refuse(&mut self)
        ensures { state_of self.new ≡ refused (state_of self.old) }
    {
        match self.refused {
            None => self.refused = Some(Why::Unexpected),
            Some(_) => (),
        }
    }

    // ---- forms

    /// A form of a kind begins at the token in view.
    pub fn open(&mut self, kind: Kind) -> Result<(), NoMemory>
        ensures { Acts (open_form kind) result self.old self.new }
    {
        match self.refused {
            None => {
                let place = self.place();
                self.builder.open(kind, place)
            }
            Some(_) => Ok(()),
        }
    }

    /// A form begins whose kind is that of the operator in view.
    pub fn open_prefix(&mut self) -> Result<(), NoMemory>
        ensures { Acts (open_prefix) result self.old self.new }
    {
        match self.refused {
            None => {
                let place = self.place();
                self.builder.open(prefix_kind(self.class), place)
            }
            Some(_) => Ok(()),
        }
    }

    /// A form of a kind begins with the part that was read last.
    pub fn precede(&mut self, kind: Kind) -> Result<(), NoMemory>
        ensures { Acts (precede kind) result self.old self.new }
    {
        match self.refused {
            None => self.builder.precede(kind),
            Some(_) => Ok(()),
        }
    }

    /// A form begins with the part that was read last; its kind is that of the operator in view.
    pub fn precede_operator(&mut self) -> Result<(), NoMemory>
        ensures { Acts (precede_operator) result self.old self.new }
    {
        match self.refused {
            None => self.builder.precede(operator_kind(self.class)),
            Some(_) => Ok(()),
        }
    }

    /// The innermost form is whole.
    pub fn close(&mut self) -> Result<(), NoMemory>
        ensures { Acts (close) result self.old self.new }
    {
        match self.refused {
            None => self.builder.close(),
            Some(_) => Ok(()),
        }
    }

    /// The last two parts are one node.
    pub fn pair(&mut self, kind: Kind) -> Result<(), NoMemory>
        ensures { Acts (pair kind) result self.old self.new }
    {
        match self.refused {
            None => self.builder.pair(kind),
            Some(_) => Ok(()),
        }
    }

    /// The innermost form was only parentheses.
    pub fn unwrap(&mut self) -> Result<(), NoMemory>
        ensures { Acts (unwrap) result self.old self.new }
    {
        match self.refused {
            None => self.builder.unwrap(),
            Some(_) => Ok(()),
        }
    }

    /// The value of the last key is the name that the key is.
    pub fn shorthand(&mut self) -> Result<(), NoMemory>
        ensures { Acts (shorthand) result self.old self.new }
    {
        match self.refused {
            None => self.builder.shorthand(),
            Some(_) => Ok(()),
        }
    }

    /// The part read last may be a parameter.
    pub fn offer(&mut self) -> Result<(), NoMemory>
        ensures { Acts (offer) result self.old self.new }
    {
        match self.refused {
            None => self.builder.offer(),
            Some(_) => Ok(()),
        }
    }

    /// Something is left out.
    pub fn omit(&mut self) -> Result<(), NoMemory>
        ensures { Acts (omit) result self.old self.new }
    {
        match self.refused {
            None => self.builder.omit(),
            Some(_) => Ok(()),
        }
    }

    /// Nothing but parameters stand in the parentheses.
    pub fn parameters_only(&mut self)
        ensures { state_of self.new ≡ after parameters_only (state_of self.old) }
    {
        match self.refused {
            None => self.builder.only_parameters(),
            Some(_) => (),
        }
    }

    /// The parameters are no parts of the arrow function.
    pub fn clear(&mut self)
        ensures { state_of self.new ≡ after clear (state_of self.old) }
    {
        match self.refused {
            None => self.builder.clear(),
            Some(_) => (),
        }
    }

    /// The form has the name that is in view.
    pub fn name_it(&mut self) -> Result<(), NoMemory>
        ensures { Acts name_it result self.old self.new }
    {
        match self.refused {
            None => {
                let rest = behind(self.tokens, self.at);
                self.builder.name_by(rest)
            }
            Some(_) => Ok(()),
        }
    }

    /// The form has one more name, the one in view.
    pub fn declare(&mut self) -> Result<(), NoMemory>
        ensures { Acts declare result self.old self.new }
    {
        match self.refused {
            None => {
                let rest = behind(self.tokens, self.at);
                self.builder.declare_by(rest)
            }
            Some(_) => Ok(()),
        }
    }

    /// The form has one more key, the one in view.
    pub fn key(&mut self) -> Result<(), NoMemory>
        ensures { Acts key result self.old self.new }
    {
        match self.refused {
            None => {
                let rest = behind(self.tokens, self.at);
                self.builder.key_by(rest)
            }
            Some(_) => Ok(()),
        }
    }

    /// The form has the value that is in view.
    pub fn value(&mut self) -> Result<(), NoMemory>
        ensures { Acts value result self.old self.new }
    {
        match self.refused {
            None => {
                let rest = behind(self.tokens, self.at);
                self.builder.value_by(rest)
            }
            Some(_) => Ok(()),
        }
    }
}

/// The tokens from a place on.
pub(crate) fn behind(tokens: &[Token], at: usize) -> &[Token]
    requires { at ≤ length tokens.now }
    ensures { result.now ≡ drop at tokens.now }
{
    &tokens[at..]
}

fn names_alone(cover: Cover) -> bool
    ensures { result ≡ is_names cover }
{
    match cover {
        Cover::Names => true,
        _ => false,
    }
}

fn parameters_alone(cover: Cover) -> bool
    ensures { result ≡ is_parameters cover }
{
    match cover {
        Cover::Parameters => true,
        _ => false,
    }
}

fn prefix_kind(class: Class) -> Kind
    ensures { result ≡ prefix_kind class }
{
    match class {
        Class::Not => Kind::Not,
        Class::Minus => Kind::Minus,
        Class::Plus => Kind::Plus,
        Class::TypeOf => Kind::TypeOf,
        Class::Void => Kind::Void,
        Class::PlusPlus => Kind::PreInc,
        Class::MinusMinus => Kind::PreDec,
        _ => Kind::Absent,
    }
}

fn operator_kind(class: Class) -> Kind
    ensures { result ≡ operator_kind class }
{
    match class {
        Class::Equals => Kind::Assign,
        Class::PlusEquals => Kind::AssignAdd,
        Class::MinusEquals => Kind::AssignSub,
        Class::TimesEquals => Kind::AssignMul,
        Class::OverEquals => Kind::AssignDiv,
        Class::PercentEquals => Kind::AssignRem,
        Class::Coalesce => Kind::Coalesce,
        Class::OrOr => Kind::Or,
        Class::AndAnd => Kind::And,
        Class::Same => Kind::Same,
        Class::NotSame => Kind::NotSame,
        Class::Less => Kind::Less,
        Class::More => Kind::More,
        Class::AtMost => Kind::AtMost,
        Class::AtLeast => Kind::AtLeast,
        Class::Plus => Kind::Add,
        Class::Minus => Kind::Sub,
        Class::Times => Kind::Mul,
        Class::Over => Kind::Div,
        Class::Percent => Kind::Rem,
        Class::PlusPlus => Kind::PostInc,
        Class::MinusMinus => Kind::PostDec,
        _ => Kind::Absent,
    }
}
