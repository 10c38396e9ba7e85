//! Where no level is left, and where a token is refused.

ghost use Rattle.std.specs.Prelude.{◌≡◌, IfOk, IfSome, None, if◌then◌else◌};
ghost use Rattle.parser_rules.specs.Classes.{is_one_of};
ghost use Rattle.parser_rules.specs.Grammar.{begins, beyond, kind_of, word_of, refusal_at};
ghost use Rattle.js_parser.specs.State.{state_of, rest_of};

use crate::builder::first;
use crate::classes::is_among;
use crate::reader::{Reader, behind};
use ivm_text::{CloneWhole, NoMemory, Refusal, RefusalKind, Units};
use parser_rules::{Class, Form, Why};
use std::alloc::Global;

const EXPRESSION: [Class; 20] = [
    Class::Name,
    Class::Num,
    Class::Text,
    Class::Function,
    Class::This,
    Class::Undefined,
    Class::Null,
    Class::True,
    Class::False,
    Class::New,
    Class::BraceOpen,
    Class::ParenOpen,
    Class::BracketOpen,
    Class::Not,
    Class::Minus,
    Class::Plus,
    Class::TypeOf,
    Class::Void,
    Class::PlusPlus,
    Class::MinusMinus,
];

const PREFIX: [Class; 7] = [
    Class::Not,
    Class::Minus,
    Class::Plus,
    Class::TypeOf,
    Class::Void,
    Class::PlusPlus,
    Class::MinusMinus,
];

const STATEMENT: [Class; 28] = [
    Class::Semicolon,
    Class::BraceOpen,
    Class::If,
    Class::While,
    Class::For,
    Class::Break,
    Class::Continue,
    Class::Return,
    Class::Throw,
    Class::Try,
    Class::Name,
    Class::Num,
    Class::Text,
    Class::This,
    Class::Undefined,
    Class::Null,
    Class::True,
    Class::False,
    Class::New,
    Class::ParenOpen,
    Class::BracketOpen,
    Class::Not,
    Class::Minus,
    Class::Plus,
    Class::TypeOf,
    Class::Void,
    Class::PlusPlus,
    Class::MinusMinus,
];

const ITEM: [Class; 31] = [
    Class::Let,
    Class::Const,
    Class::Function,
    Class::Semicolon,
    Class::BraceOpen,
    Class::If,
    Class::While,
    Class::For,
    Class::Break,
    Class::Continue,
    Class::Return,
    Class::Throw,
    Class::Try,
    Class::Name,
    Class::Num,
    Class::Text,
    Class::This,
    Class::Undefined,
    Class::Null,
    Class::True,
    Class::False,
    Class::New,
    Class::ParenOpen,
    Class::BracketOpen,
    Class::Not,
    Class::Minus,
    Class::Plus,
    Class::TypeOf,
    Class::Void,
    Class::PlusPlus,
    Class::MinusMinus,
];

const LITERAL: [Class; 9] = [
    Class::Num,
    Class::Text,
    Class::Undefined,
    Class::Null,
    Class::True,
    Class::False,
    Class::Minus,
    Class::BracketOpen,
    Class::BraceOpen,
];

/// What begins the form is too deep, and all else cannot stand here.
pub(crate) fn stop_beyond(reader: &mut Reader<'_>, form: Form)
    ensures { state_of reader.new ≡ beyond form (state_of reader.old) }
{
    match reader.refused {
        None => reader.refused = Some(refused_at_limit(form, reader.class)),
        Some(_) => (),
    }
}

fn refused_at_limit(form: Form, class: Class) -> Why
    ensures { result ≡ (if is_one_of class (begins form) then Why.TooDeep else Why.Unexpected) }
{
    if may_begin(form, class) {
        Why::TooDeep
    } else {
        Why::Unexpected
    }
}

/// Whether a form may begin with a token of this class.
fn may_begin(form: Form, class: Class) -> bool
    ensures { result ≡ is_one_of class (begins form) }
{
    match form {
        Form::Expression => is_among(class, &EXPRESSION),
        Form::Prefix => is_among(class, &PREFIX),
        Form::Statement => is_among(class, &STATEMENT),
        Form::Item => is_among(class, &ITEM),
        Form::Block => is_among(class, &[Class::BraceOpen]),
        Form::Literal => is_among(class, &LITERAL),
    }
}

/// The refusal at the token in view, or at the end of a text of so many bytes.
pub(crate) fn refusal(
    alloc: Global,
    reader: &Reader<'_>,
    why: Why,
    end: u32,
) -> Result<Refusal, NoMemory>
    ensures { IfOk result (λ refusal. refusal ≡ refusal_at end why (rest_of reader.now)) }
{
    match first(behind(reader.tokens, reader.at)) {
        Some(token) => Ok(Refusal {
            kind: kind_of(why, reader.class),
            place: token.place,
            word: word_of(alloc, reader.class, &token.text)?,
        }),
        None => Ok(Refusal {
            kind: kind_of(why, Class::End),
            place: end,
            word: None,
        }),
    }
}

fn kind_of(why: Why, class: Class) -> RefusalKind
    ensures { result ≡ kind_of why class }
{
    match class {
        Class::Foreign => RefusalKind::OutOfProfile,
        _ => match why {
            Why::TooDeep => RefusalKind::TooDeep,
            Why::Unexpected => RefusalKind::Unexpected,
        },
    }
}

fn word_of(alloc: Global, class: Class, text: &Units) -> Result<Option<Units>, NoMemory>
    ensures { IfOk result (λ word. word ≡ word_of class text.now) }
{
    match class {
        Class::Foreign => Ok(Some(text.clone_whole(alloc)?)),
        _ => Ok(None),
    }
}
