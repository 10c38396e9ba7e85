//! The class of the token in view.

ghost use Rattle.std.specs.Prelude.{◌≡◌, List, map};
ghost use Rattle.std.specs.List.{list_any};
ghost use Rattle.std.specs.Str.{bytes_eq};
ghost use Rattle.parser_rules.specs.Classes.{class_of, class_in, is_among, is_word_token, is_punct_token, begins_construction, word_class, token_class, words, foreign_words, constructors, punctuators, code, is_one_of};
ghost use Rattle.parser_rules.specs.Rules.{passing_words};
ghost use Rattle.js_parser.specs.Tables.{entries};

use ivm_text::Units;
use js_lexer::{Token, TokenKind};
use parser_rules::Class;

const WORDS: [(&[u8], Class); 21] = [
    (b"let", Class::Let),
    (b"const", Class::Const),
    (b"function", Class::Function),
    (b"if", Class::If),
    (b"else", Class::Else),
    (b"while", Class::While),
    (b"for", Class::For),
    (b"break", Class::Break),
    (b"continue", Class::Continue),
    (b"return", Class::Return),
    (b"throw", Class::Throw),
    (b"try", Class::Try),
    (b"catch", Class::Catch),
    (b"finally", Class::Finally),
    (b"typeof", Class::TypeOf),
    (b"void", Class::Void),
    (b"this", Class::This),
    (b"undefined", Class::Undefined),
    (b"null", Class::Null),
    (b"true", Class::True),
    (b"false", Class::False),
];

const FOREIGN_WORDS: [&[u8]; 27] = [
    b"arguments",
    b"eval",
    b"case",
    b"class",
    b"debugger",
    b"default",
    b"delete",
    b"do",
    b"enum",
    b"export",
    b"extends",
    b"implements",
    b"import",
    b"in",
    b"instanceof",
    b"interface",
    b"package",
    b"private",
    b"protected",
    b"public",
    b"static",
    b"super",
    b"switch",
    b"var",
    b"with",
    b"yield",
    b"new",
];

const CONSTRUCTORS: [&[u8]; 8] = [
    b"Error",
    b"TypeError",
    b"RangeError",
    b"ReferenceError",
    b"SyntaxError",
    b"Promise",
    b"Reference",
    b"ExternalCopy",
];

const PASSING_WORDS: [&[u8]; 5] = [b"ref", b"deref", b"copy", b"into", b"callback"];

const PUNCTUATORS: [(&[u8], Class); 35] = [
    (b"{", Class::BraceOpen),
    (b"}", Class::BraceClose),
    (b"(", Class::ParenOpen),
    (b")", Class::ParenClose),
    (b"[", Class::BracketOpen),
    (b"]", Class::BracketClose),
    (b".", Class::Dot),
    (b";", Class::Semicolon),
    (b",", Class::Comma),
    (b"<", Class::Less),
    (b">", Class::More),
    (b"<=", Class::AtMost),
    (b">=", Class::AtLeast),
    (b"===", Class::Same),
    (b"!==", Class::NotSame),
    (b"+", Class::Plus),
    (b"-", Class::Minus),
    (b"*", Class::Times),
    (b"/", Class::Over),
    (b"%", Class::Percent),
    (b"++", Class::PlusPlus),
    (b"--", Class::MinusMinus),
    (b"!", Class::Not),
    (b"&&", Class::AndAnd),
    (b"||", Class::OrOr),
    (b"??", Class::Coalesce),
    (b"?", Class::Question),
    (b":", Class::Colon),
    (b"=", Class::Equals),
    (b"+=", Class::PlusEquals),
    (b"-=", Class::MinusEquals),
    (b"*=", Class::TimesEquals),
    (b"/=", Class::OverEquals),
    (b"%=", Class::PercentEquals),
    (b"=>", Class::Arrow),
];

/// The class of the first of these tokens.
#[tactic(auto, unfolding(parser_rules::specs::Classes::class_of))]
pub(crate) fn class_of(tokens: &[Token]) -> Class
    ensures { result ≡ class_of tokens.now }
{
    match tokens {
        [] => Class::End,
        [token, after @ ..] => match token.kind {
            TokenKind::Word => word_class(&token.text, after),
            TokenKind::Punct => class_in_punctuators(&token.text),
            TokenKind::Num => Class::Num,
            TokenKind::Text => Class::Text,
        },
    }
}

fn word_class(word: &Units, after: &[Token]) -> Class
    ensures { result ≡ word_class word.now after.now }
{
    if !is_foreign(word) {
        return class_in_words(word);
    }
    if spells(word, b"new") && begins_construction(after) {
        Class::New
    } else {
        Class::Foreign
    }
}

fn begins_construction(tokens: &[Token]) -> bool
    ensures { result ≡ begins_construction tokens.now }
{
    match tokens {
        [name, open, ..] => {
            is_word(name)
                && is_constructor(&name.text)
                && is_punctuator(open)
                && spells(&open.text, b"(")
        }
        _ => false,
    }
}

fn is_word(token: &Token) -> bool
    ensures { result ≡ is_word_token token.now.kind }
{
    match token.kind {
        TokenKind::Word => true,
        _ => false,
    }
}

fn is_punctuator(token: &Token) -> bool
    ensures { result ≡ is_punct_token token.now.kind }
{
    match token.kind {
        TokenKind::Punct => true,
        _ => false,
    }
}

#[tactic(auto, unfolding(parser_rules::specs::Classes::foreign_words))]
fn is_foreign(word: &Units) -> bool
    ensures { result ≡ is_among foreign_words word.now }
{
    is_one_of(word, &FOREIGN_WORDS)
}

#[tactic(auto, unfolding(parser_rules::specs::Classes::constructors))]
fn is_constructor(word: &Units) -> bool
    ensures { result ≡ is_among constructors word.now }
{
    is_one_of(word, &CONSTRUCTORS)
}

/// Whether the word says what an argument passes.
#[tactic(auto, unfolding(parser_rules::specs::Rules::passing_words))]
pub(crate) fn is_passing_word(word: &Units) -> bool
    ensures { result ≡ is_among passing_words word.now }
{
    is_one_of(word, &PASSING_WORDS)
}

fn is_one_of(word: &Units, words: &[&[u8]]) -> bool
    ensures { result ≡ list_any (λ w. bytes_eq w.now word.now) words.now }
{
    for other in words {
        if spells(word, other) {
            return true;
        }
    }
    false
}

#[tactic(auto, unfolding(parser_rules::specs::Classes::words))]
fn class_in_words(word: &Units) -> Class
    ensures { result ≡ class_in words word.now Class.Name }
{
    class_in(&WORDS, word, Class::Name)
}

#[tactic(auto, unfolding(parser_rules::specs::Classes::punctuators))]
fn class_in_punctuators(text: &Units) -> Class
    ensures { result ≡ class_in punctuators text.now Class.Foreign }
{
    class_in(&PUNCTUATORS, text, Class::Foreign)
}

fn class_in(table: &[(&[u8], Class)], text: &Units, other: Class) -> Class
    ensures { result ≡ class_in (entries table.now) text.now other }
{
    for (spelling, class) in table {
        if spells(text, spelling) {
            return *class;
        }
    }
    other
}

/// Whether a word consists of these bytes, each as one code unit.
pub fn spells(text: &Units, bytes: &[u8]) -> bool
    ensures { result ≡ bytes_eq bytes.now text.now }
{
    if text.len() != bytes.len() {
        return false;
    }
    for place in 0..bytes.len() {
        if text.get(place) != Some(bytes[place] as u16) {
            return false;
        }
    }
    true
}

/// Whether the class is among these.
pub(crate) fn is_among(class: Class, classes: &[Class]) -> bool
    ensures { result ≡ is_one_of class classes.now }
{
    classes
        .iter()
        .any(|other| code_of(class) == code_of(*other))
}

pub(crate) fn code_of(class: Class) -> u8
    ensures { result ≡ code class }
{
    class as u8
}
