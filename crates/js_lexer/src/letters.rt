//! What a character can be in a script's text.

ghost use Rattle.std.specs.Prelude.{◌≡◌};
ghost use Rattle.js_lexer.specs.Letters.{is_line, is_white, is_digit, starts_word, continues_word, begin_of, begins_digit};

/// What a character can begin.
#[derive(Clone, Copy, Drop)]
pub(crate) enum Begin {
    Line,
    White,
    Slash,
    Word,
    Digit,
    Quote,
    Mark,
}

pub(crate) fn ends_line(c: char) -> bool
    ensures { result ≡ is_line c }
{
    c == '\n' || c == '\r' || c == '\u{2028}' || c == '\u{2029}'
}

fn is_space(c: char) -> bool
    ensures { result ≡ is_white c }
{
    c == '\t'
        || c == '\u{B}'
        || c == '\u{C}'
        || c == ' '
        || c == '\u{A0}'
        || c == '\u{1680}'
        || (c >= '\u{2000}' && c <= '\u{200A}')
        || c == '\u{202F}'
        || c == '\u{205F}'
        || c == '\u{3000}'
        || c == '\u{FEFF}'
}

pub(crate) fn digit(c: char) -> bool
    ensures { result ≡ is_digit c }
{
    c >= '0' && c <= '9'
}

pub(crate) fn word_start(c: char) -> bool
    ensures { result ≡ starts_word c }
{
    unicode_ident::is_xid_start(c) || c == '$' || c == '_'
}

pub(crate) fn word_part(c: char) -> bool
    ensures { result ≡ continues_word c }
{
    unicode_ident::is_xid_continue(c) || c == '$' || c == '\u{200C}' || c == '\u{200D}'
}

pub(crate) fn beginning(c: char) -> Begin
    ensures { result ≡ begin_of c }
{
    if ends_line(c) {
        Begin::Line
    } else if is_space(c) {
        Begin::White
    } else if c == '/' {
        Begin::Slash
    } else if word_start(c) {
        Begin::Word
    } else if digit(c) {
        Begin::Digit
    } else if c == '\'' || c == '"' {
        Begin::Quote
    } else {
        Begin::Mark
    }
}

pub(crate) fn digit_first(text: &[char]) -> bool
    ensures { result ≡ begins_digit text.now }
{
    match text {
        [c, ..] => digit(*c),
        [] => false,
    }
}
