//! What the definitions of bytes and tokens come to, in the words of Unicode and ECMA-262.
ghost use Rattle.std.specs.Prelude.{ℕ, List};
ghost use Rattle.ivm_text.specs.Text.{fault_place};
ghost use Rattle.js_lexer.specs.Letters.{Text};
ghost use Rattle.lexer_laws.specs.Comments.{CommentEnds};
ghost use Rattle.lexer_laws.specs.Escapes.{IsEscapeThere};
ghost use Rattle.lexer_laws.specs.FirstFault.{IsFirstFault};
ghost use Rattle.lexer_laws.specs.Numerals.{IsNumberThere};

/// A block comment goes from behind its `/*` to the first `*/`, and without one it has no end. A
/// line terminator is in it exactly where one stands before that `*/`.
pub fn comments_end()
    ensures { (text : Text) → CommentEnds text }
{}

/// Where a digit stands, a number is read exactly where a literal of the profile stands there whose
/// value is at most 2^53 - 1, and nothing that may not stand at once behind it; it is the value of
/// that literal.
pub fn numbers_stand()
    ensures { (c : ℕ) (text : Text) → IsNumberThere c text }
{}

/// Behind a backslash in a string an escape is read exactly where one of the profile's stands
/// there; it stands for what that one stands for.
pub fn escapes_stand()
    ensures { (c : ℕ) (text : Text) → IsEscapeThere c text }
{}

/// The place that `from_utf8`, `text_of` and `lex` tell of bytes that are no UTF-8: a text could
/// have all the bytes before it, and none could have the byte at it too. It is the number of the
/// bytes where they only end too early.
pub fn fault_is_first()
    ensures { (bytes : List ℕ) → IsFirstFault bytes (fault_place bytes) }
{}
