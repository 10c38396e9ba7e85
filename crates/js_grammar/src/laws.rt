//! That the grammar by cases and the table of rules are one grammar.
ghost use Rattle.parser_rules.specs.Literals.{arguments_text, literal_text};
ghost use Rattle.parser_rules.specs.Statements.{script};
ghost use Rattle.js_grammar.specs.Derives.{ArgumentsBy, Derives, DerivesArguments, DerivesLiteral, LiteralBy, ScriptBy};
ghost use Rattle.js_grammar.specs.Exactly.{IsSameGrammar};
ghost use Rattle.js_grammar.specs.FirstBad.{HasFirstBad, HasOneRefusal};

/// Tokens are a script with a tree, where so many levels may be open, exactly where the table's
/// rule accepts them with that tree; it refuses exactly those that have none. More levels take no
/// tree away, and tokens have at most one tree, however many levels may be open.
pub fn scripts_derive()
    ensures { IsSameGrammar script Derives }
{}

/// The same of texts of one literal.
pub fn literals_derive()
    ensures { IsSameGrammar literal_text DerivesLiteral }
{}

/// The same of texts of arguments, maybe none.
pub fn arguments_derive()
    ensures { IsSameGrammar arguments_text DerivesArguments }
{}

/// Wherever the table's rule for scripts stands, it stands at the first bad token: the tokens
/// derive no tree, some script begins with those before it, within so many levels, and with it none
/// does, save that a `new` may be left out of the profile, and that a token may be open to more
/// levels than there may be.
pub fn scripts_have_a_first_bad_token()
    ensures { HasFirstBad script ScriptBy }
{}

/// The same of texts of one literal.
pub fn literals_have_a_first_bad_token()
    ensures { HasFirstBad literal_text LiteralBy }
{}

/// The same of texts of arguments, maybe none.
pub fn arguments_have_a_first_bad_token()
    ensures { HasFirstBad arguments_text ArgumentsBy }
{}

/// Tokens derive the tree of a script or have one first bad token, for one reason, and never both.
pub fn scripts_have_one_refusal()
    ensures { HasOneRefusal ScriptBy }
{}

/// The same of texts of one literal.
pub fn literals_have_one_refusal()
    ensures { HasOneRefusal LiteralBy }
{}

/// The same of texts of arguments, maybe none.
pub fn arguments_have_one_refusal()
    ensures { HasOneRefusal ArgumentsBy }
{}
