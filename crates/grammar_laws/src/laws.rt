//! That each node of a tree of the grammar has what its kind asks for.
ghost use Rattle.js_grammar.specs.Derives.{Derives, DerivesArguments, DerivesLiteral};
ghost use Rattle.grammar_laws.specs.Formed.{GivesFormed};

/// In the tree of a script, however many levels may be open, each node has the name, the names and
/// the parts that its kind asks for, and a place for each of its names.
pub fn scripts_are_formed()
    ensures { GivesFormed Derives }
{}

/// The same of texts of one literal.
pub fn literals_are_formed()
    ensures { GivesFormed DerivesLiteral }
{}

/// The same of texts of arguments, maybe none.
pub fn arguments_are_formed()
    ensures { GivesFormed DerivesArguments }
{}
