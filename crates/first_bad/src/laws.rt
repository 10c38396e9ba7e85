//! At which token a text is refused.
ghost use Rattle.parser_rules.specs.Literals.{arguments_text, literal_text};
ghost use Rattle.parser_rules.specs.Statements.{script};
ghost use Rattle.first_bad.specs.FirstBad.{HasOneRefusal, StandsAtFirstBad};

/// Where reading a script stands, it stands at the first bad token.
pub fn scripts_stand_at_first_bad()
    ensures { StandsAtFirstBad script }
{}

/// The same of the text of one literal.
pub fn literals_stand_at_first_bad()
    ensures { StandsAtFirstBad literal_text }
{}

/// The same of a text of arguments.
pub fn arguments_stand_at_first_bad()
    ensures { StandsAtFirstBad arguments_text }
{}

/// Tokens are read as a script, or have one first bad token, for one reason.
pub fn scripts_are_read_or_refused_once()
    ensures { HasOneRefusal script }
{}

/// The same of the text of one literal.
pub fn literals_are_read_or_refused_once()
    ensures { HasOneRefusal literal_text }
{}

/// The same of a text of arguments.
pub fn arguments_are_read_or_refused_once()
    ensures { HasOneRefusal arguments_text }
{}
