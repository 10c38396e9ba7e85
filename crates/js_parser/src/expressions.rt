//! Expressions, and the parameters of arrow functions.

use crate::grammar::Grammar;
use crate::reader::Reader;
use ivm_text::NoMemory;
use js_syntax::Kind;
use parser_rules::{Class, Form};

const PREFIX: &[Class] = &[
    Class::Not,
    Class::Minus,
    Class::Plus,
    Class::TypeOf,
    Class::Void,
    Class::PlusPlus,
    Class::MinusMinus,
];

impl<F: Fn(&mut Reader<'_>, u32, Form) -> Result<(), NoMemory>> Grammar<F> {
    ghost use Rattle.std.specs.Prelude.{[], ◌∷◌};
    ghost use Rattle.parser_rules.specs.declared.class.Class.TheVariants as classes;
    ghost use Rattle.parser_rules.specs.Rules.{either, many, sees, sees_on_line, may_be_parameters};
    ghost use Rattle.parser_rules.specs.Expressions.{assignment, behind_items, behind_names, covered, expression, further_item, further_name, items, named_arrow, named_first, offered_item, prefix_first, primary_first, some_items, unwrapped_first};
    ghost use Rattle.js_parser.specs.State.{Runs};
    ghost use Rattle.js_parser.specs.Nests.{Nests};

    /// A further expression behind a `(`.
    #[tactic(auto, unfolding(parser_rules::specs::Expressions::offered_item))]
    pub fn offered_item(&self, reader: &mut Reader<'_>) -> Result<(), NoMemory>
        requires { Nests self.now.levels (F.pre self.now.inside) (F.post self.now.inside) }
        ensures { Runs self.now.levels offered_item result reader.old reader.new }
    {
        self.inside(reader, Form::Expression)?;
        reader.offer()?;
        reader.pair(Kind::Comma)
    }

    /// What may follow names and a `,`: the `)`, or an expression.
    #[tactic(auto, unfolding(parser_rules::specs::Expressions::further_name))]
    pub fn further_name(&self, reader: &mut Reader<'_>) -> Result<(), NoMemory>
        requires { Nests self.now.levels (F.pre self.now.inside) (F.post self.now.inside) }
        ensures { Runs self.now.levels further_name result reader.old reader.new }
    {
        if reader.sees(Class::ParenClose) {
            reader.parameters_only();
            Ok(())
        } else {
            self.offered_item(reader)
        }
    }

    /// What may follow a `,` behind a `(`.
    pub fn behind_comma(&self, reader: &mut Reader<'_>) -> Result<(), NoMemory>
        requires { Nests self.now.levels (F.pre self.now.inside) (F.post self.now.inside) }
        ensures { Runs self.now.levels (either may_be_parameters further_name offered_item) result reader.old reader.new }
    {
        if reader.may_be_parameters() {
            self.further_name(reader)
        } else {
            self.offered_item(reader)
        }
    }

    /// A `,` and what follows it behind a `(`.
    #[tactic(auto, unfolding(parser_rules::specs::Expressions::further_item))]
    pub fn further_item(&self, reader: &mut Reader<'_>) -> Result<(), NoMemory>
        requires { Nests self.now.levels (F.pre self.now.inside) (F.post self.now.inside) }
        ensures { Runs self.now.levels further_item result reader.old reader.new }
    {
        reader.take(Class::Comma);
        self.behind_comma(reader)
    }

    /// Further expressions behind a `(`.
    pub fn further_items(&self, reader: &mut Reader<'_>) -> Result<(), NoMemory>
        requires { Nests self.now.levels (F.pre self.now.inside) (F.post self.now.inside) }
        ensures { Runs self.now.levels (many (sees (classes.Comma ∷ [])) further_item) result reader.old reader.new }
    {
        while reader.sees(Class::Comma) {
            self.further_item(reader)?;
        }
        Ok(())
    }

    /// The expressions behind a `(`.
    #[tactic(auto, unfolding(parser_rules::specs::Expressions::some_items))]
    pub fn some_items(&self, reader: &mut Reader<'_>) -> Result<(), NoMemory>
        requires { Nests self.now.levels (F.pre self.now.inside) (F.post self.now.inside) }
        ensures { Runs self.now.levels some_items result reader.old reader.new }
    {
        self.inside(reader, Form::Expression)?;
        reader.offer()?;
        self.further_items(reader)
    }

    /// What stands between parentheses.
    #[tactic(auto, unfolding(parser_rules::specs::Expressions::items))]
    pub fn items(&self, reader: &mut Reader<'_>) -> Result<(), NoMemory>
        requires { Nests self.now.levels (F.pre self.now.inside) (F.post self.now.inside) }
        ensures { Runs self.now.levels items result reader.old reader.new }
    {
        if reader.sees(Class::ParenClose) {
            reader.parameters_only();
            Ok(())
        } else {
            self.some_items(reader)
        }
    }

    /// The rest of an expression that began with parentheses.
    #[tactic(auto, unfolding(parser_rules::specs::Expressions::unwrapped_first))]
    pub fn unwrapped_first(&self, reader: &mut Reader<'_>) -> Result<(), NoMemory>
        requires { Nests self.now.levels (F.pre self.now.inside) (F.post self.now.inside) }
        ensures { Runs self.now.levels unwrapped_first result reader.old reader.new }
    {
        reader.unwrap()?;
        self.assignment(reader)
    }

    /// What follows names in parentheses.
    #[tactic(auto, unfolding(parser_rules::specs::Expressions::behind_names))]
    pub fn behind_names(&self, reader: &mut Reader<'_>) -> Result<(), NoMemory>
        requires { Nests self.now.levels (F.pre self.now.inside) (F.post self.now.inside) }
        ensures { Runs self.now.levels behind_names result reader.old reader.new }
    {
        if reader.sees_on_line(&[Class::Arrow]) {
            self.arrow(reader)
        } else {
            self.unwrapped_first(reader)
        }
    }

    /// What follows the `)`.
    #[tactic(auto, unfolding(parser_rules::specs::Expressions::behind_items))]
    pub fn behind_items(&self, reader: &mut Reader<'_>) -> Result<(), NoMemory>
        requires { Nests self.now.levels (F.pre self.now.inside) (F.post self.now.inside) }
        ensures { Runs self.now.levels behind_items result reader.old reader.new }
    {
        if reader.must_be_parameters() {
            self.arrow(reader)
        } else if reader.may_be_parameters() {
            self.behind_names(reader)
        } else {
            self.unwrapped_first(reader)
        }
    }

    /// An expression that begins with a `(`.
    #[tactic(auto, unfolding(parser_rules::specs::Expressions::covered))]
    pub fn covered(&self, reader: &mut Reader<'_>) -> Result<(), NoMemory>
        requires { Nests self.now.levels (F.pre self.now.inside) (F.post self.now.inside) }
        ensures { Runs self.now.levels covered result reader.old reader.new }
    {
        reader.open(Kind::Arrow)?;
        reader.take(Class::ParenOpen);
        self.items(reader)?;
        reader.take(Class::ParenClose);
        self.behind_items(reader)
    }

    /// An arrow function whose parameter was read.
    #[tactic(auto, unfolding(parser_rules::specs::Expressions::named_arrow))]
    pub fn named_arrow(&self, reader: &mut Reader<'_>) -> Result<(), NoMemory>
        requires { Nests self.now.levels (F.pre self.now.inside) (F.post self.now.inside) }
        ensures { Runs self.now.levels named_arrow result reader.old reader.new }
    {
        reader.precede(Kind::Arrow)?;
        reader.offer()?;
        self.arrow(reader)
    }

    /// What follows a name that begins an expression.
    pub fn arrow_or_assignment(&self, reader: &mut Reader<'_>) -> Result<(), NoMemory>
        requires { Nests self.now.levels (F.pre self.now.inside) (F.post self.now.inside) }
        ensures { Runs self.now.levels (either (sees_on_line (classes.Arrow ∷ [])) named_arrow assignment) result reader.old reader.new }
    {
        if reader.sees_on_line(&[Class::Arrow]) {
            self.named_arrow(reader)
        } else {
            self.assignment(reader)
        }
    }

    /// An expression that begins with a name.
    #[tactic(auto, unfolding(parser_rules::specs::Expressions::named_first))]
    pub fn named_first(&self, reader: &mut Reader<'_>) -> Result<(), NoMemory>
        requires { Nests self.now.levels (F.pre self.now.inside) (F.post self.now.inside) }
        ensures { Runs self.now.levels named_first result reader.old reader.new }
    {
        self.name_leaf(reader)?;
        self.arrow_or_assignment(reader)
    }

    /// An expression that begins with an operator.
    #[tactic(auto, unfolding(parser_rules::specs::Expressions::prefix_first))]
    pub fn prefix_first(&self, reader: &mut Reader<'_>) -> Result<(), NoMemory>
        requires { Nests self.now.levels (F.pre self.now.inside) (F.post self.now.inside) }
        ensures { Runs self.now.levels prefix_first result reader.old reader.new }
    {
        self.inside(reader, Form::Prefix)?;
        self.conditional(reader)
    }

    /// An expression that begins with another operand.
    #[tactic(auto, unfolding(parser_rules::specs::Expressions::primary_first))]
    pub fn primary_first(&self, reader: &mut Reader<'_>) -> Result<(), NoMemory>
        requires { Nests self.now.levels (F.pre self.now.inside) (F.post self.now.inside) }
        ensures { Runs self.now.levels primary_first result reader.old reader.new }
    {
        self.primary(reader)?;
        self.assignment(reader)
    }

    /// An expression without a `,`.
    #[tactic(auto, unfolding(parser_rules::specs::Expressions::expression))]
    pub fn expression(&self, reader: &mut Reader<'_>) -> Result<(), NoMemory>
        requires { Nests self.now.levels (F.pre self.now.inside) (F.post self.now.inside) }
        ensures { Runs self.now.levels expression result reader.old reader.new }
    {
        if reader.sees(Class::ParenOpen) {
            self.covered(reader)
        } else if reader.sees(Class::Name) {
            self.named_first(reader)
        } else if reader.sees_any(PREFIX) {
            self.prefix_first(reader)
        } else {
            self.primary_first(reader)
        }
    }
}
