//! Lists of expressions and of statements.

use crate::grammar::Grammar;
use crate::reader::Reader;
use ivm_text::NoMemory;
use js_syntax::Kind;
use parser_rules::{Class, Form};

impl<F: Fn(&mut Reader<'_>, u32, Form) -> Result<(), NoMemory>> Grammar<F> {
    ghost use Rattle.std.specs.Prelude.{[], ◌∷◌};
    ghost use Rattle.parser_rules.specs.declared.class.Class.TheVariants as classes;
    ghost use Rattle.parser_rules.specs.Rules.{many, sees, sees_other};
    ghost use Rattle.parser_rules.specs.Expressions.{comma_before, element, elements, expression_list, further_expression, item_list};
    ghost use Rattle.js_parser.specs.State.{Runs};
    ghost use Rattle.js_parser.specs.Nests.{Nests};

    /// A `,` and a further expression.
    #[tactic(auto, unfolding(parser_rules::specs::Expressions::further_expression))]
    pub fn further_expression(&self, reader: &mut Reader<'_>) -> Result<(), NoMemory>
        requires { Nests self.now.levels (F.pre self.now.inside) (F.post self.now.inside) }
        ensures { Runs self.now.levels further_expression result reader.old reader.new }
    {
        reader.take(Class::Comma);
        self.inside(reader, Form::Expression)?;
        reader.pair(Kind::Comma)
    }

    /// Further expressions, each behind a `,`.
    pub fn further_expressions(&self, reader: &mut Reader<'_>) -> Result<(), NoMemory>
        requires { Nests self.now.levels (F.pre self.now.inside) (F.post self.now.inside) }
        ensures { Runs self.now.levels (many (sees (classes.Comma ∷ [])) further_expression) result reader.old reader.new }
    {
        while reader.sees(Class::Comma) {
            self.further_expression(reader)?;
        }
        Ok(())
    }

    /// One expression, or several with `,` between.
    #[tactic(auto, unfolding(parser_rules::specs::Expressions::expression_list))]
    pub fn expression_list(&self, reader: &mut Reader<'_>) -> Result<(), NoMemory>
        requires { Nests self.now.levels (F.pre self.now.inside) (F.post self.now.inside) }
        ensures { Runs self.now.levels expression_list result reader.old reader.new }
    {
        self.inside(reader, Form::Expression)?;
        self.further_expressions(reader)
    }

    /// A `,`, or what closes the list.
    #[tactic(auto, unfolding(parser_rules::specs::Expressions::comma_before))]
    pub fn comma_before_paren(&self, reader: &mut Reader<'_>) -> Result<(), NoMemory>
        requires { Nests self.now.levels (F.pre self.now.inside) (F.post self.now.inside) }
        ensures { Runs self.now.levels (comma_before classes.ParenClose) result reader.old reader.new }
    {
        if reader.sees(Class::Comma) {
            reader.take(Class::Comma);
            Ok(())
        } else if reader.sees(Class::ParenClose) {
            Ok(())
        } else {
            reader.refuse();
            Ok(())
        }
    }

    /// One expression of a list, and the `,` behind it.
    #[tactic(auto, unfolding(parser_rules::specs::Expressions::element))]
    pub fn argument(&self, reader: &mut Reader<'_>) -> Result<(), NoMemory>
        requires { Nests self.now.levels (F.pre self.now.inside) (F.post self.now.inside) }
        ensures { Runs self.now.levels (element classes.ParenClose) result reader.old reader.new }
    {
        self.inside(reader, Form::Expression)?;
        self.comma_before_paren(reader)
    }

    /// The expressions of a list.
    pub fn argument_list(&self, reader: &mut Reader<'_>) -> Result<(), NoMemory>
        requires { Nests self.now.levels (F.pre self.now.inside) (F.post self.now.inside) }
        ensures { Runs self.now.levels (many (sees_other (classes.ParenClose ∷ [])) (element classes.ParenClose)) result reader.old reader.new }
    {
        while reader.sees_other(&[Class::ParenClose]) {
            self.argument(reader)?;
        }
        Ok(())
    }

    /// The expressions of a list, and what closes it.
    #[tactic(auto, unfolding(parser_rules::specs::Expressions::elements))]
    pub fn arguments(&self, reader: &mut Reader<'_>) -> Result<(), NoMemory>
        requires { Nests self.now.levels (F.pre self.now.inside) (F.post self.now.inside) }
        ensures { Runs self.now.levels (elements classes.ParenClose) result reader.old reader.new }
    {
        self.argument_list(reader)?;
        reader.take(Class::ParenClose);
        Ok(())
    }

    /// A `,`, or what closes the list.
    #[tactic(auto, unfolding(parser_rules::specs::Expressions::comma_before))]
    pub fn comma_before_bracket(&self, reader: &mut Reader<'_>) -> Result<(), NoMemory>
        requires { Nests self.now.levels (F.pre self.now.inside) (F.post self.now.inside) }
        ensures { Runs self.now.levels (comma_before classes.BracketClose) result reader.old reader.new }
    {
        if reader.sees(Class::Comma) {
            reader.take(Class::Comma);
            Ok(())
        } else if reader.sees(Class::BracketClose) {
            Ok(())
        } else {
            reader.refuse();
            Ok(())
        }
    }

    /// One expression of a list, and the `,` behind it.
    #[tactic(auto, unfolding(parser_rules::specs::Expressions::element))]
    pub fn array_element(&self, reader: &mut Reader<'_>) -> Result<(), NoMemory>
        requires { Nests self.now.levels (F.pre self.now.inside) (F.post self.now.inside) }
        ensures { Runs self.now.levels (element classes.BracketClose) result reader.old reader.new }
    {
        self.inside(reader, Form::Expression)?;
        self.comma_before_bracket(reader)
    }

    /// The expressions of a list.
    pub fn array_element_list(&self, reader: &mut Reader<'_>) -> Result<(), NoMemory>
        requires { Nests self.now.levels (F.pre self.now.inside) (F.post self.now.inside) }
        ensures { Runs self.now.levels (many (sees_other (classes.BracketClose ∷ [])) (element classes.BracketClose)) result reader.old reader.new }
    {
        while reader.sees_other(&[Class::BracketClose]) {
            self.array_element(reader)?;
        }
        Ok(())
    }

    /// The expressions of a list, and what closes it.
    #[tactic(auto, unfolding(parser_rules::specs::Expressions::elements))]
    pub fn array_elements(&self, reader: &mut Reader<'_>) -> Result<(), NoMemory>
        requires { Nests self.now.levels (F.pre self.now.inside) (F.post self.now.inside) }
        ensures { Runs self.now.levels (elements classes.BracketClose) result reader.old reader.new }
    {
        self.array_element_list(reader)?;
        reader.take(Class::BracketClose);
        Ok(())
    }

    /// A `,`, or what closes the object.
    #[tactic(auto, unfolding(parser_rules::specs::Expressions::comma_before))]
    pub fn comma_before_brace(&self, reader: &mut Reader<'_>) -> Result<(), NoMemory>
        requires { Nests self.now.levels (F.pre self.now.inside) (F.post self.now.inside) }
        ensures { Runs self.now.levels (comma_before classes.BraceClose) result reader.old reader.new }
    {
        if reader.sees(Class::Comma) {
            reader.take(Class::Comma);
            Ok(())
        } else if reader.sees(Class::BraceClose) {
            Ok(())
        } else {
            reader.refuse();
            Ok(())
        }
    }

    /// Statements and declarations, up to a `}` or the end.
    #[tactic(auto, unfolding(parser_rules::specs::Expressions::item_list))]
    pub fn item_list(&self, reader: &mut Reader<'_>) -> Result<(), NoMemory>
        requires { Nests self.now.levels (F.pre self.now.inside) (F.post self.now.inside) }
        ensures { Runs self.now.levels item_list result reader.old reader.new }
    {
        while reader.sees_other(&[Class::BraceClose, Class::End]) {
            self.inside(reader, Form::Item)?;
        }
        Ok(())
    }
}
