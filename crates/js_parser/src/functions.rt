//! Functions, their parameters and their bodies.

use crate::grammar::Grammar;
use crate::reader::Reader;
use ivm_text::NoMemory;
use js_syntax::Kind;
use parser_rules::{Class, Form};

impl<F: Fn(&mut Reader<'_>, u32, Form) -> Result<(), NoMemory>> Grammar<F> {
    ghost use Rattle.std.specs.Prelude.{[], ◌∷◌};
    ghost use Rattle.parser_rules.specs.declared.class.Class.TheVariants as classes;
    ghost use Rattle.parser_rules.specs.Rules.{many, sees};
    ghost use Rattle.parser_rules.specs.Expressions.{arrow, body, concise_body, declared_name, function_expression, name_if_any, own_name, parameter, parameters};
    ghost use Rattle.js_parser.specs.State.{Runs};
    ghost use Rattle.js_parser.specs.Nests.{Nests};

    /// A name that is declared.
    #[tactic(auto, unfolding(parser_rules::specs::Expressions::declared_name))]
    pub fn declared_name(&self, reader: &mut Reader<'_>) -> Result<(), NoMemory>
        requires { Nests self.now.levels (F.pre self.now.inside) (F.post self.now.inside) }
        ensures { Runs self.now.levels declared_name result reader.old reader.new }
    {
        reader.declare()?;
        reader.take(Class::Name);
        Ok(())
    }

    /// The name of the form itself.
    #[tactic(auto, unfolding(parser_rules::specs::Expressions::own_name))]
    pub fn own_name(&self, reader: &mut Reader<'_>) -> Result<(), NoMemory>
        requires { Nests self.now.levels (F.pre self.now.inside) (F.post self.now.inside) }
        ensures { Runs self.now.levels own_name result reader.old reader.new }
    {
        reader.name_it()?;
        reader.take(Class::Name);
        Ok(())
    }

    /// The name of the form itself, if it has one.
    #[tactic(auto, unfolding(parser_rules::specs::Expressions::name_if_any))]
    pub fn name_if_any(&self, reader: &mut Reader<'_>) -> Result<(), NoMemory>
        requires { Nests self.now.levels (F.pre self.now.inside) (F.post self.now.inside) }
        ensures { Runs self.now.levels name_if_any result reader.old reader.new }
    {
        if reader.sees(Class::Name) {
            self.own_name(reader)
        } else {
            Ok(())
        }
    }

    /// A parameter, and the `,` behind it.
    #[tactic(auto, unfolding(parser_rules::specs::Expressions::parameter))]
    pub fn parameter(&self, reader: &mut Reader<'_>) -> Result<(), NoMemory>
        requires { Nests self.now.levels (F.pre self.now.inside) (F.post self.now.inside) }
        ensures { Runs self.now.levels parameter result reader.old reader.new }
    {
        self.declared_name(reader)?;
        self.comma_before_paren(reader)
    }

    /// The parameters.
    pub fn parameter_list(&self, reader: &mut Reader<'_>) -> Result<(), NoMemory>
        requires { Nests self.now.levels (F.pre self.now.inside) (F.post self.now.inside) }
        ensures { Runs self.now.levels (many (sees (classes.Name ∷ [])) parameter) result reader.old reader.new }
    {
        while reader.sees(Class::Name) {
            self.parameter(reader)?;
        }
        Ok(())
    }

    /// The parameters in their parentheses.
    #[tactic(auto, unfolding(parser_rules::specs::Expressions::parameters))]
    pub fn parameters(&self, reader: &mut Reader<'_>) -> Result<(), NoMemory>
        requires { Nests self.now.levels (F.pre self.now.inside) (F.post self.now.inside) }
        ensures { Runs self.now.levels parameters result reader.old reader.new }
    {
        reader.take(Class::ParenOpen);
        self.parameter_list(reader)?;
        reader.take(Class::ParenClose);
        Ok(())
    }

    /// The body of a function.
    #[tactic(auto, unfolding(parser_rules::specs::Expressions::body))]
    pub fn body(&self, reader: &mut Reader<'_>) -> Result<(), NoMemory>
        requires { Nests self.now.levels (F.pre self.now.inside) (F.post self.now.inside) }
        ensures { Runs self.now.levels body result reader.old reader.new }
    {
        reader.open(Kind::Body)?;
        reader.take(Class::BraceOpen);
        self.item_list(reader)?;
        reader.take(Class::BraceClose);
        reader.close()
    }

    /// A function as an expression.
    #[tactic(auto, unfolding(parser_rules::specs::Expressions::function_expression))]
    pub fn function_expression(&self, reader: &mut Reader<'_>) -> Result<(), NoMemory>
        requires { Nests self.now.levels (F.pre self.now.inside) (F.post self.now.inside) }
        ensures { Runs self.now.levels function_expression result reader.old reader.new }
    {
        reader.open(Kind::FunctionExpr)?;
        reader.take(Class::Function);
        self.name_if_any(reader)?;
        self.parameters(reader)?;
        self.body(reader)?;
        reader.close()
    }

    /// The body of an arrow function.
    #[tactic(auto, unfolding(parser_rules::specs::Expressions::concise_body))]
    pub fn concise_body(&self, reader: &mut Reader<'_>) -> Result<(), NoMemory>
        requires { Nests self.now.levels (F.pre self.now.inside) (F.post self.now.inside) }
        ensures { Runs self.now.levels concise_body result reader.old reader.new }
    {
        if reader.sees(Class::BraceOpen) {
            self.body(reader)
        } else {
            self.inside(reader, Form::Expression)
        }
    }

    /// `=>` and the body, where the parameters were read.
    #[tactic(auto, unfolding(parser_rules::specs::Expressions::arrow))]
    pub fn arrow(&self, reader: &mut Reader<'_>) -> Result<(), NoMemory>
        requires { Nests self.now.levels (F.pre self.now.inside) (F.post self.now.inside) }
        ensures { Runs self.now.levels arrow result reader.old reader.new }
    {
        reader.clear();
        reader.take_on_line(&[Class::Arrow]);
        self.concise_body(reader)?;
        reader.close()
    }
}
