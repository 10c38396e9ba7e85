//! Declarations, and the ends of statements.

use crate::grammar::Grammar;
use crate::reader::Reader;
use ivm_text::NoMemory;
use js_syntax::Kind;
use parser_rules::{Class, Form};

impl<F: Fn(&mut Reader<'_>, u32, Form) -> Result<(), NoMemory>> Grammar<F> {
    ghost use Rattle.std.specs.Prelude.{[], ◌∷◌};
    ghost use Rattle.parser_rules.specs.declared.class.Class.TheVariants as classes;
    ghost use Rattle.parser_rules.specs.Rules.{act, either, many, sees, omit};
    ghost use Rattle.parser_rules.specs.Statements.{const_binding, const_declaration, const_list, const_start, ends, function_declaration, further_const, further_let, initialiser, let_binding, let_declaration, let_list, let_start};
    ghost use Rattle.js_parser.specs.State.{Runs};
    ghost use Rattle.js_parser.specs.Nests.{Nests};

    /// The end of a statement.
    #[tactic(auto, unfolding(parser_rules::specs::Statements::ends))]
    pub fn ends(&self, reader: &mut Reader<'_>) -> Result<(), NoMemory>
        requires { Nests self.now.levels (F.pre self.now.inside) (F.post self.now.inside) }
        ensures { Runs self.now.levels ends result reader.old reader.new }
    {
        if reader.sees(Class::Semicolon) {
            reader.take(Class::Semicolon);
            Ok(())
        } else if reader.may_end() {
            Ok(())
        } else {
            reader.refuse();
            Ok(())
        }
    }

    /// `=` and a value.
    #[tactic(auto, unfolding(parser_rules::specs::Statements::initialiser))]
    pub fn initialiser(&self, reader: &mut Reader<'_>) -> Result<(), NoMemory>
        requires { Nests self.now.levels (F.pre self.now.inside) (F.post self.now.inside) }
        ensures { Runs self.now.levels initialiser result reader.old reader.new }
    {
        reader.take(Class::Equals);
        self.inside(reader, Form::Expression)
    }

    /// A value, if there is one.
    pub fn initialiser_if_any(&self, reader: &mut Reader<'_>) -> Result<(), NoMemory>
        requires { Nests self.now.levels (F.pre self.now.inside) (F.post self.now.inside) }
        ensures { Runs self.now.levels (either (sees (classes.Equals ∷ [])) initialiser (act omit)) result reader.old reader.new }
    {
        if reader.sees(Class::Equals) {
            self.initialiser(reader)
        } else {
            reader.omit()
        }
    }

    /// A name of a `let`.
    #[tactic(auto, unfolding(parser_rules::specs::Statements::let_binding))]
    pub fn let_binding(&self, reader: &mut Reader<'_>) -> Result<(), NoMemory>
        requires { Nests self.now.levels (F.pre self.now.inside) (F.post self.now.inside) }
        ensures { Runs self.now.levels let_binding result reader.old reader.new }
    {
        self.declared_name(reader)?;
        self.initialiser_if_any(reader)
    }

    /// A name of a `const`, and its value.
    #[tactic(auto, unfolding(parser_rules::specs::Statements::const_binding))]
    pub fn const_binding(&self, reader: &mut Reader<'_>) -> Result<(), NoMemory>
        requires { Nests self.now.levels (F.pre self.now.inside) (F.post self.now.inside) }
        ensures { Runs self.now.levels const_binding result reader.old reader.new }
    {
        self.declared_name(reader)?;
        self.initialiser(reader)
    }

    /// A further name of a `let`.
    #[tactic(auto, unfolding(parser_rules::specs::Statements::further_let))]
    pub fn further_let(&self, reader: &mut Reader<'_>) -> Result<(), NoMemory>
        requires { Nests self.now.levels (F.pre self.now.inside) (F.post self.now.inside) }
        ensures { Runs self.now.levels further_let result reader.old reader.new }
    {
        reader.take(Class::Comma);
        self.let_binding(reader)
    }

    /// Further names of a `let`.
    pub fn further_lets(&self, reader: &mut Reader<'_>) -> Result<(), NoMemory>
        requires { Nests self.now.levels (F.pre self.now.inside) (F.post self.now.inside) }
        ensures { Runs self.now.levels (many (sees (classes.Comma ∷ [])) further_let) result reader.old reader.new }
    {
        while reader.sees(Class::Comma) {
            self.further_let(reader)?;
        }
        Ok(())
    }

    /// The names of a `let`, without its end.
    #[tactic(auto, unfolding(parser_rules::specs::Statements::let_list))]
    pub fn let_list(&self, reader: &mut Reader<'_>) -> Result<(), NoMemory>
        requires { Nests self.now.levels (F.pre self.now.inside) (F.post self.now.inside) }
        ensures { Runs self.now.levels let_list result reader.old reader.new }
    {
        reader.open(Kind::Let)?;
        reader.take(Class::Let);
        self.let_binding(reader)?;
        self.further_lets(reader)
    }

    /// A `let`.
    #[tactic(auto, unfolding(parser_rules::specs::Statements::let_declaration))]
    pub fn let_declaration(&self, reader: &mut Reader<'_>) -> Result<(), NoMemory>
        requires { Nests self.now.levels (F.pre self.now.inside) (F.post self.now.inside) }
        ensures { Runs self.now.levels let_declaration result reader.old reader.new }
    {
        self.let_list(reader)?;
        self.ends(reader)?;
        reader.close()
    }

    /// A `let` at the beginning of a `for`.
    #[tactic(auto, unfolding(parser_rules::specs::Statements::let_start))]
    pub fn let_start(&self, reader: &mut Reader<'_>) -> Result<(), NoMemory>
        requires { Nests self.now.levels (F.pre self.now.inside) (F.post self.now.inside) }
        ensures { Runs self.now.levels let_start result reader.old reader.new }
    {
        self.let_list(reader)?;
        reader.close()
    }

    /// A further name of a `const`.
    #[tactic(auto, unfolding(parser_rules::specs::Statements::further_const))]
    pub fn further_const(&self, reader: &mut Reader<'_>) -> Result<(), NoMemory>
        requires { Nests self.now.levels (F.pre self.now.inside) (F.post self.now.inside) }
        ensures { Runs self.now.levels further_const result reader.old reader.new }
    {
        reader.take(Class::Comma);
        self.const_binding(reader)
    }

    /// Further names of a `const`.
    pub fn further_consts(&self, reader: &mut Reader<'_>) -> Result<(), NoMemory>
        requires { Nests self.now.levels (F.pre self.now.inside) (F.post self.now.inside) }
        ensures { Runs self.now.levels (many (sees (classes.Comma ∷ [])) further_const) result reader.old reader.new }
    {
        while reader.sees(Class::Comma) {
            self.further_const(reader)?;
        }
        Ok(())
    }

    /// The names of a `const`, without its end.
    #[tactic(auto, unfolding(parser_rules::specs::Statements::const_list))]
    pub fn const_list(&self, reader: &mut Reader<'_>) -> Result<(), NoMemory>
        requires { Nests self.now.levels (F.pre self.now.inside) (F.post self.now.inside) }
        ensures { Runs self.now.levels const_list result reader.old reader.new }
    {
        reader.open(Kind::Const)?;
        reader.take(Class::Const);
        self.const_binding(reader)?;
        self.further_consts(reader)
    }

    /// A `const`.
    #[tactic(auto, unfolding(parser_rules::specs::Statements::const_declaration))]
    pub fn const_declaration(&self, reader: &mut Reader<'_>) -> Result<(), NoMemory>
        requires { Nests self.now.levels (F.pre self.now.inside) (F.post self.now.inside) }
        ensures { Runs self.now.levels const_declaration result reader.old reader.new }
    {
        self.const_list(reader)?;
        self.ends(reader)?;
        reader.close()
    }

    /// A `const` at the beginning of a `for`.
    #[tactic(auto, unfolding(parser_rules::specs::Statements::const_start))]
    pub fn const_start(&self, reader: &mut Reader<'_>) -> Result<(), NoMemory>
        requires { Nests self.now.levels (F.pre self.now.inside) (F.post self.now.inside) }
        ensures { Runs self.now.levels const_start result reader.old reader.new }
    {
        self.const_list(reader)?;
        reader.close()
    }

    /// A function.
    #[tactic(auto, unfolding(parser_rules::specs::Statements::function_declaration))]
    pub fn function_declaration(&self, reader: &mut Reader<'_>) -> Result<(), NoMemory>
        requires { Nests self.now.levels (F.pre self.now.inside) (F.post self.now.inside) }
        ensures { Runs self.now.levels function_declaration result reader.old reader.new }
    {
        reader.open(Kind::FunctionDecl)?;
        reader.take(Class::Function);
        self.own_name(reader)?;
        self.parameters(reader)?;
        self.body(reader)?;
        reader.close()
    }
}
