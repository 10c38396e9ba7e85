//! Statements.

use crate::grammar::Grammar;
use crate::reader::Reader;
use ivm_text::NoMemory;
use js_syntax::Kind;
use parser_rules::{Class, Form};

const EXPRESSION_STATEMENTS: &[Class] = &[
    Class::Name,
    Class::Num,
    Class::Text,
    Class::This,
    Class::Undefined,
    Class::Null,
    Class::True,
    Class::False,
    Class::New,
    Class::ParenOpen,
    Class::BracketOpen,
    Class::Not,
    Class::Minus,
    Class::Plus,
    Class::TypeOf,
    Class::Void,
    Class::PlusPlus,
    Class::MinusMinus,
];

impl<F: Fn(&mut Reader<'_>, u32, Form) -> Result<(), NoMemory>> Grammar<F> {
    ghost use Rattle.std.specs.Prelude.{[], ◌∷◌};
    ghost use Rattle.js_syntax.specs.declared.kind.Kind.TheVariants as kinds;
    ghost use Rattle.parser_rules.specs.declared.class.Class.TheVariants as classes;
    ghost use Rattle.parser_rules.specs.declared.form.Form.TheVariants.{Item};
    ghost use Rattle.parser_rules.specs.Rules.{inside, many, sees_other};
    ghost use Rattle.parser_rules.specs.Statements.{alternative, block, catch_clause, catch_name, caught_name, condition, else_branch, empty_statement, ended_expression, expression_before, expression_statement, finaliser, finaliser_if_any, for_head, for_start, for_statement, handlers, if_statement, item, jump, line_or_end, nothing_returned, only_finaliser, return_statement, returned, script, simple_statement, statement, throw_statement, thrown, try_statement, while_statement};
    ghost use Rattle.js_parser.specs.State.{Runs};
    ghost use Rattle.js_parser.specs.Nests.{Nests};

    /// `;` alone.
    #[tactic(auto, unfolding(parser_rules::specs::Statements::empty_statement))]
    pub fn empty_statement(&self, reader: &mut Reader<'_>) -> Result<(), NoMemory>
        requires { Nests self.now.levels (F.pre self.now.inside) (F.post self.now.inside) }
        ensures { Runs self.now.levels empty_statement result reader.old reader.new }
    {
        reader.open(Kind::Empty)?;
        reader.take(Class::Semicolon);
        reader.close()
    }

    /// A block.
    #[tactic(auto, unfolding(parser_rules::specs::Statements::block))]
    pub fn block(&self, reader: &mut Reader<'_>) -> Result<(), NoMemory>
        requires { Nests self.now.levels (F.pre self.now.inside) (F.post self.now.inside) }
        ensures { Runs self.now.levels block result reader.old reader.new }
    {
        reader.open(Kind::Block)?;
        reader.take(Class::BraceOpen);
        self.item_list(reader)?;
        reader.take(Class::BraceClose);
        reader.close()
    }

    /// A condition in parentheses.
    #[tactic(auto, unfolding(parser_rules::specs::Statements::condition))]
    pub fn condition(&self, reader: &mut Reader<'_>) -> Result<(), NoMemory>
        requires { Nests self.now.levels (F.pre self.now.inside) (F.post self.now.inside) }
        ensures { Runs self.now.levels condition result reader.old reader.new }
    {
        reader.take(Class::ParenOpen);
        self.expression_list(reader)?;
        reader.take(Class::ParenClose);
        Ok(())
    }

    /// `else` and a statement.
    #[tactic(auto, unfolding(parser_rules::specs::Statements::else_branch))]
    pub fn else_branch(&self, reader: &mut Reader<'_>) -> Result<(), NoMemory>
        requires { Nests self.now.levels (F.pre self.now.inside) (F.post self.now.inside) }
        ensures { Runs self.now.levels else_branch result reader.old reader.new }
    {
        reader.take(Class::Else);
        self.inside(reader, Form::Statement)
    }

    /// What an `if` does else, if it says so.
    #[tactic(auto, unfolding(parser_rules::specs::Statements::alternative))]
    pub fn alternative(&self, reader: &mut Reader<'_>) -> Result<(), NoMemory>
        requires { Nests self.now.levels (F.pre self.now.inside) (F.post self.now.inside) }
        ensures { Runs self.now.levels alternative result reader.old reader.new }
    {
        if reader.sees(Class::Else) {
            self.else_branch(reader)
        } else {
            reader.omit()
        }
    }

    /// An `if`.
    #[tactic(auto, unfolding(parser_rules::specs::Statements::if_statement))]
    pub fn if_statement(&self, reader: &mut Reader<'_>) -> Result<(), NoMemory>
        requires { Nests self.now.levels (F.pre self.now.inside) (F.post self.now.inside) }
        ensures { Runs self.now.levels if_statement result reader.old reader.new }
    {
        reader.open(Kind::If)?;
        reader.take(Class::If);
        self.condition(reader)?;
        self.inside(reader, Form::Statement)?;
        self.alternative(reader)?;
        reader.close()
    }

    /// A `while`.
    #[tactic(auto, unfolding(parser_rules::specs::Statements::while_statement))]
    pub fn while_statement(&self, reader: &mut Reader<'_>) -> Result<(), NoMemory>
        requires { Nests self.now.levels (F.pre self.now.inside) (F.post self.now.inside) }
        ensures { Runs self.now.levels while_statement result reader.old reader.new }
    {
        reader.open(Kind::While)?;
        reader.take(Class::While);
        self.condition(reader)?;
        self.inside(reader, Form::Statement)?;
        reader.close()
    }

    /// An expression, or nothing.
    #[tactic(auto, unfolding(parser_rules::specs::Statements::expression_before))]
    pub fn expression_before_semicolon(&self, reader: &mut Reader<'_>) -> Result<(), NoMemory>
        requires { Nests self.now.levels (F.pre self.now.inside) (F.post self.now.inside) }
        ensures { Runs self.now.levels (expression_before classes.Semicolon) result reader.old reader.new }
    {
        if reader.sees(Class::Semicolon) {
            reader.omit()
        } else {
            self.expression_list(reader)
        }
    }

    /// An expression, or nothing.
    #[tactic(auto, unfolding(parser_rules::specs::Statements::expression_before))]
    pub fn expression_before_paren(&self, reader: &mut Reader<'_>) -> Result<(), NoMemory>
        requires { Nests self.now.levels (F.pre self.now.inside) (F.post self.now.inside) }
        ensures { Runs self.now.levels (expression_before classes.ParenClose) result reader.old reader.new }
    {
        if reader.sees(Class::ParenClose) {
            reader.omit()
        } else {
            self.expression_list(reader)
        }
    }

    /// What a `for` begins with.
    #[tactic(auto, unfolding(parser_rules::specs::Statements::for_start))]
    pub fn for_start(&self, reader: &mut Reader<'_>) -> Result<(), NoMemory>
        requires { Nests self.now.levels (F.pre self.now.inside) (F.post self.now.inside) }
        ensures { Runs self.now.levels for_start result reader.old reader.new }
    {
        if reader.sees(Class::Let) {
            self.let_start(reader)
        } else if reader.sees(Class::Const) {
            self.const_start(reader)
        } else {
            self.expression_before_semicolon(reader)
        }
    }

    /// The head of a `for`.
    #[tactic(auto, unfolding(parser_rules::specs::Statements::for_head))]
    pub fn for_head(&self, reader: &mut Reader<'_>) -> Result<(), NoMemory>
        requires { Nests self.now.levels (F.pre self.now.inside) (F.post self.now.inside) }
        ensures { Runs self.now.levels for_head result reader.old reader.new }
    {
        reader.take(Class::ParenOpen);
        self.for_start(reader)?;
        reader.take(Class::Semicolon);
        self.expression_before_semicolon(reader)?;
        reader.take(Class::Semicolon);
        self.expression_before_paren(reader)?;
        reader.take(Class::ParenClose);
        Ok(())
    }

    /// A `for`.
    #[tactic(auto, unfolding(parser_rules::specs::Statements::for_statement))]
    pub fn for_statement(&self, reader: &mut Reader<'_>) -> Result<(), NoMemory>
        requires { Nests self.now.levels (F.pre self.now.inside) (F.post self.now.inside) }
        ensures { Runs self.now.levels for_statement result reader.old reader.new }
    {
        reader.open(Kind::For)?;
        reader.take(Class::For);
        self.for_head(reader)?;
        self.inside(reader, Form::Statement)?;
        reader.close()
    }

    /// The end of a statement that a line terminator ends.
    #[tactic(auto, unfolding(parser_rules::specs::Statements::line_or_end))]
    pub fn line_or_end(&self, reader: &mut Reader<'_>) -> Result<(), NoMemory>
        requires { Nests self.now.levels (F.pre self.now.inside) (F.post self.now.inside) }
        ensures { Runs self.now.levels line_or_end result reader.old reader.new }
    {
        if reader.after_line() {
            Ok(())
        } else {
            self.ends(reader)
        }
    }

    /// A `break`.
    #[tactic(auto, unfolding(parser_rules::specs::Statements::jump))]
    pub fn break_statement(&self, reader: &mut Reader<'_>) -> Result<(), NoMemory>
        requires { Nests self.now.levels (F.pre self.now.inside) (F.post self.now.inside) }
        ensures { Runs self.now.levels (jump kinds.Break classes.Break) result reader.old reader.new }
    {
        reader.open(Kind::Break)?;
        reader.take(Class::Break);
        self.line_or_end(reader)?;
        reader.close()
    }

    /// A `continue`.
    #[tactic(auto, unfolding(parser_rules::specs::Statements::jump))]
    pub fn continue_statement(&self, reader: &mut Reader<'_>) -> Result<(), NoMemory>
        requires { Nests self.now.levels (F.pre self.now.inside) (F.post self.now.inside) }
        ensures { Runs self.now.levels (jump kinds.Continue classes.Continue) result reader.old reader.new }
    {
        reader.open(Kind::Continue)?;
        reader.take(Class::Continue);
        self.line_or_end(reader)?;
        reader.close()
    }

    /// An expression and the end of its statement.
    #[tactic(auto, unfolding(parser_rules::specs::Statements::ended_expression))]
    pub fn ended_expression(&self, reader: &mut Reader<'_>) -> Result<(), NoMemory>
        requires { Nests self.now.levels (F.pre self.now.inside) (F.post self.now.inside) }
        ensures { Runs self.now.levels ended_expression result reader.old reader.new }
    {
        self.expression_list(reader)?;
        self.ends(reader)
    }

    /// The end of a `return` that gives nothing.
    #[tactic(auto, unfolding(parser_rules::specs::Statements::nothing_returned))]
    pub fn nothing_returned(&self, reader: &mut Reader<'_>) -> Result<(), NoMemory>
        requires { Nests self.now.levels (F.pre self.now.inside) (F.post self.now.inside) }
        ensures { Runs self.now.levels nothing_returned result reader.old reader.new }
    {
        reader.omit()?;
        self.ends(reader)
    }

    /// What a `return` gives.
    #[tactic(auto, unfolding(parser_rules::specs::Statements::returned))]
    pub fn returned(&self, reader: &mut Reader<'_>) -> Result<(), NoMemory>
        requires { Nests self.now.levels (F.pre self.now.inside) (F.post self.now.inside) }
        ensures { Runs self.now.levels returned result reader.old reader.new }
    {
        if reader.after_line() {
            reader.omit()
        } else if reader.sees_any(&[Class::Semicolon, Class::BraceClose, Class::End]) {
            self.nothing_returned(reader)
        } else {
            self.ended_expression(reader)
        }
    }

    /// A `return`.
    #[tactic(auto, unfolding(parser_rules::specs::Statements::return_statement))]
    pub fn return_statement(&self, reader: &mut Reader<'_>) -> Result<(), NoMemory>
        requires { Nests self.now.levels (F.pre self.now.inside) (F.post self.now.inside) }
        ensures { Runs self.now.levels return_statement result reader.old reader.new }
    {
        reader.open(Kind::Return)?;
        reader.take(Class::Return);
        self.returned(reader)?;
        reader.close()
    }

    /// What a `throw` throws.
    #[tactic(auto, unfolding(parser_rules::specs::Statements::thrown))]
    pub fn thrown(&self, reader: &mut Reader<'_>) -> Result<(), NoMemory>
        requires { Nests self.now.levels (F.pre self.now.inside) (F.post self.now.inside) }
        ensures { Runs self.now.levels thrown result reader.old reader.new }
    {
        if reader.after_line() {
            reader.refuse();
            Ok(())
        } else {
            self.ended_expression(reader)
        }
    }

    /// A `throw`.
    #[tactic(auto, unfolding(parser_rules::specs::Statements::throw_statement))]
    pub fn throw_statement(&self, reader: &mut Reader<'_>) -> Result<(), NoMemory>
        requires { Nests self.now.levels (F.pre self.now.inside) (F.post self.now.inside) }
        ensures { Runs self.now.levels throw_statement result reader.old reader.new }
    {
        reader.open(Kind::Throw)?;
        reader.take(Class::Throw);
        self.thrown(reader)?;
        reader.close()
    }

    /// The name of what was caught.
    #[tactic(auto, unfolding(parser_rules::specs::Statements::caught_name))]
    pub fn caught_name(&self, reader: &mut Reader<'_>) -> Result<(), NoMemory>
        requires { Nests self.now.levels (F.pre self.now.inside) (F.post self.now.inside) }
        ensures { Runs self.now.levels caught_name result reader.old reader.new }
    {
        reader.take(Class::ParenOpen);
        self.own_name(reader)?;
        reader.take(Class::ParenClose);
        Ok(())
    }

    /// The name of what was caught, if it has one.
    #[tactic(auto, unfolding(parser_rules::specs::Statements::catch_name))]
    pub fn catch_name(&self, reader: &mut Reader<'_>) -> Result<(), NoMemory>
        requires { Nests self.now.levels (F.pre self.now.inside) (F.post self.now.inside) }
        ensures { Runs self.now.levels catch_name result reader.old reader.new }
    {
        if reader.sees(Class::ParenOpen) {
            self.caught_name(reader)
        } else {
            Ok(())
        }
    }

    /// `finally` and its block.
    #[tactic(auto, unfolding(parser_rules::specs::Statements::finaliser))]
    pub fn finaliser(&self, reader: &mut Reader<'_>) -> Result<(), NoMemory>
        requires { Nests self.now.levels (F.pre self.now.inside) (F.post self.now.inside) }
        ensures { Runs self.now.levels finaliser result reader.old reader.new }
    {
        reader.take(Class::Finally);
        self.inside(reader, Form::Block)
    }

    /// `finally` and its block, if they are there.
    #[tactic(auto, unfolding(parser_rules::specs::Statements::finaliser_if_any))]
    pub fn finaliser_if_any(&self, reader: &mut Reader<'_>) -> Result<(), NoMemory>
        requires { Nests self.now.levels (F.pre self.now.inside) (F.post self.now.inside) }
        ensures { Runs self.now.levels finaliser_if_any result reader.old reader.new }
    {
        if reader.sees(Class::Finally) {
            self.finaliser(reader)
        } else {
            reader.omit()
        }
    }

    /// `catch`, and what may follow.
    #[tactic(auto, unfolding(parser_rules::specs::Statements::catch_clause))]
    pub fn catch_clause(&self, reader: &mut Reader<'_>) -> Result<(), NoMemory>
        requires { Nests self.now.levels (F.pre self.now.inside) (F.post self.now.inside) }
        ensures { Runs self.now.levels catch_clause result reader.old reader.new }
    {
        reader.take(Class::Catch);
        self.catch_name(reader)?;
        self.inside(reader, Form::Block)?;
        self.finaliser_if_any(reader)
    }

    /// `finally` without a `catch`.
    #[tactic(auto, unfolding(parser_rules::specs::Statements::only_finaliser))]
    pub fn only_finaliser(&self, reader: &mut Reader<'_>) -> Result<(), NoMemory>
        requires { Nests self.now.levels (F.pre self.now.inside) (F.post self.now.inside) }
        ensures { Runs self.now.levels only_finaliser result reader.old reader.new }
    {
        reader.omit()?;
        self.finaliser(reader)
    }

    /// What follows the block of a `try`.
    #[tactic(auto, unfolding(parser_rules::specs::Statements::handlers))]
    pub fn handlers(&self, reader: &mut Reader<'_>) -> Result<(), NoMemory>
        requires { Nests self.now.levels (F.pre self.now.inside) (F.post self.now.inside) }
        ensures { Runs self.now.levels handlers result reader.old reader.new }
    {
        if reader.sees(Class::Catch) {
            self.catch_clause(reader)
        } else {
            self.only_finaliser(reader)
        }
    }

    /// A `try`.
    #[tactic(auto, unfolding(parser_rules::specs::Statements::try_statement))]
    pub fn try_statement(&self, reader: &mut Reader<'_>) -> Result<(), NoMemory>
        requires { Nests self.now.levels (F.pre self.now.inside) (F.post self.now.inside) }
        ensures { Runs self.now.levels try_statement result reader.old reader.new }
    {
        reader.open(Kind::Try)?;
        reader.take(Class::Try);
        self.inside(reader, Form::Block)?;
        self.handlers(reader)?;
        reader.close()
    }

    /// An expression as a statement.
    #[tactic(auto, unfolding(parser_rules::specs::Statements::expression_statement))]
    pub fn expression_statement(&self, reader: &mut Reader<'_>) -> Result<(), NoMemory>
        requires { Nests self.now.levels (F.pre self.now.inside) (F.post self.now.inside) }
        ensures { Runs self.now.levels expression_statement result reader.old reader.new }
    {
        reader.open(Kind::ExprStmt)?;
        self.ended_expression(reader)?;
        reader.close()
    }

    /// A statement that jumps, throws or is an expression.
    #[tactic(auto, unfolding(parser_rules::specs::Statements::simple_statement))]
    pub fn simple_statement(&self, reader: &mut Reader<'_>) -> Result<(), NoMemory>
        requires { Nests self.now.levels (F.pre self.now.inside) (F.post self.now.inside) }
        ensures { Runs self.now.levels simple_statement result reader.old reader.new }
    {
        if reader.sees(Class::Break) {
            self.break_statement(reader)
        } else if reader.sees(Class::Continue) {
            self.continue_statement(reader)
        } else if reader.sees(Class::Return) {
            self.return_statement(reader)
        } else if reader.sees(Class::Throw) {
            self.throw_statement(reader)
        } else if reader.sees_any(EXPRESSION_STATEMENTS) {
            self.expression_statement(reader)
        } else {
            reader.refuse();
            Ok(())
        }
    }

    /// A statement.
    #[tactic(auto, unfolding(parser_rules::specs::Statements::statement))]
    pub fn statement(&self, reader: &mut Reader<'_>) -> Result<(), NoMemory>
        requires { Nests self.now.levels (F.pre self.now.inside) (F.post self.now.inside) }
        ensures { Runs self.now.levels statement result reader.old reader.new }
    {
        if reader.sees(Class::Semicolon) {
            self.empty_statement(reader)
        } else if reader.sees(Class::BraceOpen) {
            self.block(reader)
        } else if reader.sees(Class::If) {
            self.if_statement(reader)
        } else if reader.sees(Class::While) {
            self.while_statement(reader)
        } else if reader.sees(Class::For) {
            self.for_statement(reader)
        } else if reader.sees(Class::Try) {
            self.try_statement(reader)
        } else {
            self.simple_statement(reader)
        }
    }

    /// A statement or a declaration.
    #[tactic(auto, unfolding(parser_rules::specs::Statements::item))]
    pub fn item(&self, reader: &mut Reader<'_>) -> Result<(), NoMemory>
        requires { Nests self.now.levels (F.pre self.now.inside) (F.post self.now.inside) }
        ensures { Runs self.now.levels item result reader.old reader.new }
    {
        if reader.sees(Class::Let) {
            self.let_declaration(reader)
        } else if reader.sees(Class::Const) {
            self.const_declaration(reader)
        } else if reader.sees(Class::Function) {
            self.function_declaration(reader)
        } else {
            self.statement(reader)
        }
    }

    /// The items of a script.
    pub fn script_items(&self, reader: &mut Reader<'_>) -> Result<(), NoMemory>
        requires { Nests self.now.levels (F.pre self.now.inside) (F.post self.now.inside) }
        ensures { Runs self.now.levels (many (sees_other (classes.End ∷ [])) (inside Item)) result reader.old reader.new }
    {
        while reader.sees_other(&[Class::End]) {
            self.inside(reader, Form::Item)?;
        }
        Ok(())
    }

    /// A script.
    #[tactic(auto, unfolding(parser_rules::specs::Statements::script))]
    pub fn script(&self, reader: &mut Reader<'_>) -> Result<(), NoMemory>
        requires { Nests self.now.levels (F.pre self.now.inside) (F.post self.now.inside) }
        ensures { Runs self.now.levels script result reader.old reader.new }
    {
        self.script_items(reader)?;
        reader.close()
    }
}
