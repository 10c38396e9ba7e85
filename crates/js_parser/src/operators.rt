//! What stands behind operands and between them.

use crate::grammar::Grammar;
use crate::reader::Reader;
use ivm_text::NoMemory;
use js_syntax::Kind;
use parser_rules::{Class, Form};

const PREFIX: &[Class] = &[
    Class::Not,
    Class::Minus,
    Class::Plus,
    Class::TypeOf,
    Class::Void,
    Class::PlusPlus,
    Class::MinusMinus,
];

const ASSIGNMENTS: &[Class] = &[
    Class::Equals,
    Class::PlusEquals,
    Class::MinusEquals,
    Class::TimesEquals,
    Class::OverEquals,
    Class::PercentEquals,
];

impl<F: Fn(&mut Reader<'_>, u32, Form) -> Result<(), NoMemory>> Grammar<F> {
    ghost use Rattle.std.specs.Prelude.{[], ◌∷◌};
    ghost use Rattle.parser_rules.specs.declared.class.Class.TheVariants as classes;
    ghost use Rattle.parser_rules.specs.Rules.{nothing_more, either, many, sees, ◌▸◌};
    ghost use Rattle.parser_rules.specs.Expressions.{access, assigned, assignment, assignments, call, called_operand, calls, choice, coalescing, coalescings, comparison, comparison_operators, comparisons, conditional, conjunction, conjunctions, disjunction, equalities, equality, equality_operators, index, logical, member, operand, postfix, prefix, product, products, short_circuit, stepped, sum_operators, sum_step, sums};
    ghost use Rattle.js_parser.specs.State.{Runs};
    ghost use Rattle.js_parser.specs.Nests.{Nests};

    /// `.` and a key.
    #[tactic(auto, unfolding(parser_rules::specs::Expressions::member))]
    pub fn member(&self, reader: &mut Reader<'_>) -> Result<(), NoMemory>
        requires { Nests self.now.levels (F.pre self.now.inside) (F.post self.now.inside) }
        ensures { Runs self.now.levels member result reader.old reader.new }
    {
        reader.precede(Kind::Member)?;
        reader.take(Class::Dot);
        reader.name_it()?;
        reader.take_word();
        reader.close()
    }

    /// A key in brackets.
    #[tactic(auto, unfolding(parser_rules::specs::Expressions::index))]
    pub fn index(&self, reader: &mut Reader<'_>) -> Result<(), NoMemory>
        requires { Nests self.now.levels (F.pre self.now.inside) (F.post self.now.inside) }
        ensures { Runs self.now.levels index result reader.old reader.new }
    {
        reader.precede(Kind::Index)?;
        reader.take(Class::BracketOpen);
        self.expression_list(reader)?;
        reader.take(Class::BracketClose);
        reader.close()
    }

    /// The arguments of a call.
    #[tactic(auto, unfolding(parser_rules::specs::Expressions::call))]
    pub fn call(&self, reader: &mut Reader<'_>) -> Result<(), NoMemory>
        requires { Nests self.now.levels (F.pre self.now.inside) (F.post self.now.inside) }
        ensures { Runs self.now.levels call result reader.old reader.new }
    {
        reader.precede(Kind::Call)?;
        reader.take(Class::ParenOpen);
        self.arguments(reader)?;
        reader.close()
    }

    /// A member, an index or a call.
    #[tactic(auto, unfolding(parser_rules::specs::Expressions::access))]
    pub fn access(&self, reader: &mut Reader<'_>) -> Result<(), NoMemory>
        requires { Nests self.now.levels (F.pre self.now.inside) (F.post self.now.inside) }
        ensures { Runs self.now.levels access result reader.old reader.new }
    {
        if reader.sees(Class::Dot) {
            self.member(reader)
        } else if reader.sees(Class::BracketOpen) {
            self.index(reader)
        } else {
            self.call(reader)
        }
    }

    /// Members, indices and calls, which lean to the left.
    #[tactic(auto, unfolding(parser_rules::specs::Expressions::calls))]
    pub fn calls(&self, reader: &mut Reader<'_>) -> Result<(), NoMemory>
        requires { Nests self.now.levels (F.pre self.now.inside) (F.post self.now.inside) }
        ensures { Runs self.now.levels calls result reader.old reader.new }
    {
        while reader.sees_any(&[Class::Dot, Class::BracketOpen, Class::ParenOpen]) {
            self.access(reader)?;
        }
        Ok(())
    }

    /// `++` or `--` behind its operand.
    #[tactic(auto, unfolding(parser_rules::specs::Expressions::stepped))]
    pub fn stepped(&self, reader: &mut Reader<'_>) -> Result<(), NoMemory>
        requires { Nests self.now.levels (F.pre self.now.inside) (F.post self.now.inside) }
        ensures { Runs self.now.levels stepped result reader.old reader.new }
    {
        reader.precede_operator()?;
        reader.take_any(&[Class::PlusPlus, Class::MinusMinus]);
        reader.close()
    }

    /// `++` or `--` behind its operand, if it stands on the same line.
    #[tactic(auto, unfolding(parser_rules::specs::Expressions::postfix))]
    pub fn postfix(&self, reader: &mut Reader<'_>) -> Result<(), NoMemory>
        requires { Nests self.now.levels (F.pre self.now.inside) (F.post self.now.inside) }
        ensures { Runs self.now.levels postfix result reader.old reader.new }
    {
        if reader.sees_on_line(&[Class::PlusPlus, Class::MinusMinus]) {
            self.stepped(reader)
        } else {
            Ok(())
        }
    }

    /// An operand with what stands behind it.
    #[tactic(auto, unfolding(parser_rules::specs::Expressions::called_operand))]
    pub fn called_operand(&self, reader: &mut Reader<'_>) -> Result<(), NoMemory>
        requires { Nests self.now.levels (F.pre self.now.inside) (F.post self.now.inside) }
        ensures { Runs self.now.levels called_operand result reader.old reader.new }
    {
        self.simple_operand(reader)?;
        self.calls(reader)?;
        self.postfix(reader)
    }

    /// An operand, with the operators before it.
    #[tactic(auto, unfolding(parser_rules::specs::Expressions::operand))]
    pub fn operand(&self, reader: &mut Reader<'_>) -> Result<(), NoMemory>
        requires { Nests self.now.levels (F.pre self.now.inside) (F.post self.now.inside) }
        ensures { Runs self.now.levels operand result reader.old reader.new }
    {
        if reader.sees_any(PREFIX) {
            self.inside(reader, Form::Prefix)
        } else {
            self.called_operand(reader)
        }
    }

    /// An operator before its operand.
    #[tactic(auto, unfolding(parser_rules::specs::Expressions::prefix))]
    pub fn prefix(&self, reader: &mut Reader<'_>) -> Result<(), NoMemory>
        requires { Nests self.now.levels (F.pre self.now.inside) (F.post self.now.inside) }
        ensures { Runs self.now.levels prefix result reader.old reader.new }
    {
        reader.open_prefix()?;
        reader.take_any(PREFIX);
        self.operand(reader)?;
        reader.close()
    }

    /// `*`, `/` or `%` and its right operand.
    #[tactic(auto, unfolding(parser_rules::specs::Expressions::product))]
    pub fn product(&self, reader: &mut Reader<'_>) -> Result<(), NoMemory>
        requires { Nests self.now.levels (F.pre self.now.inside) (F.post self.now.inside) }
        ensures { Runs self.now.levels product result reader.old reader.new }
    {
        reader.precede_operator()?;
        reader.take_any(&[Class::Times, Class::Over, Class::Percent]);
        self.operand(reader)?;
        reader.close()
    }

    /// Behind an operand: factors.
    #[tactic(auto, unfolding(parser_rules::specs::Expressions::products))]
    pub fn products(&self, reader: &mut Reader<'_>) -> Result<(), NoMemory>
        requires { Nests self.now.levels (F.pre self.now.inside) (F.post self.now.inside) }
        ensures { Runs self.now.levels products result reader.old reader.new }
    {
        while reader.sees_any(&[Class::Times, Class::Over, Class::Percent]) {
            self.product(reader)?;
        }
        Ok(())
    }

    /// `+` or `-` and its right operand.
    #[tactic(auto, unfolding(parser_rules::specs::Expressions::sum_step))]
    pub fn sum_step(&self, reader: &mut Reader<'_>) -> Result<(), NoMemory>
        requires { Nests self.now.levels (F.pre self.now.inside) (F.post self.now.inside) }
        ensures { Runs self.now.levels sum_step result reader.old reader.new }
    {
        reader.precede_operator()?;
        reader.take_any(&[Class::Plus, Class::Minus]);
        self.operand(reader)?;
        self.products(reader)?;
        reader.close()
    }

    /// Behind a product: summands.
    pub fn sums_on(&self, reader: &mut Reader<'_>) -> Result<(), NoMemory>
        requires { Nests self.now.levels (F.pre self.now.inside) (F.post self.now.inside) }
        ensures { Runs self.now.levels (many (sees sum_operators) sum_step) result reader.old reader.new }
    {
        while reader.sees_any(&[Class::Plus, Class::Minus]) {
            self.sum_step(reader)?;
        }
        Ok(())
    }

    /// Behind an operand: factors and summands.
    #[tactic(auto, unfolding(parser_rules::specs::Expressions::sums))]
    pub fn sums(&self, reader: &mut Reader<'_>) -> Result<(), NoMemory>
        requires { Nests self.now.levels (F.pre self.now.inside) (F.post self.now.inside) }
        ensures { Runs self.now.levels sums result reader.old reader.new }
    {
        self.products(reader)?;
        self.sums_on(reader)
    }

    /// `<`, `>`, `<=` or `>=` and its right operand.
    #[tactic(auto, unfolding(parser_rules::specs::Expressions::comparison))]
    pub fn comparison(&self, reader: &mut Reader<'_>) -> Result<(), NoMemory>
        requires { Nests self.now.levels (F.pre self.now.inside) (F.post self.now.inside) }
        ensures { Runs self.now.levels comparison result reader.old reader.new }
    {
        reader.precede_operator()?;
        reader.take_any(&[Class::Less, Class::More, Class::AtMost, Class::AtLeast]);
        self.operand(reader)?;
        self.sums(reader)?;
        reader.close()
    }

    /// Behind a sum: comparisons.
    pub fn comparisons_on(&self, reader: &mut Reader<'_>) -> Result<(), NoMemory>
        requires { Nests self.now.levels (F.pre self.now.inside) (F.post self.now.inside) }
        ensures { Runs self.now.levels (many (sees comparison_operators) comparison) result reader.old reader.new }
    {
        while reader.sees_any(&[Class::Less, Class::More, Class::AtMost, Class::AtLeast]) {
            self.comparison(reader)?;
        }
        Ok(())
    }

    /// Behind an operand: what binds as tight as a comparison.
    #[tactic(auto, unfolding(parser_rules::specs::Expressions::comparisons))]
    pub fn comparisons(&self, reader: &mut Reader<'_>) -> Result<(), NoMemory>
        requires { Nests self.now.levels (F.pre self.now.inside) (F.post self.now.inside) }
        ensures { Runs self.now.levels comparisons result reader.old reader.new }
    {
        self.sums(reader)?;
        self.comparisons_on(reader)
    }

    /// `===` or `!==` and its right operand.
    #[tactic(auto, unfolding(parser_rules::specs::Expressions::equality))]
    pub fn equality(&self, reader: &mut Reader<'_>) -> Result<(), NoMemory>
        requires { Nests self.now.levels (F.pre self.now.inside) (F.post self.now.inside) }
        ensures { Runs self.now.levels equality result reader.old reader.new }
    {
        reader.precede_operator()?;
        reader.take_any(&[Class::Same, Class::NotSame]);
        self.operand(reader)?;
        self.comparisons(reader)?;
        reader.close()
    }

    /// Behind a comparison: equalities.
    pub fn equalities_on(&self, reader: &mut Reader<'_>) -> Result<(), NoMemory>
        requires { Nests self.now.levels (F.pre self.now.inside) (F.post self.now.inside) }
        ensures { Runs self.now.levels (many (sees equality_operators) equality) result reader.old reader.new }
    {
        while reader.sees_any(&[Class::Same, Class::NotSame]) {
            self.equality(reader)?;
        }
        Ok(())
    }

    /// Behind an operand: what binds as tight as an equality.
    #[tactic(auto, unfolding(parser_rules::specs::Expressions::equalities))]
    pub fn equalities(&self, reader: &mut Reader<'_>) -> Result<(), NoMemory>
        requires { Nests self.now.levels (F.pre self.now.inside) (F.post self.now.inside) }
        ensures { Runs self.now.levels equalities result reader.old reader.new }
    {
        self.comparisons(reader)?;
        self.equalities_on(reader)
    }

    /// `??` and its right operand.
    #[tactic(auto, unfolding(parser_rules::specs::Expressions::coalescing))]
    pub fn coalescing(&self, reader: &mut Reader<'_>) -> Result<(), NoMemory>
        requires { Nests self.now.levels (F.pre self.now.inside) (F.post self.now.inside) }
        ensures { Runs self.now.levels coalescing result reader.old reader.new }
    {
        reader.precede_operator()?;
        reader.take_any(&[Class::Coalesce]);
        self.operand(reader)?;
        self.equalities(reader)?;
        reader.close()
    }

    /// Operands of `??`.
    #[tactic(auto, unfolding(parser_rules::specs::Expressions::coalescings))]
    pub fn coalescings(&self, reader: &mut Reader<'_>) -> Result<(), NoMemory>
        requires { Nests self.now.levels (F.pre self.now.inside) (F.post self.now.inside) }
        ensures { Runs self.now.levels coalescings result reader.old reader.new }
    {
        while reader.sees(Class::Coalesce) {
            self.coalescing(reader)?;
        }
        Ok(())
    }

    /// `&&` and its right operand.
    #[tactic(auto, unfolding(parser_rules::specs::Expressions::conjunction))]
    pub fn conjunction(&self, reader: &mut Reader<'_>) -> Result<(), NoMemory>
        requires { Nests self.now.levels (F.pre self.now.inside) (F.post self.now.inside) }
        ensures { Runs self.now.levels conjunction result reader.old reader.new }
    {
        reader.precede_operator()?;
        reader.take_any(&[Class::AndAnd]);
        self.operand(reader)?;
        self.equalities(reader)?;
        reader.close()
    }

    /// Operands of `&&`.
    #[tactic(auto, unfolding(parser_rules::specs::Expressions::conjunctions))]
    pub fn conjunctions(&self, reader: &mut Reader<'_>) -> Result<(), NoMemory>
        requires { Nests self.now.levels (F.pre self.now.inside) (F.post self.now.inside) }
        ensures { Runs self.now.levels conjunctions result reader.old reader.new }
    {
        while reader.sees(Class::AndAnd) {
            self.conjunction(reader)?;
        }
        Ok(())
    }

    /// `||` and its right operand.
    #[tactic(auto, unfolding(parser_rules::specs::Expressions::disjunction))]
    pub fn disjunction(&self, reader: &mut Reader<'_>) -> Result<(), NoMemory>
        requires { Nests self.now.levels (F.pre self.now.inside) (F.post self.now.inside) }
        ensures { Runs self.now.levels disjunction result reader.old reader.new }
    {
        reader.precede_operator()?;
        reader.take(Class::OrOr);
        self.operand(reader)?;
        self.equalities(reader)?;
        self.conjunctions(reader)?;
        reader.close()
    }

    /// Operands of `||`.
    pub fn disjunctions(&self, reader: &mut Reader<'_>) -> Result<(), NoMemory>
        requires { Nests self.now.levels (F.pre self.now.inside) (F.post self.now.inside) }
        ensures { Runs self.now.levels (many (sees (classes.OrOr ∷ [])) disjunction) result reader.old reader.new }
    {
        while reader.sees(Class::OrOr) {
            self.disjunction(reader)?;
        }
        Ok(())
    }

    /// Operands of `&&` and `||`.
    #[tactic(auto, unfolding(parser_rules::specs::Expressions::logical))]
    pub fn logical(&self, reader: &mut Reader<'_>) -> Result<(), NoMemory>
        requires { Nests self.now.levels (F.pre self.now.inside) (F.post self.now.inside) }
        ensures { Runs self.now.levels logical result reader.old reader.new }
    {
        self.conjunctions(reader)?;
        self.disjunctions(reader)
    }

    /// Operands of `??`, or of `&&` and `||`.
    pub fn coalesced_or_logical(&self, reader: &mut Reader<'_>) -> Result<(), NoMemory>
        requires { Nests self.now.levels (F.pre self.now.inside) (F.post self.now.inside) }
        ensures { Runs self.now.levels (either (sees (classes.Coalesce ∷ [])) coalescings logical) result reader.old reader.new }
    {
        if reader.sees(Class::Coalesce) {
            self.coalescings(reader)
        } else {
            self.logical(reader)
        }
    }

    /// Behind an operand: the operators between operands.
    #[tactic(auto, unfolding(parser_rules::specs::Expressions::short_circuit))]
    pub fn short_circuit(&self, reader: &mut Reader<'_>) -> Result<(), NoMemory>
        requires { Nests self.now.levels (F.pre self.now.inside) (F.post self.now.inside) }
        ensures { Runs self.now.levels short_circuit result reader.old reader.new }
    {
        self.equalities(reader)?;
        self.coalesced_or_logical(reader)
    }

    /// `?`, `:` and what they choose from.
    #[tactic(auto, unfolding(parser_rules::specs::Expressions::choice))]
    pub fn choice(&self, reader: &mut Reader<'_>) -> Result<(), NoMemory>
        requires { Nests self.now.levels (F.pre self.now.inside) (F.post self.now.inside) }
        ensures { Runs self.now.levels choice result reader.old reader.new }
    {
        reader.precede(Kind::Cond)?;
        reader.take(Class::Question);
        self.inside(reader, Form::Expression)?;
        reader.take(Class::Colon);
        self.inside(reader, Form::Expression)?;
        reader.close()
    }

    /// A choice, if one stands here.
    pub fn choice_if_any(&self, reader: &mut Reader<'_>) -> Result<(), NoMemory>
        requires { Nests self.now.levels (F.pre self.now.inside) (F.post self.now.inside) }
        ensures { Runs self.now.levels (either (sees (classes.Question ∷ [])) choice nothing_more) result reader.old reader.new }
    {
        if reader.sees(Class::Question) {
            self.choice(reader)
        } else {
            Ok(())
        }
    }

    /// Behind an operand: the operators, and a choice.
    #[tactic(auto, unfolding(parser_rules::specs::Expressions::conditional))]
    pub fn conditional(&self, reader: &mut Reader<'_>) -> Result<(), NoMemory>
        requires { Nests self.now.levels (F.pre self.now.inside) (F.post self.now.inside) }
        ensures { Runs self.now.levels conditional result reader.old reader.new }
    {
        self.short_circuit(reader)?;
        self.choice_if_any(reader)
    }

    /// An assignment operator and what is assigned.
    #[tactic(auto, unfolding(parser_rules::specs::Expressions::assigned))]
    pub fn assigned(&self, reader: &mut Reader<'_>) -> Result<(), NoMemory>
        requires { Nests self.now.levels (F.pre self.now.inside) (F.post self.now.inside) }
        ensures { Runs self.now.levels assigned result reader.old reader.new }
    {
        reader.precede_operator()?;
        reader.take_any(ASSIGNMENTS);
        self.inside(reader, Form::Expression)?;
        reader.close()
    }

    /// The rest of an expression that is no assignment.
    pub fn no_assignment(&self, reader: &mut Reader<'_>) -> Result<(), NoMemory>
        requires { Nests self.now.levels (F.pre self.now.inside) (F.post self.now.inside) }
        ensures { Runs self.now.levels (postfix ▸ conditional) result reader.old reader.new }
    {
        self.postfix(reader)?;
        self.conditional(reader)
    }

    /// An assignment, or the rest of another expression.
    pub fn assigned_or_not(&self, reader: &mut Reader<'_>) -> Result<(), NoMemory>
        requires { Nests self.now.levels (F.pre self.now.inside) (F.post self.now.inside) }
        ensures { Runs self.now.levels (either (sees assignments) assigned (postfix ▸ conditional)) result reader.old reader.new }
    {
        if reader.sees_any(ASSIGNMENTS) {
            self.assigned(reader)
        } else {
            self.no_assignment(reader)
        }
    }

    /// The rest of an expression that began with what may be assigned to.
    #[tactic(auto, unfolding(parser_rules::specs::Expressions::assignment))]
    pub fn assignment(&self, reader: &mut Reader<'_>) -> Result<(), NoMemory>
        requires { Nests self.now.levels (F.pre self.now.inside) (F.post self.now.inside) }
        ensures { Runs self.now.levels assignment result reader.old reader.new }
    {
        self.calls(reader)?;
        self.assigned_or_not(reader)
    }
}
