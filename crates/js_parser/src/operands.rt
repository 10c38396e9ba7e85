//! Operands.

use crate::grammar::Grammar;
use crate::reader::Reader;
use ivm_text::NoMemory;
use js_syntax::Kind;
use parser_rules::{Class, Form};

impl<F: Fn(&mut Reader<'_>, u32, Form) -> Result<(), NoMemory>> Grammar<F> {
    ghost use Rattle.std.specs.Prelude.{[], ◌∷◌};
    ghost use Rattle.js_syntax.specs.declared.kind.Kind.TheVariants as kinds;
    ghost use Rattle.parser_rules.specs.declared.class.Class.TheVariants as classes;
    ghost use Rattle.parser_rules.specs.Rules.{act, either, many, sees, sees_other, shorthand};
    ghost use Rattle.parser_rules.specs.Expressions.{array, construction, keyed_property, leaf, name_leaf, named_property, number_leaf, object, parenthesised, primary, property, property_value, simple_operand, text_leaf, word_leaf};
    ghost use Rattle.js_parser.specs.State.{Runs};
    ghost use Rattle.js_parser.specs.Nests.{Nests};

    /// The word `this`.
    #[tactic(auto, unfolding(parser_rules::specs::Expressions::leaf))]
    fn leaf_this(&self, reader: &mut Reader<'_>) -> Result<(), NoMemory>
        requires { Nests self.now.levels (F.pre self.now.inside) (F.post self.now.inside) }
        ensures { Runs self.now.levels (leaf kinds.This classes.This) result reader.old reader.new }
    {
        reader.open(Kind::This)?;
        reader.take(Class::This);
        reader.close()
    }

    /// The word `undefined`.
    #[tactic(auto, unfolding(parser_rules::specs::Expressions::leaf))]
    pub fn leaf_undefined(&self, reader: &mut Reader<'_>) -> Result<(), NoMemory>
        requires { Nests self.now.levels (F.pre self.now.inside) (F.post self.now.inside) }
        ensures { Runs self.now.levels (leaf kinds.Undefined classes.Undefined) result reader.old reader.new }
    {
        reader.open(Kind::Undefined)?;
        reader.take(Class::Undefined);
        reader.close()
    }

    /// The word `null`.
    #[tactic(auto, unfolding(parser_rules::specs::Expressions::leaf))]
    pub fn leaf_null(&self, reader: &mut Reader<'_>) -> Result<(), NoMemory>
        requires { Nests self.now.levels (F.pre self.now.inside) (F.post self.now.inside) }
        ensures { Runs self.now.levels (leaf kinds.Null classes.Null) result reader.old reader.new }
    {
        reader.open(Kind::Null)?;
        reader.take(Class::Null);
        reader.close()
    }

    /// The word `true`.
    #[tactic(auto, unfolding(parser_rules::specs::Expressions::leaf))]
    pub fn leaf_true(&self, reader: &mut Reader<'_>) -> Result<(), NoMemory>
        requires { Nests self.now.levels (F.pre self.now.inside) (F.post self.now.inside) }
        ensures { Runs self.now.levels (leaf kinds.True classes.True) result reader.old reader.new }
    {
        reader.open(Kind::True)?;
        reader.take(Class::True);
        reader.close()
    }

    /// The word `false`.
    #[tactic(auto, unfolding(parser_rules::specs::Expressions::leaf))]
    pub fn leaf_false(&self, reader: &mut Reader<'_>) -> Result<(), NoMemory>
        requires { Nests self.now.levels (F.pre self.now.inside) (F.post self.now.inside) }
        ensures { Runs self.now.levels (leaf kinds.False classes.False) result reader.old reader.new }
    {
        reader.open(Kind::False)?;
        reader.take(Class::False);
        reader.close()
    }

    /// A name as a value.
    #[tactic(auto, unfolding(parser_rules::specs::Expressions::name_leaf))]
    pub fn name_leaf(&self, reader: &mut Reader<'_>) -> Result<(), NoMemory>
        requires { Nests self.now.levels (F.pre self.now.inside) (F.post self.now.inside) }
        ensures { Runs self.now.levels name_leaf result reader.old reader.new }
    {
        reader.open(Kind::Name)?;
        self.own_name(reader)?;
        reader.close()
    }

    /// A number.
    #[tactic(auto, unfolding(parser_rules::specs::Expressions::number_leaf))]
    pub fn number_leaf(&self, reader: &mut Reader<'_>) -> Result<(), NoMemory>
        requires { Nests self.now.levels (F.pre self.now.inside) (F.post self.now.inside) }
        ensures { Runs self.now.levels number_leaf result reader.old reader.new }
    {
        reader.open(Kind::Num)?;
        reader.value()?;
        reader.take(Class::Num);
        reader.close()
    }

    /// A string.
    #[tactic(auto, unfolding(parser_rules::specs::Expressions::text_leaf))]
    pub fn text_leaf(&self, reader: &mut Reader<'_>) -> Result<(), NoMemory>
        requires { Nests self.now.levels (F.pre self.now.inside) (F.post self.now.inside) }
        ensures { Runs self.now.levels text_leaf result reader.old reader.new }
    {
        reader.open(Kind::Text)?;
        reader.name_it()?;
        reader.take(Class::Text);
        reader.close()
    }

    /// A word that is a value by itself.
    #[tactic(auto, unfolding(parser_rules::specs::Expressions::word_leaf))]
    pub fn word_leaf(&self, reader: &mut Reader<'_>) -> Result<(), NoMemory>
        requires { Nests self.now.levels (F.pre self.now.inside) (F.post self.now.inside) }
        ensures { Runs self.now.levels word_leaf result reader.old reader.new }
    {
        if reader.sees(Class::This) {
            self.leaf_this(reader)
        } else if reader.sees(Class::Undefined) {
            self.leaf_undefined(reader)
        } else if reader.sees(Class::Null) {
            self.leaf_null(reader)
        } else if reader.sees(Class::True) {
            self.leaf_true(reader)
        } else if reader.sees(Class::False) {
            self.leaf_false(reader)
        } else {
            reader.refuse();
            Ok(())
        }
    }

    /// An array.
    #[tactic(auto, unfolding(parser_rules::specs::Expressions::array))]
    pub fn array(&self, reader: &mut Reader<'_>) -> Result<(), NoMemory>
        requires { Nests self.now.levels (F.pre self.now.inside) (F.post self.now.inside) }
        ensures { Runs self.now.levels array result reader.old reader.new }
    {
        reader.open(Kind::Array)?;
        reader.take(Class::BracketOpen);
        self.array_elements(reader)?;
        reader.close()
    }

    /// `:` and the value of a key.
    #[tactic(auto, unfolding(parser_rules::specs::Expressions::property_value))]
    pub fn property_value(&self, reader: &mut Reader<'_>) -> Result<(), NoMemory>
        requires { Nests self.now.levels (F.pre self.now.inside) (F.post self.now.inside) }
        ensures { Runs self.now.levels property_value result reader.old reader.new }
    {
        reader.take(Class::Colon);
        self.inside(reader, Form::Expression)
    }

    /// The value of a key that is a name.
    pub fn value_or_name(&self, reader: &mut Reader<'_>) -> Result<(), NoMemory>
        requires { Nests self.now.levels (F.pre self.now.inside) (F.post self.now.inside) }
        ensures { Runs self.now.levels (either (sees (classes.Colon ∷ [])) property_value (act shorthand)) result reader.old reader.new }
    {
        if reader.sees(Class::Colon) {
            self.property_value(reader)
        } else {
            reader.shorthand()
        }
    }

    /// A property whose key is a name.
    #[tactic(auto, unfolding(parser_rules::specs::Expressions::named_property))]
    pub fn named_property(&self, reader: &mut Reader<'_>) -> Result<(), NoMemory>
        requires { Nests self.now.levels (F.pre self.now.inside) (F.post self.now.inside) }
        ensures { Runs self.now.levels named_property result reader.old reader.new }
    {
        self.declared_name(reader)?;
        self.value_or_name(reader)
    }

    /// A property whose key is a reserved word, a string or a number.
    #[tactic(auto, unfolding(parser_rules::specs::Expressions::keyed_property))]
    pub fn keyed_property(&self, reader: &mut Reader<'_>) -> Result<(), NoMemory>
        requires { Nests self.now.levels (F.pre self.now.inside) (F.post self.now.inside) }
        ensures { Runs self.now.levels keyed_property result reader.old reader.new }
    {
        reader.key()?;
        reader.take_key();
        self.property_value(reader)
    }

    /// A property.
    pub fn keyed(&self, reader: &mut Reader<'_>) -> Result<(), NoMemory>
        requires { Nests self.now.levels (F.pre self.now.inside) (F.post self.now.inside) }
        ensures { Runs self.now.levels (either (sees (classes.Name ∷ [])) named_property keyed_property) result reader.old reader.new }
    {
        if reader.sees(Class::Name) {
            self.named_property(reader)
        } else {
            self.keyed_property(reader)
        }
    }

    /// A property, and the `,` behind it.
    #[tactic(auto, unfolding(parser_rules::specs::Expressions::property))]
    pub fn property(&self, reader: &mut Reader<'_>) -> Result<(), NoMemory>
        requires { Nests self.now.levels (F.pre self.now.inside) (F.post self.now.inside) }
        ensures { Runs self.now.levels property result reader.old reader.new }
    {
        self.keyed(reader)?;
        self.comma_before_brace(reader)
    }

    /// The properties of an object.
    pub fn property_list(&self, reader: &mut Reader<'_>) -> Result<(), NoMemory>
        requires { Nests self.now.levels (F.pre self.now.inside) (F.post self.now.inside) }
        ensures { Runs self.now.levels (many (sees_other (classes.BraceClose ∷ [])) property) result reader.old reader.new }
    {
        while reader.sees_other(&[Class::BraceClose]) {
            self.property(reader)?;
        }
        Ok(())
    }

    /// An object.
    #[tactic(auto, unfolding(parser_rules::specs::Expressions::object))]
    pub fn object(&self, reader: &mut Reader<'_>) -> Result<(), NoMemory>
        requires { Nests self.now.levels (F.pre self.now.inside) (F.post self.now.inside) }
        ensures { Runs self.now.levels object result reader.old reader.new }
    {
        reader.open(Kind::Object)?;
        reader.take(Class::BraceOpen);
        self.property_list(reader)?;
        reader.take(Class::BraceClose);
        reader.close()
    }

    /// `new`, a constructor and its arguments.
    #[tactic(auto, unfolding(parser_rules::specs::Expressions::construction))]
    pub fn construction(&self, reader: &mut Reader<'_>) -> Result<(), NoMemory>
        requires { Nests self.now.levels (F.pre self.now.inside) (F.post self.now.inside) }
        ensures { Runs self.now.levels construction result reader.old reader.new }
    {
        reader.open(Kind::New)?;
        reader.take(Class::New);
        reader.name_it()?;
        reader.take_word();
        reader.take(Class::ParenOpen);
        self.arguments(reader)?;
        reader.close()
    }

    /// An operand, but names and parentheses.
    #[tactic(auto, unfolding(parser_rules::specs::Expressions::primary))]
    pub fn primary(&self, reader: &mut Reader<'_>) -> Result<(), NoMemory>
        requires { Nests self.now.levels (F.pre self.now.inside) (F.post self.now.inside) }
        ensures { Runs self.now.levels primary result reader.old reader.new }
    {
        if reader.sees(Class::Num) {
            self.number_leaf(reader)
        } else if reader.sees(Class::Text) {
            self.text_leaf(reader)
        } else if reader.sees(Class::BracketOpen) {
            self.array(reader)
        } else if reader.sees(Class::BraceOpen) {
            self.object(reader)
        } else if reader.sees(Class::Function) {
            self.function_expression(reader)
        } else if reader.sees(Class::New) {
            self.construction(reader)
        } else {
            self.word_leaf(reader)
        }
    }

    /// An expression in parentheses, where no arrow function may stand.
    #[tactic(auto, unfolding(parser_rules::specs::Expressions::parenthesised))]
    pub fn parenthesised(&self, reader: &mut Reader<'_>) -> Result<(), NoMemory>
        requires { Nests self.now.levels (F.pre self.now.inside) (F.post self.now.inside) }
        ensures { Runs self.now.levels parenthesised result reader.old reader.new }
    {
        reader.open(Kind::Arrow)?;
        reader.take(Class::ParenOpen);
        self.expression_list(reader)?;
        reader.take(Class::ParenClose);
        reader.unwrap()
    }

    /// What calls, members and operators behind it may follow.
    #[tactic(auto, unfolding(parser_rules::specs::Expressions::simple_operand))]
    pub fn simple_operand(&self, reader: &mut Reader<'_>) -> Result<(), NoMemory>
        requires { Nests self.now.levels (F.pre self.now.inside) (F.post self.now.inside) }
        ensures { Runs self.now.levels simple_operand result reader.old reader.new }
    {
        if reader.sees(Class::ParenOpen) {
            self.parenthesised(reader)
        } else if reader.sees(Class::Name) {
            self.name_leaf(reader)
        } else {
            self.primary(reader)
        }
    }
}
