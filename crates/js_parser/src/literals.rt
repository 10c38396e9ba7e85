//! Literals, and texts of arguments.

use crate::grammar::Grammar;
use crate::reader::Reader;
use ivm_text::NoMemory;
use js_syntax::Kind;
use parser_rules::{Class, Form};

impl<F: Fn(&mut Reader<'_>, u32, Form) -> Result<(), NoMemory>> Grammar<F> {
    ghost use Rattle.std.specs.Prelude.{[], ◌∷◌};
    ghost use Rattle.parser_rules.specs.declared.class.Class.TheVariants as classes;
    ghost use Rattle.parser_rules.specs.declared.form.Form.TheVariants as forms;
    ghost use Rattle.parser_rules.specs.Rules.{either, inside, many, sees_other, sees_passing};
    ghost use Rattle.parser_rules.specs.Expressions.{comma_before};
    ghost use Rattle.parser_rules.specs.Literals.{argument, arguments_text, constant_word, literal, literal_array, literal_element, literal_object, literal_property, literal_text, negated_number, negative, passed_name, passing, passing_word, text_end};
    ghost use Rattle.js_parser.specs.State.{Runs};
    ghost use Rattle.js_parser.specs.Nests.{Nests};

    /// A number other than 0, behind its `-`.
    #[tactic(auto, unfolding(parser_rules::specs::Literals::negated_number))]
    fn negated_number(&self, reader: &mut Reader<'_>) -> Result<(), NoMemory>
        requires { Nests self.now.levels (F.pre self.now.inside) (F.post self.now.inside) }
        ensures { Runs self.now.levels negated_number result reader.old reader.new }
    {
        reader.open(Kind::Num)?;
        reader.value()?;
        reader.take_nonzero();
        reader.close()
    }

    /// A `-` and the number behind it.
    #[tactic(auto, unfolding(parser_rules::specs::Literals::negative))]
    fn negative(&self, reader: &mut Reader<'_>) -> Result<(), NoMemory>
        requires { Nests self.now.levels (F.pre self.now.inside) (F.post self.now.inside) }
        ensures { Runs self.now.levels negative result reader.old reader.new }
    {
        reader.open(Kind::Minus)?;
        reader.take(Class::Minus);
        self.negated_number(reader)?;
        reader.close()
    }

    /// A word that is a literal.
    #[tactic(auto, unfolding(parser_rules::specs::Literals::constant_word))]
    fn constant_word(&self, reader: &mut Reader<'_>) -> Result<(), NoMemory>
        requires { Nests self.now.levels (F.pre self.now.inside) (F.post self.now.inside) }
        ensures { Runs self.now.levels constant_word result reader.old reader.new }
    {
        if reader.sees(Class::Undefined) {
            self.leaf_undefined(reader)
        } else if reader.sees(Class::Null) {
            self.leaf_null(reader)
        } else if reader.sees(Class::True) {
            self.leaf_true(reader)
        } else if reader.sees(Class::False) {
            self.leaf_false(reader)
        } else {
            reader.refuse();
            Ok(())
        }
    }

    /// One literal of an array, and the `,` behind it.
    #[tactic(auto, unfolding(parser_rules::specs::Literals::literal_element))]
    fn literal_element(&self, reader: &mut Reader<'_>) -> Result<(), NoMemory>
        requires { Nests self.now.levels (F.pre self.now.inside) (F.post self.now.inside) }
        ensures { Runs self.now.levels literal_element result reader.old reader.new }
    {
        self.inside(reader, Form::Literal)?;
        self.comma_before_bracket(reader)
    }

    /// The literals of an array.
    fn literal_element_list(&self, reader: &mut Reader<'_>) -> Result<(), NoMemory>
        requires { Nests self.now.levels (F.pre self.now.inside) (F.post self.now.inside) }
        ensures { Runs self.now.levels (many (sees_other (classes.BracketClose ∷ [])) literal_element) result reader.old reader.new }
    {
        while reader.sees_other(&[Class::BracketClose]) {
            self.literal_element(reader)?;
        }
        Ok(())
    }

    /// An array of literals.
    #[tactic(auto, unfolding(parser_rules::specs::Literals::literal_array))]
    fn literal_array(&self, reader: &mut Reader<'_>) -> Result<(), NoMemory>
        requires { Nests self.now.levels (F.pre self.now.inside) (F.post self.now.inside) }
        ensures { Runs self.now.levels literal_array result reader.old reader.new }
    {
        reader.open(Kind::Array)?;
        reader.take(Class::BracketOpen);
        self.literal_element_list(reader)?;
        reader.take(Class::BracketClose);
        reader.close()
    }

    /// A key with its literal, and the `,` behind it.
    #[tactic(auto, unfolding(parser_rules::specs::Literals::literal_property))]
    fn literal_property(&self, reader: &mut Reader<'_>) -> Result<(), NoMemory>
        requires { Nests self.now.levels (F.pre self.now.inside) (F.post self.now.inside) }
        ensures { Runs self.now.levels literal_property result reader.old reader.new }
    {
        reader.key()?;
        reader.take_key();
        reader.take(Class::Colon);
        self.inside(reader, Form::Literal)?;
        self.comma_before_brace(reader)
    }

    /// The keys of an object with their literals.
    fn literal_property_list(&self, reader: &mut Reader<'_>) -> Result<(), NoMemory>
        requires { Nests self.now.levels (F.pre self.now.inside) (F.post self.now.inside) }
        ensures { Runs self.now.levels (many (sees_other (classes.BraceClose ∷ [])) literal_property) result reader.old reader.new }
    {
        while reader.sees_other(&[Class::BraceClose]) {
            self.literal_property(reader)?;
        }
        Ok(())
    }

    /// An object of keys and literals.
    #[tactic(auto, unfolding(parser_rules::specs::Literals::literal_object))]
    fn literal_object(&self, reader: &mut Reader<'_>) -> Result<(), NoMemory>
        requires { Nests self.now.levels (F.pre self.now.inside) (F.post self.now.inside) }
        ensures { Runs self.now.levels literal_object result reader.old reader.new }
    {
        reader.open(Kind::Object)?;
        reader.take(Class::BraceOpen);
        self.literal_property_list(reader)?;
        reader.take(Class::BraceClose);
        reader.close()
    }

    /// A literal.
    #[tactic(auto, unfolding(parser_rules::specs::Literals::literal))]
    pub fn literal(&self, reader: &mut Reader<'_>) -> Result<(), NoMemory>
        requires { Nests self.now.levels (F.pre self.now.inside) (F.post self.now.inside) }
        ensures { Runs self.now.levels literal result reader.old reader.new }
    {
        if reader.sees(Class::Num) {
            self.number_leaf(reader)
        } else if reader.sees(Class::Text) {
            self.text_leaf(reader)
        } else if reader.sees(Class::Minus) {
            self.negative(reader)
        } else if reader.sees(Class::BracketOpen) {
            self.literal_array(reader)
        } else if reader.sees(Class::BraceOpen) {
            self.literal_object(reader)
        } else {
            self.constant_word(reader)
        }
    }

    // ---- texts

    /// The end of the text.
    #[tactic(auto, unfolding(parser_rules::specs::Literals::text_end))]
    fn text_end(&self, reader: &mut Reader<'_>) -> Result<(), NoMemory>
        requires { Nests self.now.levels (F.pre self.now.inside) (F.post self.now.inside) }
        ensures { Runs self.now.levels text_end result reader.old reader.new }
    {
        if reader.sees(Class::End) {
            Ok(())
        } else {
            reader.refuse();
            Ok(())
        }
    }

    /// A text of one literal.
    #[tactic(auto, unfolding(parser_rules::specs::Literals::literal_text))]
    pub fn literal_text(&self, reader: &mut Reader<'_>) -> Result<(), NoMemory>
        requires { Nests self.now.levels (F.pre self.now.inside) (F.post self.now.inside) }
        ensures { Runs self.now.levels literal_text result reader.old reader.new }
    {
        self.inside(reader, Form::Literal)?;
        self.text_end(reader)?;
        reader.close()
    }

    /// The word that says what an argument passes.
    #[tactic(auto, unfolding(parser_rules::specs::Literals::passing_word))]
    fn passing_word(&self, reader: &mut Reader<'_>) -> Result<(), NoMemory>
        requires { Nests self.now.levels (F.pre self.now.inside) (F.post self.now.inside) }
        ensures { Runs self.now.levels passing_word result reader.old reader.new }
    {
        reader.open(Kind::Name)?;
        reader.name_it()?;
        reader.take_passing();
        reader.close()
    }

    /// The word of what is passed, which may be a reserved one.
    #[tactic(auto, unfolding(parser_rules::specs::Literals::passed_name))]
    fn passed_name(&self, reader: &mut Reader<'_>) -> Result<(), NoMemory>
        requires { Nests self.now.levels (F.pre self.now.inside) (F.post self.now.inside) }
        ensures { Runs self.now.levels passed_name result reader.old reader.new }
    {
        reader.open(Kind::Name)?;
        reader.name_it()?;
        reader.take_word();
        reader.close()
    }

    /// An argument that is no literal, as `ref(x)`.
    #[tactic(auto, unfolding(parser_rules::specs::Literals::passing))]
    fn passing(&self, reader: &mut Reader<'_>) -> Result<(), NoMemory>
        requires { Nests self.now.levels (F.pre self.now.inside) (F.post self.now.inside) }
        ensures { Runs self.now.levels passing result reader.old reader.new }
    {
        reader.open(Kind::Call)?;
        self.passing_word(reader)?;
        reader.take(Class::ParenOpen);
        self.passed_name(reader)?;
        reader.take(Class::ParenClose);
        reader.close()
    }

    /// One argument.
    fn passed(&self, reader: &mut Reader<'_>) -> Result<(), NoMemory>
        requires { Nests self.now.levels (F.pre self.now.inside) (F.post self.now.inside) }
        ensures { Runs self.now.levels (either sees_passing passing (inside forms.Literal)) result reader.old reader.new }
    {
        if reader.sees_passing() {
            self.passing(reader)
        } else {
            self.inside(reader, Form::Literal)
        }
    }

    /// A `,`, or the end of the text.
    #[tactic(auto, unfolding(parser_rules::specs::Expressions::comma_before))]
    fn comma_before_end(&self, reader: &mut Reader<'_>) -> Result<(), NoMemory>
        requires { Nests self.now.levels (F.pre self.now.inside) (F.post self.now.inside) }
        ensures { Runs self.now.levels (comma_before classes.End) result reader.old reader.new }
    {
        if reader.sees(Class::Comma) {
            reader.take(Class::Comma);
            Ok(())
        } else if reader.sees(Class::End) {
            Ok(())
        } else {
            reader.refuse();
            Ok(())
        }
    }

    /// One argument of a text, and the `,` behind it.
    #[tactic(auto, unfolding(parser_rules::specs::Literals::argument))]
    fn passed_argument(&self, reader: &mut Reader<'_>) -> Result<(), NoMemory>
        requires { Nests self.now.levels (F.pre self.now.inside) (F.post self.now.inside) }
        ensures { Runs self.now.levels argument result reader.old reader.new }
    {
        self.passed(reader)?;
        self.comma_before_end(reader)
    }

    /// The arguments of a text.
    fn passed_arguments(&self, reader: &mut Reader<'_>) -> Result<(), NoMemory>
        requires { Nests self.now.levels (F.pre self.now.inside) (F.post self.now.inside) }
        ensures { Runs self.now.levels (many (sees_other (classes.End ∷ [])) argument) result reader.old reader.new }
    {
        while reader.sees_other(&[Class::End]) {
            self.passed_argument(reader)?;
        }
        Ok(())
    }

    /// A text of arguments.
    #[tactic(auto, unfolding(parser_rules::specs::Literals::arguments_text))]
    pub fn arguments_text(&self, reader: &mut Reader<'_>) -> Result<(), NoMemory>
        requires { Nests self.now.levels (F.pre self.now.inside) (F.post self.now.inside) }
        ensures { Runs self.now.levels arguments_text result reader.old reader.new }
    {
        self.passed_arguments(reader)?;
        reader.close()
    }
}
