//! What every rule of the grammar starts from.

use crate::reader::Reader;
use ivm_text::NoMemory;
use parser_rules::Form;

/// The rules, over a function that reads what stands one level further inside.
#[derive(Clone, Copy)]
pub(crate) struct Grammar<F> {
    /// How many levels are left inside.
    pub levels: u32,
    pub inside: F,
}

impl<F: Fn(&mut Reader<'_>, u32, Form) -> Result<(), NoMemory>> Grammar<F> {
    ghost use Rattle.std.specs.Prelude.{◌≡◌};
    ghost use Rattle.parser_rules.specs.Rules.{inside};
    ghost use Rattle.js_parser.specs.State.{Runs};
    ghost use Rattle.js_parser.specs.Nests.{Nests};

    /// Reads a form one level further inside.
    pub fn inside(&self, reader: &mut Reader<'_>, form: Form) -> Result<(), NoMemory>
        requires { Nests self.now.levels (F.pre self.now.inside) (F.post self.now.inside) }
        ensures { Runs self.now.levels (inside form) result reader.old reader.new }
    {
        (self.inside)(reader, self.levels, form)
    }
}
