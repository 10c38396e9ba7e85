//! Scripts without early faults.
ghost use Rattle.std.specs.Prelude.{◌≡◌};
ghost use Rattle.js_syntax.specs.Early.{HasNoEarlyFault};

use crate::Script;
use ivm_text::Items;
use std::marker::Model;

/// A script without early faults, seen as the list of its nodes.
#[derive(Debug, Drop)]
pub struct Checked {
    script: Script,
}

/// Scripts that were checked, in the order of their numbers.
pub type Scripts = Items<Checked>;

impl Model for Checked {
    ghost use Rattle.std.specs.Prelude.{List};
    ghost use Rattle.js_syntax.specs.declared.node.Node.{Node};
    ghost use Rattle.js_syntax.specs.Early.{HasNoEarlyFault};

    ghost Value = { List Node };

    ghost view = { λ c. c.script };

    ghost invariant = { λ c. HasNoEarlyFault c.script };
}

impl Checked {
    /// A script that has no early fault.
    pub fn of(script: Script) -> Checked
        requires { HasNoEarlyFault script }
        ensures { result ≡ script }
    {
        Checked { script }
    }

    /// The script, which has no early fault.
    pub fn script(&self) -> &Script
        ensures script { result.now ≡ self.now }
        ensures checked { HasNoEarlyFault self.now }
    {
        &self.script
    }
}
