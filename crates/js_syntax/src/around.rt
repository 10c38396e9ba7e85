//! What stands around a form: whether a `break` or a `return` has something to leave.
ghost use Rattle.std.specs.Prelude.{◌≡◌};
ghost use Rattle.js_syntax.specs.Faults.{within, stray};
ghost use Rattle.js_syntax.specs.Noted.{least};

use crate::{Fault, FaultKind, Kind};

/// Whether a form stands in a function, and whether in a loop of its function.
#[derive(Debug, Clone, Copy, PartialEq, Eq)]
pub struct Around {
    pub in_function: bool,
    pub in_loop: bool,
}

impl Around {
    /// What stands around the parts of a form of this kind.
    pub(crate) fn within(self, kind: Kind) -> Around
        ensures { result ≡ within self kind }
    {
        match kind {
            Kind::While | Kind::For => Around {
                in_function: self.in_function,
                in_loop: true,
            },
            Kind::FunctionDecl | Kind::FunctionExpr | Kind::Arrow => Around {
                in_function: true,
                in_loop: false,
            },
            _ => self,
        }
    }

    /// The fault of a form that leaves what isn't there.
    pub(crate) fn stray(self, kind: Kind, place: u32) -> Option<Fault>
        ensures { result ≡ least (stray self kind place) }
    {
        let kind = match kind {
            Kind::Break | Kind::Continue if !self.in_loop => FaultKind::StrayBreak,
            Kind::Return if !self.in_function => FaultKind::StrayReturn,
            _ => return None,
        };
        Some(Fault { kind, place })
    }
}
