//! Early faults, and which of two is told.
ghost use Rattle.std.specs.Prelude.{◌≡◌};
ghost use Rattle.js_syntax.specs.Order.{number_of};
ghost use Rattle.js_syntax.specs.Noted.{is_before, earlier_of};

use ivm_text::RefusalKind;

/// What can be wrong with a script that the grammar derives, in the order of the refusals' numbers.
#[derive(Debug, Clone, Copy, PartialEq, Eq)]
pub enum FaultKind {
    TwiceDeclared,
    BadTarget,
    StrayBreak,
    StrayReturn,
}

/// An early fault, at a byte of the text counted from 0.
#[derive(Debug, Clone, Copy, PartialEq, Eq)]
pub struct Fault {
    pub kind: FaultKind,
    pub place: u32,
}

impl FaultKind {
    /// The number of the refusal.
    pub fn number(self) -> u8
        ensures { result ≡ number_of self }
    {
        match self {
            FaultKind::TwiceDeclared => 10,
            FaultKind::BadTarget => 11,
            FaultKind::StrayBreak => 12,
            FaultKind::StrayReturn => 13,
        }
    }
}

impl Fault {
    /// Whether this fault is told before the other: it stands earlier, or there too and has the
    /// lower number.
    pub(crate) fn is_before(self, other: Fault) -> bool
        ensures { result ≡ is_before self other }
    {
        self.place < other.place
            || self.place == other.place && self.kind.number() < other.kind.number()
    }
}

/// The fault that is told of two that may be there.
pub(crate) fn earlier_of(first: Option<Fault>, second: Option<Fault>) -> Option<Fault>
    ensures { result ≡ earlier_of first second }
{
    match (first, second) {
        (Some(one), Some(other)) => Some(if other.is_before(one) { other } else { one }),
        (None, fault) | (fault, None) => fault,
    }
}
