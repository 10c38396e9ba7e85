//! Scripts are checked.
ghost use Rattle.std.specs.Prelude.{◌≡◌, ◌↔◌, IfOk, IfErr, IsOk};
ghost use Rattle.js_syntax.specs.Early.{HasNoEarlyFault};
ghost use Rattle.js_syntax.specs.Answer.{kind_of, Refuses};

use crate::{Checked, FaultKind, Refusal, RefusalKind, Script};

/// Why a script is not checked.
#[derive(Debug, Drop)]
pub enum EarlyFault {
    /// It has an early fault; the script is handed back.
    Refused { refusal: Refusal, script: Script },
}

// The refusal for a fault of this kind.
fn refusal_kind(kind: FaultKind) -> RefusalKind
    ensures { result ≡ kind_of kind }
{
    match kind {
        FaultKind::TwiceDeclared => RefusalKind::TwiceDeclared,
        FaultKind::BadTarget => RefusalKind::BadTarget,
        FaultKind::StrayBreak => RefusalKind::StrayBreak,
        FaultKind::StrayReturn => RefusalKind::StrayReturn,
    }
}

/// Checks a script for early faults (ECMA-262, Static Semantics: Early Errors, with the differences
/// that docs/SCRIPTS.md names). It takes no memory.
///
/// `Refused` comes exactly where the tree under the script's root has an early fault. The refusal
/// is that of the fault that stands first, and of two at one byte that with the lower number; it
/// has no word. The script is handed back as it was.
pub fn early(script: Script) -> Result<Checked, EarlyFault>
    ensures ok { IfOk result (λ checked. checked ≡ script) }
    ensures refused { IfErr result (Refuses script) }
    ensures exactly { IsOk result ↔ HasNoEarlyFault script }
{
    match script.early_fault() {
        None => Ok(Checked::of(script)),
        Some(fault) => Err(EarlyFault::Refused {
            refusal: Refusal {
                kind: refusal_kind(fault.kind),
                place: fault.place,
                word: None,
            },
            script,
        }),
    }
}
