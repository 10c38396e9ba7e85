//! A script from the bytes of its text.
ghost use Rattle.std.specs.Prelude.{◌≡◌, ◌<◌, ◌^◌, length, IfOk, IfErr};
ghost use Rattle.js_syntax.specs.Tree.{Trees, IsTreeOf};
ghost use Rattle.js_parser.specs.Nodes.{AreOfTheirTree};
ghost use Rattle.js_scripts.specs.Says.{IsToldOf, Says, told_of};
ghost use Rattle.js_scripts.specs.Text.{script, IsFaultOf, Reads, unbuilt_refusal};

use crate::unbuilt::lowest_unbuilt;
use js_parser::{SyntaxFault, parse};
use js_syntax::{Checked, EarlyFault, Refusal, RefusalKind, Script, early};
use std::alloc::Global;

// The refusal of a form that isn't built.
fn unbuilt(place: u32) -> Refusal
    ensures { result ≡ unbuilt_refusal place }
{
    Refusal {
        kind: RefusalKind::Unexpected,
        place,
        word: None,
    }
}

// A script without early faults, or the refusal of its first form that isn't built.
fn built(checked: Checked) -> Result<Checked, SyntaxFault>
    requires { AreOfTheirTree checked }

    ensures ok { IfOk result (λ nodes. (t : Trees) → IsTreeOf checked t → Says t (script nodes)) }
    ensures err { IfErr result (λ fault. (t : Trees) → IsTreeOf checked t → IsToldOf t fault) }
{
    match lowest_unbuilt(checked.script()) {
        Some(place) => Err(SyntaxFault::Refused(unbuilt(place))),
        None => Ok(checked),
    }
}

// What is told of an early fault.
fn told(fault: EarlyFault) -> SyntaxFault
    ensures { result ≡ told_of fault }
{
    match fault {
        EarlyFault::Refused { refusal, script: _ } => SyntaxFault::Refused(refusal),
    }
}

// The same of any script: its early fault is told first.
fn judged(parsed: Script) -> Result<Checked, SyntaxFault>
    requires { AreOfTheirTree parsed }

    ensures ok { IfOk result (λ nodes. (t : Trees) → IsTreeOf parsed t → Says t (script nodes)) }
    ensures err { IfErr result (λ fault. (t : Trees) → IsTreeOf parsed t → IsToldOf t fault) }
{
    match early(parsed) {
        Ok(checked) => built(checked),
        Err(fault) => Err(told(fault)),
    }
}

/// The script of a text of fewer than 2^32 bytes (ECMA-262, ParseScript).
///
/// Its nodes are those of the text's one tree, each form under the number that the tree gives it. A
/// text is refused as `parse` refuses it; else at its least early fault; else, as `Unexpected`, at the first form that isn't
/// built: a `new`.
pub fn read_script(alloc: Global, text: &[u8]) -> Result<Checked, SyntaxFault>
    requires { length text.now < 2 ^ 32 }

    ensures ok { IfOk result (λ nodes. Reads text.now (script nodes)) }
    ensures err { IfErr result (IsFaultOf text.now) }
{
    match parse(alloc, text) {
        Ok(parsed) => judged(parsed),
        Err(fault) => Err(fault),
    }
}
