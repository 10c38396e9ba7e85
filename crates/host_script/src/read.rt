//! A host script, read from its bytes.
ghost use Rattle.std.specs.Prelude.{◌<◌, ◌↔◌, length, IfOk, IsErrOf};
ghost use Rattle.host_syntax.specs.Whole.{IsWhole};
ghost use Rattle.host_script.specs.HostText.{host_of};
ghost use Rattle.host_script.specs.Script.{HasNames};
ghost use Rattle.host_script.specs.Faults.{Gives};

use crate::draft::Draft;
use crate::fault::at;
use crate::lines::Lines;
use crate::{HostFault, HostKind, HostScript};
use std::alloc::Global;

const MOST_BYTES: usize = 4_194_304;

/// Reads a host script: lines of commands, as `specs/HostText.antt` has them.
///
/// `At` with line 0 and `TooLong` comes exactly where there are more than 4,194,304 bytes. `At` with
/// another line, counted from 1, comes exactly where that line is the first with a fault; it tells the
/// first of the line's kinds, in this order:
///
/// - `TooLong`: the text of a command has more than 65,536 bytes.
/// - `BadUtf8`: the line isn't UTF-8.
/// - `UnknownCommand`: the first word isn't a command.
/// - `OpenText`: a text begins with `<<W`, and no later line is equal to `W`.
/// - `BadWords`: a wrong number of words, a word where an option may stand that is none or gives the same
///   one again, a text that is missing, or one that isn't wanted.
/// - `BadName`: the name of a new isolate, or a new label, hasn't the form of a name.
/// - `NameTaken`: an earlier line gave that name.
/// - `UnknownName`: no earlier line gave the name that is used.
/// - `WrongKind`: the name that is used is an isolate's, a context's or another call's where one of
///   another kind is wanted.
/// - `BadNumber`: what is given to an option isn't a decimal number without a superfluous zero: to `limit`
///   one from 1,000 to 4,000,000, to `timeout` one from 1 to 100,000,000.
/// - `BadLiteral`: the text of a `set` isn't one primitive literal.
/// - `TooManyIsolates`: it is the 65th `isolate`.
/// - `TotalCells`: the limits of the isolates so far, together, pass 16,000,000 cells; one whose line gives
///   no limit has 1,000,000.
///
/// `NoMemory` comes at any script, as memory runs out.
///
/// In a script that was read each command names what earlier lines made (`whole`), and the names have
/// the form of names and are all different (`named`).
pub fn read_host(alloc: Global, bytes: &[u8]) -> Result<HostScript, HostFault>
    ensures exact { Gives (λ script. script) result (host_of bytes.now) }
    ensures whole { IfOk result IsWhole }
    ensures named { IfOk result HasNames }

    ensures too_long { IsErrOf result (HostFault.At 0 HostKind.TooLong) ↔ (4194304 < length bytes.now) }
{
    if bytes.len() > MOST_BYTES {
        return Err(at(0, HostKind::TooLong));
    }
    let mut lines = Lines {
        rest: bytes,
        number: 0,
    };
    let mut draft = Draft::new(alloc);
    while let Some(line) = lines.next() {
        draft.line(alloc, line, &mut lines)?;
    }
    Ok(draft.script)
}
