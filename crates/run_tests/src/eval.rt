//! The word `eval`: runs each text of standard input, with a zero byte between two.

use crate::contexts::{Context, carry_out, new_context, read_text};
use crate::printed::end_text;
use crate::trials::AMPLE;
use anyhow::Error;
use std::io;
use std::io::{BufWriter, Read, Write};
use std::time::Instant;

/// A line for each text. A second word asks for more: with `timed` the line has the time of the run,
/// with `together` all texts run in one context.
pub fn run(rt: &HostRuntime, how: Option<&str>) -> Result<(), Error> {
    let alloc = rt.alloc();
    let timed = how == Some("timed");
    let together = how == Some("together");
    let mut input = Vec::new(alloc);
    rt.reader().read_to_end(&mut input)?;
    let mut out = BufWriter::new(alloc, io::writer(rt))?;
    let mut context = new_context(alloc, AMPLE)?;
    for text in input.split(|byte| *byte == 0) {
        if !together {
            context = new_context(alloc, AMPLE)?;
        }
        tell(rt, &mut out, &mut context, text, timed)?;
    }
    out.flush()?;
    Ok(())
}

/// How a text's run ended, with its ticks and cells; or why it is no script.
fn tell<W: Write>(
    rt: &HostRuntime,
    out: &mut W,
    context: &mut Context,
    text: &[u8],
    timed: bool,
) -> Result<(), Error> {
    let alloc = rt.alloc();
    let checked = match read_text(alloc, text)? {
        Ok(checked) => checked,
        Err(refusal) => return Ok(writeln!(out, "{refusal}")?),
    };
    let start = Instant::now(rt)?;
    let run = carry_out(alloc, context, checked, AMPLE)?;
    let taken = start.elapsed(rt)?;
    let answer = end_text(alloc, &context.heap, run.end)?;
    write!(out, "{answer}; {} ticks, {} cells", run.ticks, run.cells)?;
    if timed {
        write!(out, " in {taken:?}")?;
    }
    Ok(writeln!(out)?)
}
