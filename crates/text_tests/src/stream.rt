//! Texts of standard input, with a zero byte between two: a line answers each of them.
ghost use Rattle.std.specs.Prelude.{◌<◌, ◌^◌, length};

use crate::nodes::nodes_line;
use crate::refusals::{fault_line, refusal_line};
use crate::tokens::tokens_line;
use anyhow::{Error, bail};
use js_lexer::lex;
use js_parser::parse;
use js_syntax::{EarlyFault, Script, early};
use std::alloc::Global;
use std::io;
use std::io::{BufWriter, Read, Write};
use std::time::Instant;

/// The longest text that is read, in bytes.
const MOST: usize = 1 << 30;

/// With the word `lex` the tokens of each text are told, with `parse` its nodes; where it is timed, how many there are and
/// the time that it took to find them.
pub fn run(rt: &HostRuntime, word: &str, timed: bool) -> Result<(), Error> {
    let mut input = Vec::new(rt.alloc());
    rt.reader().read_to_end(&mut input)?;
    let mut out = BufWriter::new(rt.alloc(), io::writer(rt))?;
    for text in input.split(|byte| *byte == 0) {
        if text.len() > MOST {
            bail!("a text is too long");
        }
        let line = match word {
            "lex" => lexed(rt, text, timed)?,
            "parse" => parsed(rt, text, timed)?,
            _ => bail!("the words are lex and parse"),
        };
        writeln!(out, "{line}")?;
    }
    out.flush()?;
    Ok(())
}

fn lexed(rt: &HostRuntime, text: &[u8], timed: bool) -> Result<String, Error>
    requires { length text.now < 2 ^ 32 }
{
    let start = Instant::now(rt)?;
    let read = lex(rt.alloc(), text);
    let taken = start.elapsed(rt)?;
    match read {
        Ok(tokens) if timed => {
            Ok(format!(in rt.alloc(); "{} tokens in {taken:?}", tokens.len())?)
        }
        Ok(tokens) => Ok(format!(in rt.alloc(); "tokens {}", tokens_line(rt.alloc(), &tokens)?)?),
        Err(fault) => fault_line(rt.alloc(), &fault),
    }
}

fn parsed(rt: &HostRuntime, text: &[u8], timed: bool) -> Result<String, Error>
    requires { length text.now < 2 ^ 32 }
{
    let start = Instant::now(rt)?;
    let read = parse(rt.alloc(), text);
    let taken = start.elapsed(rt)?;
    match read {
        Ok(script) if timed => Ok(format!(in rt.alloc(); "{} nodes in {taken:?}", script.len())?),
        Ok(script) => script_line(rt.alloc(), script),
        Err(fault) => fault_line(rt.alloc(), &fault),
    }
}

/// The nodes of a script, or its early fault.
fn script_line(alloc: Global, script: Script) -> Result<String, Error> {
    match early(script) {
        Ok(checked) => {
            let nodes = nodes_line(alloc, checked.script(), true)?;
            Ok(format!(in alloc; "script {nodes}")?)
        }
        Err(
            EarlyFault::Refused {
                refusal,
                script: _script,
            },
        ) => refusal_line(alloc, &refusal),
    }
}
