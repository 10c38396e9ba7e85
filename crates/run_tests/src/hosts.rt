//! What a host script reads as, or its first fault.

use crate::fronts::{common, expanded, is_common, script_at};
use crate::told::{spelled, told_of_leaf};
use anyhow::Error;
use host_script::{HostArgument, IsolateDecl, What, read_host};
use std::alloc::Global;
use test_tables::{Table, Tally};

/// The limit of an isolate, and the ticks of an `eval`, that stand for themselves.
const USUAL: u32 = 1_000_000;

/// Reads the script of each row.
pub fn run(rt: &HostRuntime, tally: &mut Tally, table: &Table) -> Result<(), Error> {
    let alloc = rt.alloc();
    for (place, row) in table.rows.as_slice().iter().enumerate() {
        if !is_common(row)? {
            let script = script_at(alloc, table, place, row)?;
            let told = common(table, place, "told")?;
            let wanted = format!(in alloc; "{told}{}", row.field(1)?)?;
            let wanted = String::from_utf8(expanded(alloc, &wanted)?)?;
            tally.check(rt, row, &wanted, &told_of_script(alloc, &script)?)?;
        }
    }
    Ok(())
}

/// The isolates, then the commands under their labels or `-`, each before a bar; or the fault.
fn told_of_script(alloc: Global, bytes: &[u8]) -> Result<String, Error> {
    let script = match read_host(alloc, bytes) {
        Ok(script) => script,
        Err(fault) => return Ok(format!(in alloc; "{fault}")?),
    };
    let mut told = String::new(alloc);
    for isolate in script.isolates.as_slice() {
        told.push_str(&told_of_isolate(alloc, isolate)?)?;
    }
    for command in script.commands.as_slice() {
        match &command.label {
            Some(label) => told.push_str(&spelled(alloc, label)?)?,
            None => told.push('-')?,
        }
        told.push_str(&told_of_what(alloc, &command.what)?)?;
        told.push('|')?;
    }
    Ok(told)
}

/// `a|`, or `a<1000>|` where its limit isn't the usual one.
fn told_of_isolate(alloc: Global, isolate: &IsolateDecl) -> Result<String, Error> {
    let name = spelled(alloc, &isolate.name)?;
    match isolate.limit {
        USUAL => Ok(format!(in alloc; "{name}|")?),
        limit => Ok(format!(in alloc; "{name}<{limit}>|")?),
    }
}

/// `@0` a context of isolate 0; `@1[t]` the text t in the context of command 1, with `<5>` behind it where
/// its ticks aren't the usual ones; `@1.k` a get and `@1.k=v` a set there; `!0` a disposal of isolate 0;
/// `?` and `?4` a wait.
fn told_of_what(alloc: Global, what: &What) -> Result<String, Error> {
    match what {
        What::Declare => Ok(String::new(alloc)),
        What::Context { isolate } => Ok(format!(in alloc; "@{isolate}")?),
        What::Eval {
            context,
            budget,
            text,
            ..
        } => {
            let text = String::from_utf8_lossy(alloc, text.as_slice())?;
            match *budget {
                USUAL => Ok(format!(in alloc; "@{context}[{text}]")?),
                ticks => Ok(format!(in alloc; "@{context}[{text}]<{ticks}>")?),
            }
        }
        What::Get { target, key, .. } => {
            let key = spelled(alloc, key)?;
            Ok(format!(in alloc; "@{target}.{key}")?)
        }
        What::Set {
            target,
            key,
            value: HostArgument::Literal(copy),
        } => {
            let key = spelled(alloc, key)?;
            let value = told_of_leaf(alloc, copy.root)?;
            Ok(format!(in alloc; "@{target}.{key}={value}")?)
        }
        What::Dispose { isolate } => Ok(format!(in alloc; "!{isolate}")?),
        What::Wait(None) => Ok(String::from_str(alloc, "?")?),
        What::Wait(Some(target)) => Ok(format!(in alloc; "?{target}")?),
    }
}
