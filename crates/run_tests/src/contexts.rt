//! A heap with a context, and the scripts that are run in it.

use anyhow::{Error, bail};
use charged_heap::{Bindings, Heap, Item, Names, Props, Value};
use ivm_text::Refusal;
use js_parser::{SyntaxFault, parse};
use js_syntax::{Checked, EarlyFault, Kind, Script, Scripts, early};
use script_eval::run_script;
use script_meaning::Completion;
use std::alloc::Global;

/// The longest text that is read, in bytes.
const MOST: usize = 1 << 30;

/// The global object of the context.
const GLOBAL: u32 = 0;

/// The record of the context's names.
const NAMES: u32 = 1;

/// A context, with the scripts that have run in it.
#[derive(Drop)]
pub struct Context {
    pub heap: Heap,
    scripts: Scripts,
}

/// How a script ended, the ticks that it took and the cells that it charged.
#[derive(Drop)]
pub struct Run {
    pub end: Completion,
    pub ticks: u32,
    pub cells: u32,
}

/// An empty context: an object, a scope, a row, and a script.
pub fn new_context(alloc: Global, limit: u32) -> Result<Context, Error> {
    let mut heap = Heap::new(alloc, limit);
    heap.add(Item::Plain(Props::new(alloc)?))?;
    heap.add(Item::Scope {
        parent: None,
        bindings: Bindings::new(alloc),
        functions: Names::new(),
    })?;
    heap.add(Item::Row(Value::Item(GLOBAL)))?;
    heap.add(Item::Script(0))?;
    Ok(Context {
        heap,
        scripts: Scripts::new(alloc),
    })
}

/// The checked script of a text, or what is told of a text that is none.
pub fn read_text(alloc: Global, text: &[u8]) -> Result<Result<Checked, String>, Error> {
    if text.len() > MOST {
        bail!("a long text");
    }
    match parse(alloc, text) {
        Ok(script) => check_script(alloc, script),
        Err(SyntaxFault::Refused(refusal)) => Ok(Err(refusal_text(alloc, &refusal)?)),
        Err(SyntaxFault::NoMemory) => bail!("no memory"),
    }
}

/// A `new` has no rule yet.
fn check_script(alloc: Global, script: Script) -> Result<Result<Checked, String>, Error> {
    if (0..script.len()).any(|number| script.node(number).kind == Kind::New) {
        return Ok(Err(String::from_str(alloc, "no rule")?));
    }
    match early(script) {
        Ok(checked) => Ok(Ok(checked)),
        Err(
            EarlyFault::Refused {
                refusal,
                script: _script,
            },
        ) => Ok(Err(refusal_text(alloc, &refusal)?)),
    }
}

fn refusal_text(alloc: Global, refusal: &Refusal) -> Result<String, Error> {
    Ok(format!(in alloc; "syntax {:?} {}", refusal.kind, refusal.place)?)
}

/// Runs a script in a context.
pub fn carry_out(
    alloc: Global,
    context: &mut Context,
    checked: Checked,
    budget: u32,
) -> Result<Run, Error> {
    let script = context.scripts.len();
    context.scripts.push(checked)?;
    let Context { heap, scripts } = context;
    if !heap.is_closed() || !heap.is_plain(GLOBAL) || !heap.is_scope(NAMES) {
        bail!("the heap has no context");
    }
    let before = heap.charged();
    let mut ticks = 0;
    let end = run_script(
        alloc, heap, scripts, script, NAMES, GLOBAL, &mut ticks, budget,
    )?;
    let cells = heap.charged().saturating_sub(before);
    Ok(Run { end, ticks, cells })
}
