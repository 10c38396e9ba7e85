//! What the parts of a command are, and what a settlement holds.
ghost use Rattle.std.specs.Prelude.{◌≡◌, IfOk};
ghost use Rattle.host_syntax.specs.Whole.{context_of};
ghost use Rattle.host_meaning.specs.Machine.{isolate_of, context_in, row_in, argument_of, held_by};

use host_meaning::Held;
use host_syntax::{HostArgument, HostScript, What};
use ivm_text::{CloneWhole, Passed};
use std::alloc::{AllocError, Global};
use task_history::Outcome;

/// The isolate in which a command makes a context; none where there is no such command, or it makes none.
pub fn isolate_of(script: &HostScript, command: u32) -> Option<u32>
    ensures { result ≡ isolate_of script.now command }
{
    match script.commands.get(command) {
        Some(command) => isolate_named(&command.what),
        None => None,
    }
}

fn isolate_named(what: &What) -> Option<u32>
    ensures { result ≡ context_of what.now }
{
    match what {
        What::Context { isolate } => Some(*isolate),
        What::Declare
        | What::Eval { .. }
        | What::Get { .. }
        | What::Set { .. }
        | What::Dispose { .. }
        | What::Wait(_) => None,
    }
}

/// The context that a settlement holds, if it holds one.
pub fn context_in(held: Option<Held>) -> Option<u32>
    ensures { result ≡ context_in held }
{
    match held {
        Some(Held::Context { context, .. }) => Some(context),
        Some(Held::Nothing) | None => None,
    }
}

/// The row of the global object of the context that a settlement holds, if it holds one.
pub fn row_in(held: Option<Held>) -> Option<u32>
    ensures { result ≡ row_in held }
{
    match held {
        Some(Held::Context { row, .. }) => Some(row),
        Some(Held::Nothing) | None => None,
    }
}

/// The value that a command hands over.
pub fn argument_of(argument: &HostArgument, alloc: Global) -> Result<Passed, AllocError>
    ensures { IfOk result (λ passed. passed ≡ argument_of argument.now) }
{
    match argument {
        HostArgument::Literal(copy) => Ok(Passed::Copy(copy.clone_whole(alloc)?)),
    }
}

/// What a settlement by an outcome holds.
pub fn held_by(outcome: &Outcome) -> Held
    ensures { result ≡ held_by outcome.now }
{
    match outcome {
        Outcome::Context { context, row } => Held::Context {
            context: *context,
            row: *row,
        },
        _ => Held::Nothing,
    }
}
