//! Texts of tasks: how they are read and run.
ghost use Rattle.std.specs.Prelude.{◌≡◌, ◌-◌, ◌<◌, ◌^◌, IfOk, Some, length};
ghost use Rattle.script_eval.specs.Runs.{IsSoundCompletion, root_of};
ghost use Rattle.script_meaning.specs.Places.{script_at};
ghost use Rattle.js_scripts.specs.Text.{script as script_reading};
ghost use Rattle.isolate_meaning.specs.State.{AreClosed, HeapIsClosed};
ghost use Rattle.isolate_meaning.specs.Tasks.{context_at, last_run, run_done, text_run};
ghost use Rattle.isolate_meaning.specs.Does.{RunsText};
ghost use Rattle.isolate_core.specs.Contents.{contents_of};
ghost use Rattle.isolate_core.specs.Done.{done_of};

use crate::contents::Contents;
use crate::done::{Done, refused};
use crate::values::{result, thrown};
use charged_heap::{Item, make};
use ivm_text::NoMemory;
use js_parser::SyntaxFault;
use js_scripts::read_script;
use js_syntax::Checked;
use script_eval::run_script;
use script_meaning::{Completion, StopCause};
use std::alloc::Global;
use task_history::Outcome;

/// What a run comes to that ended so, after so many ticks.
#[tactic(auto, using(crate::proofs::DoneLemmas::dones))]
fn run_done(
    alloc: Global,
    contents: Contents,
    completion: Completion,
    ticks: u32,
) -> Result<Done, NoMemory>
    requires closed { AreClosed (contents_of contents) }
    requires sound { IsSoundCompletion contents.heap completion }

    ensures done { IfOk result (λ done. done_of done ≡ run_done (contents_of contents) (completion, contents.heap, ticks)) }
    ensures closed { IfOk result (λ done. HeapIsClosed (done_of done).state) }
{
    let outcome = match completion {
        Completion::Normal(value) => result(alloc, &contents.heap, value)?,
        Completion::Throw(value) => thrown(alloc, &contents.heap, value)?,
        Completion::Stop(StopCause::Timeout) => Outcome::Timeout(ticks),
        Completion::Stop(StopCause::Memory(overrun)) => {
            return Ok(Done::Over {
                overrun,
                ticks,
                cells: contents.heap.charged(),
            });
        }
    };
    Ok(Done::Lives {
        contents,
        outcome,
        ticks,
    })
}

/// Runs the last script in a context, within so many ticks.
#[tactic(auto, using(crate::proofs::Growing::growing, crate::proofs::Growing::contents))]
fn run_last(
    alloc: Global,
    mut contents: Contents,
    budget: u32,
    number: u32,
) -> Result<Done, NoMemory>
    requires closed { AreClosed (contents_of contents) }
    requires script { 0 < length contents.scripts }
    requires there { number < length contents.contexts }

    ensures done { IfOk result (λ done. done_of done ≡ last_run budget (root_of (script_at contents.scripts (length contents.scripts - 1))) (context_at (contents_of contents) number) (contents_of contents)) }
    ensures closed { IfOk result (λ done. HeapIsClosed (done_of done).state) }
{
    let context = &contents.contexts.as_slice()[number as usize];
    let mut ticks = 0;
    let completion = run_script(
        alloc,
        &mut contents.heap,
        &contents.scripts,
        contents.scripts.len() - 1,
        context.names(),
        context.global(),
        &mut ticks,
        budget,
    )?;
    run_done(alloc, contents, completion, ticks)
}

/// Charges a script, keeps it behind the others, and runs it in a context within so many ticks.
#[tactic(auto, unfolding(isolate_meaning::specs::Tasks::text_run), using(crate::proofs::Growing::contents, crate::proofs::DoneLemmas::dones, crate::proofs::DoneLemmas::last_script))]
fn run_checked(
    alloc: Global,
    mut contents: Contents,
    budget: u32,
    number: u32,
    checked: Checked,
) -> Result<Done, NoMemory>
    requires closed { AreClosed (contents_of contents) }
    requires there { number < length contents.contexts }

    ensures done { IfOk result (λ done. text_run budget number (script_reading checked) (contents_of contents) ≡ Some (done_of done)) }
    ensures closed { IfOk result (λ done. HeapIsClosed (done_of done).state) }
{
    let script = contents.scripts.len();
    match make(&mut contents.heap, Item::Script(script)) {
        Ok(_) => {
            contents.scripts.push(checked)?;
            run_last(alloc, contents, budget, number)
        }
        Err(fail) => refused(alloc, contents, fail),
    }
}

/// Reads a text and runs it in a context (isolated-vm: `context.eval`), within so many ticks. A text that is no script
/// is refused, and nothing changes.
#[tactic(auto, unfolding(isolate_meaning::specs::Tasks::text_run))]
pub(crate) fn run_text(
    alloc: Global,
    contents: Contents,
    budget: u32,
    number: u32,
    text: &[u8],
) -> Result<Done, NoMemory>
    requires closed { AreClosed (contents_of contents) }
    requires there { number < length contents.contexts }
    requires few { length text.now < 2 ^ 32 }

    ensures done { IfOk result (λ done. RunsText budget number text.now (contents_of contents) (done_of done)) }
    ensures closed { IfOk result (λ done. HeapIsClosed (done_of done).state) }
{
    match read_script(alloc, text) {
        Ok(checked) => run_checked(alloc, contents, budget, number, checked),
        Err(SyntaxFault::Refused(refusal)) => Ok(Done::Lives {
            contents,
            outcome: Outcome::Syntax(refusal),
            ticks: 0,
        }),
        Err(SyntaxFault::NoMemory) => Err(NoMemory),
    }
}
