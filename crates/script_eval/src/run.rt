//! Runs of scripts.
ghost use Rattle.std.specs.Prelude.{◌≡◌, ◌≤◌, IfOk};
ghost use Rattle.charged_heap.specs.Closed.{IsClosed};
ghost use Rattle.charged_heap.specs.Growth.{Grows};
ghost use Rattle.charged_heap.specs.Store.{IsAt, IsPlain, IsScope};
ghost use Rattle.script_laws.specs.Scripts.{ScriptsAreThere};
ghost use Rattle.script_meaning.specs.Evaluates.{completion_of, run_end, run_start, script_run};
ghost use Rattle.script_meaning.specs.Places.{script_at};
ghost use Rattle.script_steps.specs.After.{with_left};
ghost use Rattle.script_steps.specs.Sound.{IsSoundEnd};
ghost use Rattle.script_eval.specs.Runs.{IsSoundCompletion, root_of};

use crate::machine::run;
use charged_heap::{Fail, Heap, Value};
use ivm_text::NoMemory;
use js_scopes::declare_script;
use js_syntax::Scripts;
use script_meaning::{Abrupt, Completion, Ended, Role, Site};
use script_steps::{Inner, abrupt_of, declarations_at};
use std::alloc::Global;

/// The number of the node that is the whole script, which stands last.
#[tactic(auto, using(script_steps::proofs::FormLemmas::no_script, script_steps::proofs::FormLemmas::a_script))]
fn root_at(scripts: &Scripts, script: u32) -> u32
    ensures { result ≡ root_of (script_at scripts.now script) }
{
    match scripts.get(script) {
        Some(checked) => checked.script().len().saturating_sub(1),
        None => 0,
    }
}

/// How a run ends whose outermost node ended so.
fn completion_of(end: Result<Ended, Abrupt>) -> Completion
    ensures { result ≡ completion_of end }
{
    match end {
        Ok(Ended::Value(value)) => Completion::Normal(value),
        Ok(_) => Completion::Normal(Value::Undefined),
        Err(Abrupt::Throw(value)) => Completion::Throw(value),
        Err(Abrupt::Stop(cause)) => Completion::Stop(cause),
        Err(_) => Completion::Normal(Value::Undefined),
    }
}

/// Declares a script's names and runs it, with the ticks that are left.
#[tactic(auto, unfolding(script_meaning::specs::Evaluates::script_run), using(script_steps::proofs::Growing::growing, crate::proofs::Roots::globals))]
fn perform(
    alloc: Global,
    heap: &mut Heap,
    scripts: &Scripts,
    script: u32,
    names: u32,
    global: u32,
    left: &mut u32,
) -> Result<Result<Ended, Abrupt>, NoMemory>
    requires closed { IsClosed heap.old }
    requires names { IsAt IsScope heap.old names }
    requires global { IsAt IsPlain heap.old global }

    ensures meaning { IfOk result (λ end. script_run scripts.now script (root_of (script_at scripts.now script)) names global (with_left heap.old left.old) ≡ (end, with_left heap.new left.new)) }
    ensures less { left.new ≤ left.old }

    ensures grown { Grows heap.old heap.new }
    ensures closed { IsClosed heap.new }
    ensures sound { IfOk result (IsSoundEnd heap.new) }
{
    let root = root_at(scripts, script);
    let declared = declarations_at(alloc, scripts, script, root)?;
    match declare_script(alloc, heap, script, names, global, &declared) {
        Ok(()) => {
            let site = Site {
                script,
                scope: names,
                global,
                receiver: Value::Item(global),
            };
            let whole = Inner {
                role: Role::Statement,
                node: root,
                site,
            };
            run(alloc, scripts, heap, left, whole)
        }
        Err(Fail::NoMemory) => Err(NoMemory),
        Err(fail) => Ok(Err(abrupt_of(fail))),
    }
}

/// Runs a script in a context: in the record `names` of its names and over the object `global`, which is its
/// `this` (ECMA-262, ScriptEvaluation).
///
/// `ticks` says how many ticks were taken of `budget` before, and then after the run. The script's names are
/// declared first; they take no tick. Then its statements are carried out, each node and each call of a
/// built-in function for one tick, due before it is evaluated.
///
/// The run gives the value of the last statement that has one, and undefined without one; or what the script
/// throws, also where a name can't be declared. It stops by `Timeout` exactly where a tick is due and `ticks`
/// is `budget`, and by `Memory` exactly where the next charge would pass the heap's limit. Inside 256 nodes in
/// evaluation a further one takes its tick and throws a new RangeError `nesting too deep`.
///
/// However the run ends, also by `NoMemory`, which may come, the heap has what was made before, and `ticks`
/// is at most `budget`. A run that ended leaves a heap whose functions are of these scripts, where it began in one.
pub fn run_script(
    alloc: Global,
    heap: &mut Heap,
    scripts: &Scripts,
    script: u32,
    names: u32,
    global: u32,
    ticks: &mut u32,
    budget: u32,
) -> Result<Completion, NoMemory>
    requires closed { IsClosed heap.old }
    requires names { IsAt IsScope heap.old names }
    requires global { IsAt IsPlain heap.old global }
    requires ticks { ticks.old ≤ budget }

    ensures run { IfOk result (λ completion. run_end budget (script_run scripts.now script (root_of (script_at scripts.now script)) names global (run_start heap.old ticks.old budget)) ≡ (completion, heap.new, ticks.new)) }
    ensures sound { IfOk result (IsSoundCompletion heap.new) }

    ensures grown { Grows heap.old heap.new }
    ensures closed { IsClosed heap.new }
    ensures scripts { IfOk result (λ _. ScriptsAreThere scripts.now heap.old → ScriptsAreThere scripts.now heap.new) }
    ensures ticks { ticks.new ≤ budget }
{
    let mut left = budget - *ticks;
    let end = perform(alloc, heap, scripts, script, names, global, &mut left);
    *ticks = budget - left;
    Ok(completion_of(end?))
}
