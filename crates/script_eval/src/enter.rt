//! Nodes and built-in functions whose tick is due.
ghost use Rattle.std.specs.Prelude.{◌≡◌, ◌≢◌, ◌⊎◌, ◌↔◌, ◌<◌, ◌≤◌, ◌-◌, Err, IsTrue, codes};
ghost use Rattle.std.specs.List.{All};
ghost use Rattle.charged_heap.specs.Closed.{IsClosed, IsSoundValue};
ghost use Rattle.charged_heap.specs.Growth.{Grows};
ghost use Rattle.charged_heap.specs.Ends.{Meets, IsSoundResult};
ghost use Rattle.js_ops.specs.Outcome.{thrown};
ghost use Rattle.script_meaning.specs.Evaluates.{evaluated, too_deep};
ghost use Rattle.script_meaning.specs.Functions.{builtin_rule};
ghost use Rattle.script_steps.specs.After.{Steps, step_out, with_left};
ghost use Rattle.script_steps.specs.Fits.{StepFits};
ghost use Rattle.script_steps.specs.Sound.{IsSoundEnd, IsSoundSite, IsSoundStep};
ghost use Rattle.script_eval.specs.Rest.{inner_out};
ghost use Rattle.script_eval.specs.Weight.{IsEnded, IsStop};

use charged_heap::{Builtin, Fail, Heap, Value};
use ivm_text::{ErrorKind, Units};
use js_syntax::Scripts;
use script_meaning::{Abrupt, Ended, StopCause, nodes_take_ticks};
use script_steps::{Inner, Step, abrupt_of, begin, call_builtin, of_heap};
use std::alloc::Global;

// ---- nesting

/// Throws the error of a node inside as many others as may be in evaluation at once.
fn refuse_depth(alloc: Global, heap: &mut Heap) -> Result<Value, Fail>
    ensures gives { Meets result heap.new (thrown ErrorKind.RangeError (codes "nesting too deep") heap.old) }

    ensures grown { Grows heap.old heap.new }
    ensures closed { IsClosed heap.old → IsClosed heap.new }
    ensures sound { IsSoundResult heap.new result }
{
    let message = Units::from_latin1(alloc, b"nesting too deep")?;
    js_ops::throw(heap, ErrorKind::RangeError, message)
}

/// Ends a node so whose tick was taken.
#[inline(always)]
fn too_deep(alloc: Global, scripts: &Scripts, heap: &mut Heap) -> Step
    ensures step { Steps scripts.now result heap.old heap.new (λ at s. too_deep s) }
    ensures ended { IsEnded result }

    ensures grown { Grows heap.old heap.new }
    ensures closed { IsClosed heap.old → IsClosed heap.new }
    ensures sound { IsSoundStep heap.new result }
    ensures fits { StepFits scripts.now result }
{
    let _ = scripts;
    of_heap(refuse_depth(alloc, heap))
}

// ---- ticks

/// Takes a tick, where one is left.
fn take_tick(left: &mut u32) -> bool
    ensures taken { IsTrue result ↔ (0 < left.old) }
    ensures left { left.new ≡ left.old - 1 }
{
    if *left == 0 {
        return false;
    }
    *left -= 1;
    true
}

/// Takes a node's tick and begins its form, where at most so many nodes may be in evaluation, itself
/// included. Where no tick is left the run stops.
#[tactic(auto, using(crate::proofs::Entering::entering, script_steps::proofs::Growing::growing))]
#[inline(always)]
pub(crate) fn enter(
    alloc: Global,
    scripts: &Scripts,
    heap: &mut Heap,
    left: &mut u32,
    inner: Inner,
    room: u32,
) -> Step
    requires closed { IsClosed heap.old }
    requires site { IsSoundSite heap.old inner.site }

    ensures step { result ≢ Step.Ended (Err Abrupt.NoMemory) → step_out (evaluated scripts.now (room - 1)) scripts.now result (with_left heap.new left.new) ≡ inner_out scripts.now room inner (with_left heap.old left.old) }
    ensures room { IsEnded result ⊎ (0 < room) }
    ensures ticked { (left.new < left.old) ⊎ IsStop result }
    ensures less { left.new ≤ left.old }

    ensures grown { Grows heap.old heap.new }
    ensures closed { IsClosed heap.new }
    ensures sound { IsSoundStep heap.new result }
    ensures fits { StepFits scripts.now result }
{
    nodes_take_ticks();
    if !take_tick(left) {
        return Step::Ended(Err(Abrupt::Stop(StopCause::Timeout)));
    }
    if room == 0 {
        too_deep(alloc, scripts, heap)
    } else {
        begin(alloc, scripts, heap, inner)
    }
}

/// Takes the tick of a call of a built-in function and calls it. Where no tick is left the run stops.
#[tactic(auto, using(crate::proofs::Entering::calling, script_steps::proofs::Growing::growing))]
#[inline(always)]
pub(crate) fn call(
    alloc: Global,
    heap: &mut Heap,
    left: &mut u32,
    which: Builtin,
    receiver: Value,
    arguments: &[Value],
) -> Result<Ended, Abrupt>
    requires closed { IsClosed heap.old }
    requires receiver { IsSoundValue heap.old receiver }
    requires arguments { All (IsSoundValue heap.old) arguments.now }

    ensures end { result ≢ Err Abrupt.NoMemory → builtin_rule which receiver arguments.now (with_left heap.old left.old) ≡ (result, with_left heap.new left.new) }
    ensures less { left.new ≤ left.old }

    ensures grown { Grows heap.old heap.new }
    ensures closed { IsClosed heap.new }
    ensures sound { IsSoundEnd heap.new result }
{
    if !take_tick(left) {
        return Err(Abrupt::Stop(StopCause::Timeout));
    }
    match call_builtin(alloc, heap, which, receiver, arguments) {
        Ok(value) => Ok(Ended::Value(value)),
        Err(fail) => Err(abrupt_of(fail)),
    }
}
