//! The machine: it keeps the forms that wait in a list, and goes on step by step.
ghost use Rattle.std.specs.Prelude.{◌≡◌, ◌≢◌, ◌⊎◌, ◌+◌, ◌*◌, ◌-◌, ◌<◌, ◌≤◌, Err, IfOk, MatchOption, MatchResult, length};
ghost use Rattle.charged_heap.specs.Closed.{IsClosed};
ghost use Rattle.charged_heap.specs.Growth.{Grows};
ghost use Rattle.script_meaning.specs.Evaluates.{evaluated, NESTING};
ghost use Rattle.script_meaning.specs.Outcome.{State};
ghost use Rattle.script_meaning.specs.Places.{ScriptList};
ghost use Rattle.script_steps.specs.After.{step_out, with_left};
ghost use Rattle.script_steps.specs.Fits.{StepFits};
ghost use Rattle.script_steps.specs.Sound.{IsSoundEnd, IsSoundSite, IsSoundStep};
ghost use Rattle.script_eval.specs.Machines.{AreSoundFrames, IsSoundControl};
ghost use Rattle.script_eval.specs.Rest.{inner_out, left_over, rest};
ghost use Rattle.script_eval.specs.Weight.{IsEnded, IsLast, IsRunning, step_rank, weight};

use crate::enter::{call, enter};
use charged_heap::Heap;
use ivm_text::{Items, NoMemory};
use js_syntax::Scripts;
use script_meaning::{Abrupt, Ended, nodes_take_ticks};
use script_steps::{Frame, Inner, Step, resume};
use std::alloc::Global;

/// At most so many nodes are in evaluation at once.
const MOST_NODES: u32 = 256;

/// What the machine does next.
#[derive(Debug, Clone, Copy, PartialEq, Eq)]
pub enum Control {
    /// This node is evaluated: its tick is due.
    Node(Inner),
    /// What stood innermost has ended so.
    Ended(Result<Ended, Abrupt>),
}

/// The form that waits innermost goes on with this end, unless no memory was found.
#[inline(always)]
fn ended(end: Result<Ended, Abrupt>) -> Result<Control, NoMemory>
    ensures { MatchResult result (λ next. (next ≡ Control.Ended end) × (end ≢ Err Abrupt.NoMemory)) (λ _. end ≡ Err Abrupt.NoMemory) }
{
    match end {
        Err(Abrupt::NoMemory) => Err(NoMemory),
        _ => Ok(Control::Ended(end)),
    }
}

/// Carries on with what a step came to: its form waits inside the others, or it has ended, by a call of a
/// built-in function too.
#[tactic(auto, using(crate::proofs::RestLemmas::rest_steps, crate::proofs::Ranks::ranks, crate::proofs::FrameLists::frame_lists))]
#[inline(always)]
fn place(
    alloc: Global,
    scripts: &Scripts,
    heap: &mut Heap,
    left: &mut u32,
    frames: &mut Items<Frame>,
    step: Step,
) -> Result<Control, NoMemory>
    requires depth { IsEnded step ⊎ (length frames.old < NESTING) }
    requires closed { IsClosed heap.old }
    requires step { IsSoundStep heap.old step }
    requires fits { StepFits scripts.now step }
    requires frames { AreSoundFrames scripts.now heap.old frames.old }

    ensures meaning { IfOk result (λ next. left_over scripts.now frames.new next (with_left heap.new left.new) ≡ rest scripts.now 0 frames.old (step_out (evaluated scripts.now (255 - length frames.old)) scripts.now step (with_left heap.old left.old))) }
    ensures found { IfOk result (λ _. step ≢ Step.Ended (Err Abrupt.NoMemory)) }
    ensures falls { IfOk result (λ next. weight next frames.new left.new ≤ 1024 * left.old + step_rank step frames.old) }
    ensures less { left.new ≤ left.old }

    ensures grown { Grows heap.old heap.new }
    ensures closed { IsClosed heap.new }
    ensures sound { IfOk result (IsSoundControl heap.new) }
    ensures frames { AreSoundFrames scripts.now heap.new frames.new }
{
    let _ = scripts;
    match step {
        Step::Ended(end) => ended(end),
        Step::Into { frame, inner } => match frames.push(frame) {
            Ok(()) => Ok(Control::Node(inner)),
            Err(_) => Err(NoMemory),
        },
        Step::Builtin {
            which,
            receiver,
            arguments,
        } => {
            let end = call(alloc, heap, left, which, receiver, arguments.as_slice());
            ended(end)
        }
    }
}

/// Goes on by one node, or by one form that waited.
#[tactic(auto, using(crate::proofs::RestLemmas::rest_steps, crate::proofs::Ranks::ranks, crate::proofs::FrameLists::frame_lists))]
#[inline(always)]
fn advance(
    alloc: Global,
    scripts: &Scripts,
    heap: &mut Heap,
    left: &mut u32,
    frames: &mut Items<Frame>,
    next: Control,
) -> Result<Control, NoMemory>
    requires running { IsRunning next }
    requires closed { IsClosed heap.old }
    requires next { IsSoundControl heap.old next }
    requires frames { AreSoundFrames scripts.now heap.old frames.old }

    ensures meaning { IfOk result (λ later. left_over scripts.now frames.new later (with_left heap.new left.new) ≡ left_over scripts.now frames.old next (with_left heap.old left.old)) }
    ensures falls { IfOk result (λ later. IsLast next frames.old ⊎ (weight later frames.new left.new < weight next frames.old left.old)) }
    ensures less { left.new ≤ left.old }

    ensures grown { Grows heap.old heap.new }
    ensures closed { IsClosed heap.new }
    ensures sound { IfOk result (IsSoundControl heap.new) }
    ensures frames { AreSoundFrames scripts.now heap.new frames.new }
{
    nodes_take_ticks();
    match next {
        Control::Node(inner) => {
            let room = MOST_NODES - frames.len();
            let step = enter(alloc, scripts, heap, left, inner, room);
            place(alloc, scripts, heap, left, frames, step)
        }
        Control::Ended(end) => match frames.pop() {
            Some(frame) => {
                let step = resume(alloc, scripts, heap, frame, end);
                place(alloc, scripts, heap, left, frames, step)
            }
            None => Ok(next),
        },
    }
}

/// How the run has ended: nothing waits any more, or it is stopped.
#[tactic(auto, using(crate::proofs::Ends::ends))]
#[inline(always)]
fn finished(frames: &Items<Frame>, next: Control) -> Option<Result<Ended, Abrupt>>
    ensures meaning { MatchOption result (IsRunning next) (λ end. (scripts : ScriptList) (s : State) → left_over scripts frames.now next s ≡ (end, s)) }
    ensures last { MatchOption result (¬ (IsLast next frames.now)) (λ end. next ≡ Control.Ended end) }
{
    match next {
        Control::Ended(Err(Abrupt::Stop(cause))) => Some(Err(Abrupt::Stop(cause))),
        Control::Ended(end) if frames.len() == 0 => Some(end),
        _ => None,
    }
}

/// Evaluates a node that stands in no other, with the ticks that are left.
#[tactic(auto, using(script_steps::proofs::Growing::growing))]
pub(crate) fn run(
    alloc: Global,
    scripts: &Scripts,
    heap: &mut Heap,
    left: &mut u32,
    inner: Inner,
) -> Result<Result<Ended, Abrupt>, NoMemory>
    requires closed { IsClosed heap.old }
    requires site { IsSoundSite heap.old inner.site }

    ensures meaning { IfOk result (λ end. inner_out scripts.now NESTING inner (with_left heap.old left.old) ≡ (end, with_left heap.new left.new)) }
    ensures less { left.new ≤ left.old }

    ensures grown { Grows heap.old heap.new }
    ensures closed { IsClosed heap.new }
    ensures sound { IfOk result (IsSoundEnd heap.new) }
{
    let mut frames = Items::new(alloc);
    let mut next = Control::Node(inner);
    loop {
        if let Some(end) = finished(&frames, next) {
            return Ok(end);
        }
        next = advance(alloc, scripts, heap, left, &mut frames, next)?;
    }
}
