//! `throw` and `try`: where they begin, and how a `try` goes on to its `catch` and its `finally`.
ghost use Rattle.std.specs.Prelude.{◌≡◌, Ok, Result};
ghost use Rattle.charged_heap.specs.Closed.{IsClosed, IsSoundValue};
ghost use Rattle.charged_heap.specs.Growth.{Grows};
ghost use Rattle.charged_heap.specs.Store.{Store};
ghost use Rattle.js_trees.specs.Tree.{kid};
ghost use Rattle.script_meaning.specs.Handlers.{handler_by, throw_rule, try_end, try_rule};
ghost use Rattle.script_meaning.specs.Places.{form_at};
ghost use Rattle.script_steps.specs.After.{after, Steps, Waits};
ghost use Rattle.script_steps.specs.Fits.{Is, IsForm, StepFits};
ghost use Rattle.script_steps.specs.Sound.{IsSoundEnd, IsSoundSite, IsSoundStep};

use crate::endings::filled;
use crate::forms::{kid_at, kind_at, name_at};
use crate::{Frame, Step};
use charged_heap::{Fail, Heap, Value};
use js_syntax::{Kind, Scripts};
use script_meaning::{Abrupt, Ended, Site, StopCause};
use std::alloc::Global;

/// Begins `throw`.
#[tactic(auto, unfolding(crate::specs::After::after, script_meaning::specs::Handlers::throw_rule))]
#[inline(always)]
pub(crate) fn begin_throw(scripts: &Scripts, node: u32, site: Site) -> Step
    ensures step { Waits scripts.now result (λ at s. throw_rule at ((form_at scripts.now site.script node).kids) site s) }
    ensures sound { (s : Store) → IsSoundSite s site → IsSoundStep s result }
    ensures fits { StepFits scripts.now result }
{
    let value = kid_at(scripts, site.script, node, 0);
    Step::value(Frame::Throw, value, site)
}

/// Begins `try`.
#[tactic(auto, unfolding(crate::specs::After::after, script_meaning::specs::Handlers::try_rule))]
#[inline(always)]
pub(crate) fn begin_try(scripts: &Scripts, node: u32, site: Site) -> Step
    requires form { IsForm (Is Kind.Try) scripts.now site.script node }
    ensures step { Waits scripts.now result (λ at s. try_rule at (form_at scripts.now site.script node) site s) }
    ensures sound { (s : Store) → IsSoundSite s site → IsSoundStep s result }
    ensures fits { StepFits scripts.now result }
{
    let block = kid_at(scripts, site.script, node, 0);
    Step::statement(Frame::Try { node, site }, block, site)
}

/// Goes on with a `try` whose block or whose `catch` has ended so: it waits for its `finally`, where it has one
/// and wasn't stopped, and ends else.
#[tactic(auto, unfolding(crate::specs::After::after))]
#[inline(always)]
pub(crate) fn finish(scripts: &Scripts, node: u32, site: Site, end: Result<Ended, Abrupt>) -> Step
    requires form { IsForm (Is Kind.Try) scripts.now site.script node }
    ensures step { Waits scripts.now result (λ at s. after at scripts.now (Frame.Catch node site) (end, s)) }
    ensures sound { (s : Store) → IsSoundSite s site → IsSoundEnd s end → IsSoundStep s result }
    ensures fits { StepFits scripts.now result }
{
    let finalizer = kid_at(scripts, site.script, node, 2);
    match kind_at(scripts, site.script, finalizer) {
        Kind::Absent => filled(scripts, end),
        _ => match end {
            Err(Abrupt::Stop(cause)) => Step::Ended(Err(Abrupt::Stop(cause))),
            Err(Abrupt::NoMemory) => Step::Ended(Err(Abrupt::NoMemory)),
            before => Step::statement(Frame::Finally { before }, finalizer, site),
        },
    }
}

/// Begins the `catch` of a `try`, in a scope of its name where it has one.
#[tactic(auto, unfolding(crate::specs::After::after), using(crate::proofs::Growing::growing, crate::proofs::CallLemmas::site_in))]
#[inline(always)]
fn handle(
    alloc: Global,
    scripts: &Scripts,
    heap: &mut Heap,
    node: u32,
    site: Site,
    thrown: Value,
) -> Step
    requires site { IsSoundSite heap.old site }
    requires thrown { IsSoundValue heap.old thrown }
    requires form { IsForm (Is Kind.Try) scripts.now site.script node }

    ensures step { Steps scripts.now result heap.old heap.new (λ at s. try_end at (form_at scripts.now site.script node) site (handler_by ((form_at scripts.now site.script node).head).name at (kid 1 ((form_at scripts.now site.script node).kids)) site thrown s)) }

    ensures grown { Grows heap.old heap.new }
    ensures closed { IsClosed heap.old → IsClosed heap.new }
    ensures sound { IsSoundStep heap.new result }
    ensures fits { StepFits scripts.now result }
{
    let handler = kid_at(scripts, site.script, node, 1);
    let Some(name) = name_at(scripts, site.script, node) else {
        return Step::statement(Frame::Catch { node, site }, handler, site);
    };
    match js_scopes::catch_scope(alloc, heap, site.scope, name, thrown) {
        Ok(scope) => {
            let inside = Site { scope, ..site };
            Step::statement(Frame::Catch { node, site }, handler, inside)
        }
        Err(Fail::NoMemory) => Step::Ended(Err(Abrupt::NoMemory)),
        Err(Fail::Throw(value)) => finish(scripts, node, site, Err(Abrupt::Throw(value))),
        Err(Fail::Over(overrun)) => {
            let cause = StopCause::Memory(overrun);
            finish(scripts, node, site, Err(Abrupt::Stop(cause)))
        }
    }
}

/// Goes on with a `try` whose block has ended: what was thrown goes to its `catch`, where it has one.
#[tactic(auto, unfolding(crate::specs::After::after), using(crate::proofs::Growing::growing))]
#[inline(always)]
pub(crate) fn tried(
    alloc: Global,
    scripts: &Scripts,
    heap: &mut Heap,
    node: u32,
    site: Site,
    end: Result<Ended, Abrupt>,
) -> Step
    requires site { IsSoundSite heap.old site }
    requires end { IsSoundEnd heap.old end }
    requires form { IsForm (Is Kind.Try) scripts.now site.script node }

    ensures step { Steps scripts.now result heap.old heap.new (λ at s. after at scripts.now (Frame.Try node site) (end, s)) }

    ensures grown { Grows heap.old heap.new }
    ensures closed { IsClosed heap.old → IsClosed heap.new }
    ensures sound { IsSoundStep heap.new result }
    ensures fits { StepFits scripts.now result }
{
    let handler = kid_at(scripts, site.script, node, 1);
    match kind_at(scripts, site.script, handler) {
        Kind::Absent => finish(scripts, node, site, end),
        _ => match end {
            Err(Abrupt::Throw(value)) => handle(alloc, scripts, heap, node, site, value),
            end => finish(scripts, node, site, end),
        },
    }
}

/// Ends a `try` whose `finally` has ended: with the end before, unless the `finally` ended abruptly itself.
#[tactic(auto, unfolding(crate::specs::After::after))]
#[inline(always)]
pub(crate) fn finished(
    scripts: &Scripts,
    before: Result<Ended, Abrupt>,
    end: Result<Ended, Abrupt>,
) -> Step
    ensures step { Waits scripts.now result (λ at s. after at scripts.now (Frame.Finally before) (end, s)) }
    ensures sound { (s : Store) → IsSoundEnd s before → IsSoundEnd s end → IsSoundStep s result }
    ensures fits { StepFits scripts.now result }
{
    match end {
        Ok(_) => filled(scripts, before),
        Err(_) => filled(scripts, end),
    }
}
