//! Loops: where they begin, and how they go on from round to round.
ghost use Rattle.std.specs.Prelude.{◌≡◌, Ok, None, Option, IfErr, IfOk, IfSome};
ghost use Rattle.charged_heap.specs.Closed.{IsClosed, IsSoundValue};
ghost use Rattle.charged_heap.specs.Growth.{Grows};
ghost use Rattle.charged_heap.specs.Store.{IsAt, IsScope, Store};
ghost use Rattle.js_scopes.specs.Scopes.{scope_copied};
ghost use Rattle.js_trees.specs.Tree.{kid};
ghost use Rattle.charged_heap.specs.Ends.{IsSoundFail, Meets};
ghost use Rattle.script_meaning.specs.Loops.{first_round, for_loop, for_rule, headed, is_fresh, loop_rule, part, round_site, to_next, while_rule};
ghost use Rattle.script_meaning.specs.Places.{form_at};
ghost use Rattle.script_meaning.specs.Statements.{ended_with, or_undefined};
ghost use Rattle.script_steps.specs.After.{after, Steps, Turns};
ghost use Rattle.script_steps.specs.Fits.{AreLoopParts, Is, IsForm, StepFits};
ghost use Rattle.script_steps.specs.Loops.{form_of, loop_of};
ghost use Rattle.script_steps.specs.Sound.{IsSoundEnd, IsSoundSite, IsSoundStep};

use crate::endings::value_in;
use crate::ends::abrupt_of;
use crate::forms::{declarations_at, kid_at, kind_at};
use crate::statements::{ended_with, latest, or_undefined};
use crate::{Frame, LoopParts, Step};
use charged_heap::{Fail, Heap, Value};
use js_ops::truthy;
use js_syntax::{Kind, Scripts};
use script_meaning::{Abrupt, Ended, Site};
use std::alloc::Global;

// ---- rounds

/// Begins a round: the loop waits for its test, and where that is left out for its body.
#[tactic(auto, using(crate::proofs::LoopLemmas::turns))]
#[inline(always)]
fn begin_round(scripts: &Scripts, parts: LoopParts, last: Option<Value>, site: Site) -> Step
    requires fits { AreLoopParts scripts.now site.script parts }
    ensures step { (s : Store) → Turns scripts.now result s s (λ at s. loop_rule at (loop_of scripts.now site.script parts) last site s) }
    ensures sound { (s : Store) → IsSoundSite s site → IfSome last (IsSoundValue s) → IsSoundStep s result }
    ensures fits { StepFits scripts.now result }
{
    let _ = scripts;
    match parts.test {
        Some(test) => Step::value(Frame::LoopTest { parts, last, site }, test, site),
        None => Step::statement(Frame::LoopBody { parts, last, site }, parts.body, site),
    }
}

/// Ends a loop with its last value, and with undefined without one.
#[inline(always)]
fn end_loop(last: Option<Value>) -> Step
    ensures step { result ≡ Step.Ended (Ok (ended_with (or_undefined last))) }
    ensures sound { (s : Store) → IfSome last (IsSoundValue s) → IsSoundStep s result }
{
    Step::Ended(Ok(ended_with(or_undefined(last))))
}

/// Goes on with the value of a loop's test.
#[tactic(auto, unfolding(crate::specs::After::after))]
#[inline(always)]
pub(crate) fn loop_tested(
    scripts: &Scripts,
    heap: &Heap,
    parts: LoopParts,
    last: Option<Value>,
    site: Site,
    value: Value,
) -> Step
    requires value { IsSoundValue heap.now value }
    requires fits { AreLoopParts scripts.now site.script parts }

    ensures step { Steps scripts.now result heap.now heap.now (λ at s. after at scripts.now (Frame.LoopTest parts last site) (Ok (Ended.Value value), s)) }
    ensures sound { IsSoundSite heap.now site → IfSome last (IsSoundValue heap.now) → IsSoundStep heap.now result }
    ensures fits { StepFits scripts.now result }
{
    let _ = scripts;
    if truthy(heap, value) {
        return Step::statement(Frame::LoopBody { parts, last, site }, parts.body, site);
    }
    end_loop(last)
}

/// Makes a copy of a scope, for the next round.
fn copy_scope(alloc: Global, heap: &mut Heap, scope: u32) -> Result<u32, Fail>
    requires closed { IsClosed heap.old }
    requires scope { IsAt IsScope heap.old scope }

    ensures meets { Meets result heap.new (scope_copied scope heap.old) }

    ensures grown { Grows heap.old heap.new }
    ensures closed { IsClosed heap.new }
    ensures scope { IfOk result (IsAt IsScope heap.new) }
    ensures thrown { IfErr result (IsSoundFail heap.new) }
{
    js_scopes::copy_scope(alloc, heap, scope)
}

/// Where a round stands: in a copy of the scope of the one before, where each round has its own.
#[tactic(auto, using(crate::proofs::Growing::growing, crate::proofs::CallLemmas::site_in))]
#[inline(always)]
fn round_site(alloc: Global, heap: &mut Heap, fresh: bool, site: Site) -> Result<Site, Fail>
    requires closed { IsClosed heap.old }
    requires site { IsSoundSite heap.old site }

    ensures meets { Meets result heap.new (round_site fresh site heap.old) }

    ensures grown { Grows heap.old heap.new }
    ensures closed { IsClosed heap.new }
    ensures site { IfOk result (IsSoundSite heap.new) }
    ensures script { IfOk result (λ inside. inside.script ≡ site.script) }
    ensures thrown { IfErr result (IsSoundFail heap.new) }
{
    if !fresh {
        return Ok(site);
    }
    let scope = copy_scope(alloc, heap, site.scope)?;
    Ok(Site { scope, ..site })
}

/// Goes on from a round's body to the next round: by the update, where there is one.
#[tactic(auto, unfolding(crate::specs::After::after), using(crate::proofs::FitLemmas::loops, crate::proofs::Growing::growing))]
#[inline(always)]
fn next_round(
    alloc: Global,
    scripts: &Scripts,
    heap: &mut Heap,
    parts: LoopParts,
    last: Option<Value>,
    site: Site,
) -> Step
    requires closed { IsClosed heap.old }
    requires site { IsSoundSite heap.old site }
    requires last { IfSome last (IsSoundValue heap.old) }
    requires fits { AreLoopParts scripts.now site.script parts }

    ensures step { Turns scripts.now result heap.old heap.new (λ at s. to_next at (loop_of scripts.now site.script parts) site s (λ inside s. loop_rule at (loop_of scripts.now site.script parts) last inside s)) }

    ensures grown { Grows heap.old heap.new }
    ensures closed { IsClosed heap.new }
    ensures sound { IsSoundStep heap.new result }
    ensures fits { StepFits scripts.now result }
{
    let inside = match round_site(alloc, heap, parts.fresh, site) {
        Ok(inside) => inside,
        Err(fail) => return Step::Ended(Err(abrupt_of(fail))),
    };
    match parts.update {
        Some(update) => {
            let waiting = Frame::LoopUpdate {
                parts,
                last,
                site: inside,
            };
            Step::value(waiting, update, inside)
        }
        None => begin_round(scripts, parts, last, inside),
    }
}

/// Goes on with a loop whose body has ended: a `break` ends it, and a `continue` ends its round alone.
#[tactic(auto, unfolding(crate::specs::After::after))]
#[inline(always)]
pub(crate) fn loop_body(
    alloc: Global,
    scripts: &Scripts,
    heap: &mut Heap,
    parts: LoopParts,
    last: Option<Value>,
    site: Site,
    end: Result<Ended, Abrupt>,
) -> Step
    requires closed { IsClosed heap.old }
    requires site { IsSoundSite heap.old site }
    requires last { IfSome last (IsSoundValue heap.old) }
    requires end { IsSoundEnd heap.old end }
    requires fits { AreLoopParts scripts.now site.script parts }

    ensures step { Turns scripts.now result heap.old heap.new (λ at s. after at scripts.now (Frame.LoopBody parts last site) (end, s)) }

    ensures grown { Grows heap.old heap.new }
    ensures closed { IsClosed heap.new }
    ensures sound { IsSoundStep heap.new result }
    ensures fits { StepFits scripts.now result }
{
    match end {
        Ok(end) => {
            let last = latest(value_in(end), last);
            next_round(alloc, scripts, heap, parts, last, site)
        }
        Err(Abrupt::Continue(value)) => {
            let last = latest(value, last);
            next_round(alloc, scripts, heap, parts, last, site)
        }
        Err(Abrupt::Break(value)) => end_loop(latest(value, last)),
        Err(abrupt) => Step::Ended(Err(abrupt)),
    }
}

/// Goes on with a loop whose update has ended: the next round begins.
#[tactic(auto, unfolding(crate::specs::After::after))]
#[inline(always)]
pub(crate) fn loop_updated(
    scripts: &Scripts,
    parts: LoopParts,
    last: Option<Value>,
    site: Site,
    value: Value,
) -> Step
    requires fits { AreLoopParts scripts.now site.script parts }
    ensures step { (s : Store) → Turns scripts.now result s s (λ at s. after at scripts.now (Frame.LoopUpdate parts last site) (Ok (Ended.Value value), s)) }
    ensures sound { (s : Store) → IsSoundSite s site → IfSome last (IsSoundValue s) → IsSoundStep s result }
    ensures fits { StepFits scripts.now result }
{
    let _ = value;
    begin_round(scripts, parts, last, site)
}

// ---- beginnings

/// Begins `while`.
#[tactic(auto, unfolding(script_meaning::specs::Loops::while_rule), using(crate::proofs::FitLemmas::loops))]
#[inline(always)]
pub(crate) fn begin_while(scripts: &Scripts, node: u32, site: Site) -> Step
    requires form { IsForm (Is Kind.While) scripts.now site.script node }
    ensures step { (s : Store) → Turns scripts.now result s s (λ at s. while_rule at ((form_at scripts.now site.script node).kids) site s) }
    ensures sound { (s : Store) → IsSoundSite s site → IsSoundStep s result }
    ensures fits { StepFits scripts.now result }
{
    let test = kid_at(scripts, site.script, node, 0);
    let body = kid_at(scripts, site.script, node, 1);
    let parts = LoopParts {
        test: Some(test),
        body,
        update: None,
        fresh: false,
    };
    begin_round(scripts, parts, None, site)
}

/// A part that may be left out.
fn part_at(scripts: &Scripts, script: u32, node: u32, place: u32) -> Option<u32>
    ensures form { form_of scripts.now script result ≡ part (kid place ((form_at scripts.now script node).kids)) }
    ensures part { IfSome result (λ n. form_at scripts.now script n ≡ kid place ((form_at scripts.now script node).kids)) }
{
    let part = kid_at(scripts, script, node, place);
    match kind_at(scripts, script, part) {
        Kind::Absent => None,
        _ => Some(part),
    }
}

/// Whether each round of a `for` has a scope of its own: where its head is a `let`.
fn is_fresh(kind: Kind) -> bool
    ensures { result ≡ is_fresh kind }
{
    matches!(kind, Kind::Let)
}

/// The parts of a `for`.
#[tactic(auto, using(crate::proofs::FitLemmas::loops))]
fn for_parts(scripts: &Scripts, script: u32, node: u32) -> LoopParts
    requires { IsForm (Is Kind.For) scripts.now script node }
    ensures parts { loop_of scripts.now script result ≡ for_loop ((form_at scripts.now script node).kids) }
    ensures fits { AreLoopParts scripts.now script result }
{
    let head = kid_at(scripts, script, node, 0);
    LoopParts {
        test: part_at(scripts, script, node, 1),
        body: kid_at(scripts, script, node, 3),
        update: part_at(scripts, script, node, 2),
        fresh: is_fresh(kind_at(scripts, script, head)),
    }
}

/// Begins the first round of a `for`, in a scope of its own where each round has one.
#[tactic(auto, using(crate::proofs::FitLemmas::loops, crate::proofs::Growing::growing))]
#[inline(always)]
fn begin_rounds(
    alloc: Global,
    scripts: &Scripts,
    heap: &mut Heap,
    parts: LoopParts,
    site: Site,
) -> Step
    requires closed { IsClosed heap.old }
    requires site { IsSoundSite heap.old site }
    requires fits { AreLoopParts scripts.now site.script parts }

    ensures step { Turns scripts.now result heap.old heap.new (λ at s. first_round at (loop_of scripts.now site.script parts) site s) }

    ensures grown { Grows heap.old heap.new }
    ensures closed { IsClosed heap.new }
    ensures sound { IsSoundStep heap.new result }
    ensures fits { StepFits scripts.now result }
{
    match round_site(alloc, heap, parts.fresh, site) {
        Ok(inside) => begin_round(scripts, parts, None, inside),
        Err(fail) => Step::Ended(Err(abrupt_of(fail))),
    }
}

/// Goes on with a `for` whose head has ended.
#[tactic(auto, unfolding(crate::specs::After::after))]
#[inline(always)]
pub(crate) fn loop_headed(
    alloc: Global,
    scripts: &Scripts,
    heap: &mut Heap,
    parts: LoopParts,
    site: Site,
    end: Result<Ended, Abrupt>,
) -> Step
    requires closed { IsClosed heap.old }
    requires site { IsSoundSite heap.old site }
    requires end { IsSoundEnd heap.old end }
    requires fits { AreLoopParts scripts.now site.script parts }

    ensures step { Turns scripts.now result heap.old heap.new (λ at s. after at scripts.now (Frame.ForHead parts site) (end, s)) }

    ensures grown { Grows heap.old heap.new }
    ensures closed { IsClosed heap.new }
    ensures sound { IsSoundStep heap.new result }
    ensures fits { StepFits scripts.now result }
{
    match end {
        Ok(_) => begin_rounds(alloc, scripts, heap, parts, site),
        Err(abrupt) => Step::Ended(Err(abrupt)),
    }
}

/// Begins the head of a `for`: a declaration is carried out, and an expression evaluated.
#[tactic(auto, unfolding(crate::specs::After::after))]
#[inline(always)]
fn begin_head(
    alloc: Global,
    scripts: &Scripts,
    heap: &mut Heap,
    node: u32,
    parts: LoopParts,
    site: Site,
) -> Step
    requires parts { loop_of scripts.now site.script parts ≡ for_loop ((form_at scripts.now site.script node).kids) }
    requires closed { IsClosed heap.old }
    requires site { IsSoundSite heap.old site }
    requires fits { AreLoopParts scripts.now site.script parts }

    ensures step { Turns scripts.now result heap.old heap.new (λ at s. headed at ((form_at scripts.now site.script node).kids) site s) }

    ensures grown { Grows heap.old heap.new }
    ensures closed { IsClosed heap.new }
    ensures sound { IsSoundStep heap.new result }
    ensures fits { StepFits scripts.now result }
{
    let head = kid_at(scripts, site.script, node, 0);
    match kind_at(scripts, site.script, head) {
        Kind::Absent => begin_rounds(alloc, scripts, heap, parts, site),
        Kind::Let | Kind::Const => Step::statement(Frame::ForHead { parts, site }, head, site),
        _ => Step::value(Frame::ForHead { parts, site }, head, site),
    }
}

/// Begins `for`: where its head declares names, it has a scope of them.
#[tactic(auto, unfolding(script_meaning::specs::Loops::for_rule), using(crate::proofs::Growing::growing, crate::proofs::CallLemmas::site_in))]
#[inline(always)]
pub(crate) fn begin_for(
    alloc: Global,
    scripts: &Scripts,
    heap: &mut Heap,
    node: u32,
    site: Site,
) -> Step
    requires closed { IsClosed heap.old }
    requires site { IsSoundSite heap.old site }
    requires form { IsForm (Is Kind.For) scripts.now site.script node }

    ensures step { Turns scripts.now result heap.old heap.new (λ at s. for_rule at ((form_at scripts.now site.script node).kids) site s) }

    ensures grown { Grows heap.old heap.new }
    ensures closed { IsClosed heap.new }
    ensures sound { IsSoundStep heap.new result }
    ensures fits { StepFits scripts.now result }
{
    let declared = match declarations_at(alloc, scripts, site.script, node) {
        Ok(declared) => declared,
        Err(_) => return Step::Ended(Err(Abrupt::NoMemory)),
    };
    let parts = for_parts(scripts, site.script, node);
    if declared.len() == 0 {
        return begin_head(alloc, scripts, heap, node, parts, site);
    }
    match js_scopes::block_scope(alloc, heap, site.script, site.global, site.scope, &declared) {
        Ok(scope) => begin_head(alloc, scripts, heap, node, parts, Site { scope, ..site }),
        Err(fail) => Step::Ended(Err(abrupt_of(fail))),
    }
}
