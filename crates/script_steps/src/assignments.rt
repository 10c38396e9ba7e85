//! Assignments: where they begin and how they go on.
ghost use Rattle.std.specs.Prelude.{◌≡◌, Ok};
ghost use Rattle.charged_heap.specs.Closed.{IsClosed, IsSoundValue};
ghost use Rattle.charged_heap.specs.Growth.{Grows};
ghost use Rattle.charged_heap.specs.Store.{Store};
ghost use Rattle.js_ops.specs.Outcome.{unary_outcome};
ghost use Rattle.js_syntax.specs.declared.kind.Kind.TheVariants as kinds;
ghost use Rattle.js_ops.specs.declared.operators.Operator.TheVariants as operators;
ghost use Rattle.script_meaning.specs.Expressions.{assign_rule, update_rule, step_rule, given};
ghost use Rattle.script_meaning.specs.Outcome.{gives, of_heap, with_value};
ghost use Rattle.script_meaning.specs.Places.{form_at, place_written};
ghost use Rattle.script_steps.specs.After.{after, Steps, Waits};
ghost use Rattle.script_steps.specs.Fits.{Is, IsForm, IsOperator, StepFits};
ghost use Rattle.script_steps.specs.Sound.{IsSoundSite, IsSoundStep, IsSoundPlace};

use crate::ends::{abrupt_of, of_heap};
use crate::forms::kid_at;
use crate::places::{read_place, write_place};
use crate::{Frame, Step};
use charged_heap::{Heap, Value};
use js_ops::{BinaryOperator, UnaryOperator};
use js_syntax::Scripts;
use script_meaning::{Ended, Place, Site};
use std::alloc::Global;

// ---- `=`

/// Begins `target = value`.
#[tactic(auto, unfolding(crate::specs::After::after, script_meaning::specs::Expressions::assign_rule), using(crate::proofs::FitLemmas::fits))]
#[inline(always)]
pub(crate) fn begin_assign(scripts: &Scripts, node: u32, site: Site) -> Step
    requires form { IsForm (Is kinds.Assign) scripts.now site.script node }
    ensures step { Waits scripts.now result (λ at s. assign_rule scripts.now at ((form_at scripts.now site.script node).kids) site s) }
    ensures sound { (s : Store) → IsSoundSite s site → IsSoundStep s result }
    ensures fits { StepFits scripts.now result }
{
    let target = kid_at(scripts, site.script, node, 0);
    let right = kid_at(scripts, site.script, node, 1);
    Step::target(Frame::AssignTarget { right, site }, target, site)
}

/// Goes on with the target of `=`.
#[tactic(auto, unfolding(crate::specs::After::after))]
#[inline(always)]
pub(crate) fn assign_target(scripts: &Scripts, right: u32, site: Site, place: Place) -> Step
    ensures step { Waits scripts.now result (λ at s. after at scripts.now (Frame.AssignTarget right site) (Ok (Ended.Place place), s)) }
    ensures sound { (s : Store) → IsSoundSite s site → IsSoundPlace s place → IsSoundStep s result }
    ensures fits { StepFits scripts.now result }
{
    let _ = scripts;
    Step::value(Frame::AssignValue { place, site }, right, site)
}

/// Ends `=` with its value.
#[tactic(auto, unfolding(crate::specs::After::after))]
#[inline(always)]
pub(crate) fn assign_value(
    alloc: Global,
    scripts: &Scripts,
    heap: &mut Heap,
    place: Place,
    site: Site,
    value: Value,
) -> Step
    requires heap { IsClosed heap.old }
    requires place { IsSoundPlace heap.old place }
    requires site { IsSoundSite heap.old site }
    requires value { IsSoundValue heap.old value }
    ensures step { Steps scripts.now result heap.old heap.new (λ at s. after at scripts.now (Frame.AssignValue place site) (Ok (Ended.Value value), s)) }
    ensures grown { Grows heap.old heap.new }
    ensures closed { IsClosed heap.new }
    ensures sound { IsSoundStep heap.new result }
    ensures fits { StepFits scripts.now result }
{
    of_heap(write_place(alloc, scripts, heap, site, place, value))
}

// ---- `+=` and its kin

/// Begins `+=` and its kin.
#[tactic(auto, unfolding(crate::specs::After::after, script_meaning::specs::Expressions::update_rule), using(crate::proofs::FitLemmas::fits))]
#[inline(always)]
pub(crate) fn begin_update(
    scripts: &Scripts,
    operator: BinaryOperator,
    node: u32,
    site: Site,
) -> Step
    requires form { IsForm (IsOperator (operators.Update operator)) scripts.now site.script node }
    ensures step { Waits scripts.now result (λ at s. update_rule operator scripts.now at ((form_at scripts.now site.script node).kids) site s) }
    ensures sound { (s : Store) → IsSoundSite s site → IsSoundStep s result }
    ensures fits { StepFits scripts.now result }
{
    let target = kid_at(scripts, site.script, node, 0);
    let right = kid_at(scripts, site.script, node, 1);
    let waiting = Frame::UpdateTarget {
        operator,
        right,
        site,
    };
    Step::target(waiting, target, site)
}

/// Goes on with the target of `+=` and its kin, which is read before the right side is evaluated.
#[tactic(auto, unfolding(crate::specs::After::after), using(crate::proofs::PlaceLemmas::growth))]
#[inline(always)]
pub(crate) fn update_target(
    alloc: Global,
    scripts: &Scripts,
    heap: &mut Heap,
    operator: BinaryOperator,
    right: u32,
    site: Site,
    place: Place,
) -> Step
    requires heap { IsClosed heap.old }
    requires site { IsSoundSite heap.old site }
    requires place { IsSoundPlace heap.old place }
    ensures step { Steps scripts.now result heap.old heap.new (λ at s. after at scripts.now (Frame.UpdateTarget operator right site) (Ok (Ended.Place place), s)) }
    ensures grown { Grows heap.old heap.new }
    ensures closed { IsClosed heap.new }
    ensures sound { IsSoundStep heap.new result }
    ensures fits { StepFits scripts.now result }
{
    match read_place(alloc, scripts, heap, site, place) {
        Ok(old) => {
            let waiting = Frame::UpdateValue {
                operator,
                place,
                old,
                site,
            };
            Step::value(waiting, right, site)
        }
        Err(fail) => Step::Ended(Err(abrupt_of(fail))),
    }
}

/// Ends `+=` and its kin with the right side.
#[tactic(auto, unfolding(crate::specs::After::after), using(crate::proofs::PlaceLemmas::growth))]
#[inline(always)]
pub(crate) fn update_value(
    alloc: Global,
    scripts: &Scripts,
    heap: &mut Heap,
    operator: BinaryOperator,
    place: Place,
    old: Value,
    site: Site,
    value: Value,
) -> Step
    requires heap { IsClosed heap.old }
    requires place { IsSoundPlace heap.old place }
    requires old { IsSoundValue heap.old old }
    requires site { IsSoundSite heap.old site }
    requires value { IsSoundValue heap.old value }
    ensures step { Steps scripts.now result heap.old heap.new (λ at s. after at scripts.now (Frame.UpdateValue operator place old site) (Ok (Ended.Value value), s)) }
    ensures grown { Grows heap.old heap.new }
    ensures closed { IsClosed heap.new }
    ensures sound { IsSoundStep heap.new result }
    ensures fits { StepFits scripts.now result }
{
    match js_ops::binary(alloc, heap, operator, old, value) {
        Ok(new) => of_heap(write_place(alloc, scripts, heap, site, place, new)),
        Err(fail) => Step::Ended(Err(abrupt_of(fail))),
    }
}

// ---- `++` and `--`

/// Begins `++` or `--`, before its operand or behind it.
#[tactic(auto, unfolding(crate::specs::After::after, script_meaning::specs::Expressions::step_rule))]
#[inline(always)]
pub(crate) fn begin_step(
    scripts: &Scripts,
    operator: UnaryOperator,
    before: bool,
    node: u32,
    site: Site,
) -> Step
    ensures step { Waits scripts.now result (λ at s. step_rule operator before scripts.now at ((form_at scripts.now site.script node).kids) site s) }
    ensures sound { (s : Store) → IsSoundSite s site → IsSoundStep s result }
    ensures fits { StepFits scripts.now result }
{
    let target = kid_at(scripts, site.script, node, 0);
    let waiting = Frame::StepTarget {
        operator,
        before,
        site,
    };
    Step::target(waiting, target, site)
}

/// What `++` and `--` give: the new value before the operand, the old one behind it.
fn given(before: bool, old: Value, new: Value) -> Value
    ensures { result ≡ given before old new }
{
    if before { new } else { old }
}

/// Writes the new value, and gives that or the old one.
#[tactic(auto, using(crate::proofs::PlaceLemmas::growth))]
#[inline(always)]
fn write_step(
    alloc: Global,
    scripts: &Scripts,
    heap: &mut Heap,
    site: Site,
    place: Place,
    new: Value,
    given: Value,
) -> Step
    requires heap { IsClosed heap.old }
    requires site { IsSoundSite heap.old site }
    requires place { IsSoundPlace heap.old place }
    requires new { IsSoundValue heap.old new }
    requires given { IsSoundValue heap.old given }
    ensures step { Steps scripts.now result heap.old heap.new (λ at s. with_value (of_heap s (place_written scripts.now site place new s.heap)) (λ _ s. gives given s)) }
    ensures grown { Grows heap.old heap.new }
    ensures closed { IsClosed heap.new }
    ensures sound { IsSoundStep heap.new result }
    ensures fits { StepFits scripts.now result }
{
    match write_place(alloc, scripts, heap, site, place, new) {
        Ok(_) => Step::Ended(Ok(Ended::Value(given))),
        Err(fail) => Step::Ended(Err(abrupt_of(fail))),
    }
}

/// Goes on with what the target of `++` or `--` has.
#[tactic(auto, using(crate::proofs::PlaceLemmas::growth))]
#[inline(always)]
fn step_value(
    alloc: Global,
    scripts: &Scripts,
    heap: &mut Heap,
    operator: UnaryOperator,
    before: bool,
    site: Site,
    place: Place,
    old: Value,
) -> Step
    requires heap { IsClosed heap.old }
    requires site { IsSoundSite heap.old site }
    requires place { IsSoundPlace heap.old place }
    requires old { IsSoundValue heap.old old }
    ensures step { Steps scripts.now result heap.old heap.new (λ at s. with_value (of_heap s (unary_outcome operator old s.heap)) (λ new s. with_value (of_heap s (place_written scripts.now site place new s.heap)) (λ _ s. gives (given before old new) s))) }
    ensures grown { Grows heap.old heap.new }
    ensures closed { IsClosed heap.new }
    ensures sound { IsSoundStep heap.new result }
    ensures fits { StepFits scripts.now result }
{
    match js_ops::unary(alloc, heap, operator, old) {
        Ok(new) => {
            let given = given(before, old, new);
            write_step(alloc, scripts, heap, site, place, new, given)
        }
        Err(fail) => Step::Ended(Err(abrupt_of(fail))),
    }
}

/// Ends `++` or `--` with its target.
#[tactic(auto, unfolding(crate::specs::After::after), using(crate::proofs::PlaceLemmas::growth))]
#[inline(always)]
pub(crate) fn step_target(
    alloc: Global,
    scripts: &Scripts,
    heap: &mut Heap,
    operator: UnaryOperator,
    before: bool,
    site: Site,
    place: Place,
) -> Step
    requires heap { IsClosed heap.old }
    requires site { IsSoundSite heap.old site }
    requires place { IsSoundPlace heap.old place }
    ensures step { Steps scripts.now result heap.old heap.new (λ at s. after at scripts.now (Frame.StepTarget operator before site) (Ok (Ended.Place place), s)) }
    ensures grown { Grows heap.old heap.new }
    ensures closed { IsClosed heap.new }
    ensures sound { IsSoundStep heap.new result }
    ensures fits { StepFits scripts.now result }
{
    match read_place(alloc, scripts, heap, site, place) {
        Ok(old) => step_value(alloc, scripts, heap, operator, before, site, place, old),
        Err(fail) => Step::Ended(Err(abrupt_of(fail))),
    }
}
