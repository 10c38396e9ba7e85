//! Operators and choices: where they begin and how they go on.
ghost use Rattle.std.specs.Prelude.{◌≡◌, Ok};
ghost use Rattle.charged_heap.specs.Closed.{IsClosed, IsSoundValue};
ghost use Rattle.charged_heap.specs.Growth.{Grows};
ghost use Rattle.charged_heap.specs.Store.{Store};
ghost use Rattle.js_ops.specs.declared.operators.Operator.TheVariants as operators;
ghost use Rattle.script_meaning.specs.Expressions.{goes_right, comma_rule, binary_rule, unary_rule, typeof_rule, void_rule, condition_rule, logical_rule};
ghost use Rattle.script_meaning.specs.Places.{form_at};
ghost use Rattle.script_steps.specs.After.{after, Steps, Waits};
ghost use Rattle.script_steps.specs.Fits.{Is, IsForm, IsLogical, IsOperator, StepFits};
ghost use Rattle.script_steps.specs.Sound.{IsSoundSite, IsSoundStep};

use crate::ends::of_heap;
use crate::forms::{kid_at, kind_at};
use crate::{Frame, Step};
use charged_heap::{Heap, Value};
use js_ops::{BinaryOperator, UnaryOperator, truthy};
use js_syntax::{Kind, Scripts};
use script_meaning::{Ended, Site};
use std::alloc::Global;

// ---- two operands

/// Begins `a, b`.
#[tactic(auto, unfolding(crate::specs::After::after, script_meaning::specs::Expressions::comma_rule), using(crate::proofs::FitLemmas::fits))]
#[inline(always)]
pub(crate) fn begin_comma(scripts: &Scripts, node: u32, site: Site) -> Step
    requires form { IsForm (Is Kind.Comma) scripts.now site.script node }
    ensures step { Waits scripts.now result (λ at s. comma_rule at ((form_at scripts.now site.script node).kids) site s) }
    ensures sound { (s : Store) → IsSoundSite s site → IsSoundStep s result }
    ensures fits { StepFits scripts.now result }
{
    let left = kid_at(scripts, site.script, node, 0);
    let right = kid_at(scripts, site.script, node, 1);
    Step::value(Frame::Comma { right, site }, left, site)
}

/// Begins an operator of two operands.
#[tactic(auto, unfolding(crate::specs::After::after, script_meaning::specs::Expressions::binary_rule), using(crate::proofs::FitLemmas::fits))]
#[inline(always)]
pub(crate) fn begin_binary(
    scripts: &Scripts,
    operator: BinaryOperator,
    node: u32,
    site: Site,
) -> Step
    requires form { IsForm (IsOperator (operators.Binary operator)) scripts.now site.script node }
    ensures step { Waits scripts.now result (λ at s. binary_rule operator at ((form_at scripts.now site.script node).kids) site s) }
    ensures sound { (s : Store) → IsSoundSite s site → IsSoundStep s result }
    ensures fits { StepFits scripts.now result }
{
    let left = kid_at(scripts, site.script, node, 0);
    let right = kid_at(scripts, site.script, node, 1);
    let waiting = Frame::Left {
        operator,
        right,
        site,
    };
    Step::value(waiting, left, site)
}

/// Goes on with the left operand.
#[tactic(auto, unfolding(crate::specs::After::after))]
#[inline(always)]
pub(crate) fn left(
    scripts: &Scripts,
    operator: BinaryOperator,
    right: u32,
    site: Site,
    left: Value,
) -> Step
    ensures step { Waits scripts.now result (λ at s. after at scripts.now (Frame.Left operator right site) (Ok (Ended.Value left), s)) }
    ensures sound { (s : Store) → IsSoundSite s site → IsSoundValue s left → IsSoundStep s result }
    ensures fits { StepFits scripts.now result }
{
    let _ = scripts;
    Step::value(Frame::Right { operator, left }, right, site)
}

/// Ends an operator with its right operand.
#[tactic(auto, unfolding(crate::specs::After::after))]
#[inline(always)]
pub(crate) fn right(
    alloc: Global,
    scripts: &Scripts,
    heap: &mut Heap,
    operator: BinaryOperator,
    left: Value,
    right: Value,
) -> Step
    requires left { IsSoundValue heap.old left }
    requires right { IsSoundValue heap.old right }
    ensures step { Steps scripts.now result heap.old heap.new (λ at s. after at scripts.now (Frame.Right operator left) (Ok (Ended.Value right), s)) }
    ensures grown { Grows heap.old heap.new }
    ensures closed { IsClosed heap.old → IsClosed heap.new }
    ensures sound { IsSoundStep heap.new result }
    ensures fits { StepFits scripts.now result }
{
    let _ = scripts;
    of_heap(js_ops::binary(alloc, heap, operator, left, right))
}

// ---- one operand

/// Begins an operator of one operand.
#[tactic(auto, unfolding(crate::specs::After::after, script_meaning::specs::Expressions::unary_rule))]
#[inline(always)]
pub(crate) fn begin_unary(scripts: &Scripts, operator: UnaryOperator, node: u32, site: Site) -> Step
    ensures step { Waits scripts.now result (λ at s. unary_rule operator at ((form_at scripts.now site.script node).kids) site s) }
    ensures sound { (s : Store) → IsSoundSite s site → IsSoundStep s result }
    ensures fits { StepFits scripts.now result }
{
    let operand = kid_at(scripts, site.script, node, 0);
    Step::value(Frame::Operand { operator }, operand, site)
}

/// Begins `typeof`, which asks for the place alone where its operand is a name.
#[tactic(auto, unfolding(crate::specs::After::after, script_meaning::specs::Expressions::typeof_rule, script_meaning::specs::Expressions::unary_rule))]
#[inline(always)]
pub(crate) fn begin_typeof(scripts: &Scripts, node: u32, site: Site) -> Step
    ensures step { Waits scripts.now result (λ at s. typeof_rule scripts.now at ((form_at scripts.now site.script node).kids) site s) }
    ensures sound { (s : Store) → IsSoundSite s site → IsSoundStep s result }
    ensures fits { StepFits scripts.now result }
{
    let operand = kid_at(scripts, site.script, node, 0);
    match kind_at(scripts, site.script, operand) {
        Kind::Name => Step::target(Frame::TypeOfPlace { site }, operand, site),
        _ => begin_unary(scripts, UnaryOperator::TypeOf, node, site),
    }
}

/// Begins `void`.
#[tactic(auto, unfolding(crate::specs::After::after, script_meaning::specs::Expressions::void_rule))]
#[inline(always)]
pub(crate) fn begin_void(scripts: &Scripts, node: u32, site: Site) -> Step
    ensures step { Waits scripts.now result (λ at s. void_rule at ((form_at scripts.now site.script node).kids) site s) }
    ensures sound { (s : Store) → IsSoundSite s site → IsSoundStep s result }
    ensures fits { StepFits scripts.now result }
{
    let operand = kid_at(scripts, site.script, node, 0);
    Step::value(Frame::Void, operand, site)
}

/// Ends an operator with its operand.
#[tactic(auto, unfolding(crate::specs::After::after))]
#[inline(always)]
pub(crate) fn operand(
    alloc: Global,
    scripts: &Scripts,
    heap: &mut Heap,
    operator: UnaryOperator,
    operand: Value,
) -> Step
    requires { IsSoundValue heap.old operand }
    ensures step { Steps scripts.now result heap.old heap.new (λ at s. after at scripts.now (Frame.Operand operator) (Ok (Ended.Value operand), s)) }
    ensures grown { Grows heap.old heap.new }
    ensures closed { IsClosed heap.old → IsClosed heap.new }
    ensures sound { IsSoundStep heap.new result }
    ensures fits { StepFits scripts.now result }
{
    let _ = scripts;
    of_heap(js_ops::unary(alloc, heap, operator, operand))
}

// ---- choices

/// Begins `?:`.
#[tactic(auto, unfolding(crate::specs::After::after, script_meaning::specs::Expressions::condition_rule), using(crate::proofs::FitLemmas::fits))]
#[inline(always)]
pub(crate) fn begin_condition(scripts: &Scripts, node: u32, site: Site) -> Step
    requires form { IsForm (Is Kind.Cond) scripts.now site.script node }
    ensures step { Waits scripts.now result (λ at s. condition_rule at ((form_at scripts.now site.script node).kids) site s) }
    ensures sound { (s : Store) → IsSoundSite s site → IsSoundStep s result }
    ensures fits { StepFits scripts.now result }
{
    let condition = kid_at(scripts, site.script, node, 0);
    let good = kid_at(scripts, site.script, node, 1);
    let bad = kid_at(scripts, site.script, node, 2);
    Step::value(Frame::Condition { good, bad, site }, condition, site)
}

/// Begins `&&`, `||` or `??`.
#[tactic(auto, unfolding(crate::specs::After::after, script_meaning::specs::Expressions::logical_rule), using(crate::proofs::FitLemmas::fits))]
#[inline(always)]
pub(crate) fn begin_logical(scripts: &Scripts, operator: Kind, node: u32, site: Site) -> Step
    requires logical { IsLogical operator }
    requires form { IsForm (Is operator) scripts.now site.script node }
    ensures step { Waits scripts.now result (λ at s. logical_rule operator at ((form_at scripts.now site.script node).kids) site s) }
    ensures sound { (s : Store) → IsSoundSite s site → IsSoundStep s result }
    ensures fits { StepFits scripts.now result }
{
    let left = kid_at(scripts, site.script, node, 0);
    let right = kid_at(scripts, site.script, node, 1);
    let waiting = Frame::Logical {
        operator,
        right,
        site,
    };
    Step::value(waiting, left, site)
}

/// Goes on with the condition of `?:`.
#[tactic(auto, unfolding(crate::specs::After::after))]
#[inline(always)]
pub(crate) fn condition(
    scripts: &Scripts,
    heap: &Heap,
    good: u32,
    bad: u32,
    site: Site,
    condition: Value,
) -> Step
    requires { IsSoundValue heap.now condition }
    ensures step { Steps scripts.now result heap.now heap.now (λ at s. after at scripts.now (Frame.Condition good bad site) (Ok (Ended.Value condition), s)) }
    ensures sound { IsSoundSite heap.now site → IsSoundStep heap.now result }
    ensures fits { StepFits scripts.now result }
{
    let _ = scripts;
    let chosen = if truthy(heap, condition) { good } else { bad };
    Step::value(Frame::Pass, chosen, site)
}

/// Whether the right operand of `&&`, `||` or `??` is needed.
fn goes_right(heap: &Heap, operator: Kind, left: Value) -> bool
    requires { IsSoundValue heap.now left }
    ensures { result ≡ goes_right operator heap.now left }
{
    match operator {
        Kind::And => truthy(heap, left),
        Kind::Or => !truthy(heap, left),
        _ => matches!(left, Value::Undefined | Value::Null),
    }
}

/// Goes on with the left operand of `&&`, `||` or `??`, which is what they give where it decides.
#[tactic(auto, unfolding(crate::specs::After::after))]
#[inline(always)]
pub(crate) fn logical(
    scripts: &Scripts,
    heap: &Heap,
    operator: Kind,
    right: u32,
    site: Site,
    left: Value,
) -> Step
    requires { IsSoundValue heap.now left }
    ensures step { Steps scripts.now result heap.now heap.now (λ at s. after at scripts.now (Frame.Logical operator right site) (Ok (Ended.Value left), s)) }
    ensures sound { IsSoundSite heap.now site → IsSoundStep heap.now result }
    ensures fits { StepFits scripts.now result }
{
    let _ = scripts;
    if goes_right(heap, operator, left) {
        return Step::value(Frame::Pass, right, site);
    }
    Step::Ended(Ok(Ended::Value(left)))
}
