//! Expressions in which no node stands.
ghost use Rattle.std.specs.Prelude.{◌≡◌, Ok};
ghost use Rattle.charged_heap.specs.Closed.{IsClosed};
ghost use Rattle.charged_heap.specs.Growth.{Grows};
ghost use Rattle.charged_heap.specs.Ends.{Meets, IsSoundResult};
ghost use Rattle.js_ops.specs.Outcome.{text_made};
ghost use Rattle.script_meaning.specs.Evaluates.{value_by};
ghost use Rattle.script_meaning.specs.Places.{form_at, name_at};
ghost use Rattle.script_steps.specs.After.{Steps};
ghost use Rattle.script_steps.specs.Fits.{StepFits};
ghost use Rattle.script_steps.specs.Leaves.{IsLeaf};
ghost use Rattle.script_steps.specs.Sound.{IsSoundSite, IsSoundStep};

use crate::Step;
use crate::ends::of_heap;
use crate::forms::number_at;
use crate::places::{name_copy, read_place};
use charged_heap::{Fail, Heap, Item, Value, make};
use js_syntax::{Kind, Scripts};
use script_meaning::{Ended, Place, Site};
use std::alloc::Global;

/// Ends a form with a value.
#[inline(always)]
fn gives(value: Value) -> Step
    ensures { result ≡ Step.Ended (Ok (Ended.Value value)) }
{
    Step::Ended(Ok(Ended::Value(value)))
}

/// Makes the string of a text.
fn make_literal(
    alloc: Global,
    scripts: &Scripts,
    heap: &mut Heap,
    script: u32,
    node: u32,
) -> Result<Value, Fail>
    ensures gives { Meets result heap.new (text_made (name_at scripts.now script node) heap.old) }
    ensures grown { Grows heap.old heap.new }
    ensures closed { IsClosed heap.old → IsClosed heap.new }
    ensures sound { IsSoundResult heap.new result }
{
    let units = name_copy(alloc, scripts, script, node)?;
    Ok(Value::Item(make(heap, Item::Text(units))?))
}

/// Evaluates a text, which is a new string at each evaluation.
#[inline(always)]
fn text(alloc: Global, scripts: &Scripts, heap: &mut Heap, node: u32, site: Site) -> Step
    ensures step { Steps scripts.now result heap.old heap.new (λ at s. value_by Kind.Text scripts.now at (form_at scripts.now site.script node) site s) }
    ensures grown { Grows heap.old heap.new }
    ensures closed { IsClosed heap.old → IsClosed heap.new }
    ensures sound { IsSoundStep heap.new result }
    ensures fits { StepFits scripts.now result }
{
    of_heap(make_literal(alloc, scripts, heap, site.script, node))
}

/// Evaluates a name.
#[tactic(auto, unfolding(script_meaning::specs::Places::place_read))]
#[inline(always)]
fn name(alloc: Global, scripts: &Scripts, heap: &mut Heap, node: u32, site: Site) -> Step
    requires heap { IsClosed heap.old }
    requires site { IsSoundSite heap.old site }
    ensures step { Steps scripts.now result heap.old heap.new (λ at s. value_by Kind.Name scripts.now at (form_at scripts.now site.script node) site s) }
    ensures grown { Grows heap.old heap.new }
    ensures closed { IsClosed heap.new }
    ensures sound { IsSoundStep heap.new result }
    ensures fits { StepFits scripts.now result }
{
    of_heap(read_place(alloc, scripts, heap, site, Place::Name(node)))
}

/// Evaluates an expression in which no node stands.
#[inline(always)]
pub(crate) fn leaf(
    alloc: Global,
    scripts: &Scripts,
    heap: &mut Heap,
    kind: Kind,
    node: u32,
    site: Site,
) -> Step
    requires heap { IsClosed heap.old }
    requires site { IsSoundSite heap.old site }
    requires kind { IsLeaf kind }
    ensures step { Steps scripts.now result heap.old heap.new (λ at s. value_by kind scripts.now at (form_at scripts.now site.script node) site s) }
    ensures grown { Grows heap.old heap.new }
    ensures closed { IsClosed heap.new }
    ensures sound { IsSoundStep heap.new result }
    ensures fits { StepFits scripts.now result }
{
    match kind {
        Kind::Num => gives(Value::Num(number_at(scripts, site.script, node))),
        Kind::Text => text(alloc, scripts, heap, node, site),
        Kind::Undefined => gives(Value::Undefined),
        Kind::Null => gives(Value::Null),
        Kind::True => gives(Value::Bool(true)),
        Kind::False => gives(Value::Bool(false)),
        Kind::This => gives(site.receiver),
        Kind::Name => name(alloc, scripts, heap, node, site),
        _ => unreachable!(),
    }
}
