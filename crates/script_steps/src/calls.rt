//! The form of a call: its callee, and its arguments one after another.
ghost use Rattle.std.specs.Prelude.{◌≡◌, suc, Ok};
ghost use Rattle.charged_heap.specs.Closed.{IsClosed, IsSoundValue};
ghost use Rattle.charged_heap.specs.Growth.{Grows};
ghost use Rattle.charged_heap.specs.Store.{Store};
ghost use Rattle.js_trees.specs.Tree.{kids_from};
ghost use Rattle.js_syntax.specs.declared.kind.Kind.TheVariants as kinds;
ghost use Rattle.script_meaning.specs.Expressions.{arguments_rule, called_rule};
ghost use Rattle.script_meaning.specs.Functions.{call_rule};
ghost use Rattle.script_meaning.specs.Places.{form_at};
ghost use Rattle.script_steps.specs.After.{after, Steps, Waits};
ghost use Rattle.script_steps.specs.Fits.{Is, IsForm, StepFits};
ghost use Rattle.script_steps.specs.Sound.{IsSoundCall, IsSoundSite, IsSoundStep};

use crate::called::call;
use crate::forms::{kid_at, kid_count_at};
use crate::{Frame, Inner, Step};
use charged_heap::{Heap, Value, Values};
use js_syntax::Scripts;
use script_meaning::{Abrupt, Ended, Role, Site};
use std::alloc::Global;

/// Begins a call, by its callee.
#[tactic(auto, unfolding(crate::specs::After::after, script_meaning::specs::Expressions::called_rule))]
#[inline(always)]
pub(crate) fn begin_call(scripts: &Scripts, node: u32, site: Site) -> Step
    requires form { IsForm (Is kinds.Call) scripts.now site.script node }
    ensures step { Waits scripts.now result (λ at s. called_rule scripts.now at ((form_at scripts.now site.script node).kids) site s) }
    ensures sound { (s : Store) → IsSoundSite s site → IsSoundStep s result }
    ensures fits { StepFits scripts.now result }
{
    let callee = kid_at(scripts, site.script, node, 0);
    Step::Into {
        frame: Frame::Callee { node, site },
        inner: Inner {
            role: Role::Callee,
            node: callee,
            site,
        },
    }
}

/// Goes on with the arguments from a place on, behind those that are there.
#[tactic(auto, unfolding(script_meaning::specs::Expressions::arguments_rule), using(js_trees::proofs::PartLemmas::parts_from))]
#[inline(always)]
fn arguments_from(
    alloc: Global,
    scripts: &Scripts,
    heap: &mut Heap,
    node: u32,
    place: u32,
    function: Value,
    receiver: Value,
    values: Values,
    site: Site,
) -> Step
    requires closed { IsClosed heap.old }
    requires call { IsSoundCall heap.old function receiver values site }
    requires form { IsForm (Is kinds.Call) scripts.now site.script node }

    ensures step { Steps scripts.now result heap.old heap.new (λ at s. arguments_rule at (kids_from place ((form_at scripts.now site.script node).kids)) site values (λ arguments s. call_rule at scripts.now function receiver arguments s) s) }

    ensures grown { Grows heap.old heap.new }
    ensures closed { IsClosed heap.new }
    ensures sound { IsSoundStep heap.new result }
    ensures fits { StepFits scripts.now result }
{
    if place < kid_count_at(scripts, site.script, node) {
        let part = kid_at(scripts, site.script, node, place);
        let waiting = Frame::Argument {
            node,
            place,
            function,
            receiver,
            values,
            site,
        };
        return Step::value(waiting, part, site);
    }
    call(alloc, scripts, heap, function, receiver, values)
}

/// Goes on with the arguments behind the one at a place.
#[tactic(auto, unfolding(script_meaning::specs::Expressions::arguments_rule), using(js_trees::proofs::PartLemmas::parts_from))]
#[inline(always)]
fn arguments_behind(
    alloc: Global,
    scripts: &Scripts,
    heap: &mut Heap,
    node: u32,
    place: u32,
    function: Value,
    receiver: Value,
    values: Values,
    site: Site,
) -> Step
    requires closed { IsClosed heap.old }
    requires call { IsSoundCall heap.old function receiver values site }
    requires form { IsForm (Is kinds.Call) scripts.now site.script node }

    ensures step { Steps scripts.now result heap.old heap.new (λ at s. arguments_rule at (kids_from (suc place) ((form_at scripts.now site.script node).kids)) site values (λ arguments s. call_rule at scripts.now function receiver arguments s) s) }

    ensures grown { Grows heap.old heap.new }
    ensures closed { IsClosed heap.new }
    ensures sound { IsSoundStep heap.new result }
    ensures fits { StepFits scripts.now result }
{
    if place < kid_count_at(scripts, site.script, node) {
        return arguments_from(
            alloc,
            scripts,
            heap,
            node,
            place + 1,
            function,
            receiver,
            values,
            site,
        );
    }
    call(alloc, scripts, heap, function, receiver, values)
}

/// Goes on with a callee that was read from a member of its receiver.
#[tactic(auto, unfolding(crate::specs::After::after))]
#[inline(always)]
pub(crate) fn callee_member(
    alloc: Global,
    scripts: &Scripts,
    heap: &mut Heap,
    node: u32,
    site: Site,
    function: Value,
    receiver: Value,
) -> Step
    requires closed { IsClosed heap.old }
    requires site { IsSoundSite heap.old site }
    requires function { IsSoundValue heap.old function }
    requires receiver { IsSoundValue heap.old receiver }
    requires form { IsForm (Is kinds.Call) scripts.now site.script node }

    ensures step { Steps scripts.now result heap.old heap.new (λ at s. after at scripts.now (Frame.Callee node site) (Ok (Ended.Member function receiver), s)) }

    ensures grown { Grows heap.old heap.new }
    ensures closed { IsClosed heap.new }
    ensures sound { IsSoundStep heap.new result }
    ensures fits { StepFits scripts.now result }
{
    let values = Values::new(alloc);
    arguments_from(
        alloc, scripts, heap, node, 1, function, receiver, values, site,
    )
}

/// Goes on with a callee that is no member: its receiver is undefined.
#[tactic(auto, unfolding(crate::specs::After::after))]
#[inline(always)]
pub(crate) fn callee(
    alloc: Global,
    scripts: &Scripts,
    heap: &mut Heap,
    node: u32,
    site: Site,
    function: Value,
) -> Step
    requires closed { IsClosed heap.old }
    requires site { IsSoundSite heap.old site }
    requires function { IsSoundValue heap.old function }
    requires form { IsForm (Is kinds.Call) scripts.now site.script node }

    ensures step { Steps scripts.now result heap.old heap.new (λ at s. after at scripts.now (Frame.Callee node site) (Ok (Ended.Value function), s)) }

    ensures grown { Grows heap.old heap.new }
    ensures closed { IsClosed heap.new }
    ensures sound { IsSoundStep heap.new result }
    ensures fits { StepFits scripts.now result }
{
    callee_member(alloc, scripts, heap, node, site, function, Value::Undefined)
}

/// Goes on with an argument behind those before it.
#[tactic(auto, unfolding(crate::specs::After::after), using(crate::proofs::CallLemmas::with_argument))]
#[inline(always)]
pub(crate) fn argument(
    alloc: Global,
    scripts: &Scripts,
    heap: &mut Heap,
    node: u32,
    place: u32,
    function: Value,
    receiver: Value,
    mut values: Values,
    site: Site,
    value: Value,
) -> Step
    requires closed { IsClosed heap.old }
    requires call { IsSoundCall heap.old function receiver values site }
    requires value { IsSoundValue heap.old value }
    requires form { IsForm (Is kinds.Call) scripts.now site.script node }

    ensures step { Steps scripts.now result heap.old heap.new (λ at s. after at scripts.now (Frame.Argument node place function receiver values site) (Ok (Ended.Value value), s)) }

    ensures grown { Grows heap.old heap.new }
    ensures closed { IsClosed heap.new }
    ensures sound { IsSoundStep heap.new result }
    ensures fits { StepFits scripts.now result }
{
    match values.push(value) {
        Ok(()) => arguments_behind(
            alloc, scripts, heap, node, place, function, receiver, values, site,
        ),
        Err(_) => Step::Ended(Err(Abrupt::NoMemory)),
    }
}
