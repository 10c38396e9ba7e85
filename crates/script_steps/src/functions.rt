//! Functions that an expression makes.
ghost use Rattle.std.specs.Prelude.{◌≡◌, Some};
ghost use Rattle.charged_heap.specs.Closed.{IsClosed, IsSoundValue};
ghost use Rattle.charged_heap.specs.Growth.{Grows};
ghost use Rattle.charged_heap.specs.Ends.{Meets, IsSoundResult};
ghost use Rattle.script_meaning.specs.Outcome.{of_heap};
ghost use Rattle.script_meaning.specs.Expressions.{closure_made, function_by, function_rule};
ghost use Rattle.script_meaning.specs.Places.{ScriptList, form_at};
ghost use Rattle.script_steps.specs.After.{Steps};
ghost use Rattle.script_steps.specs.Ends.{end_of};
ghost use Rattle.script_steps.specs.Fits.{StepFits};
ghost use Rattle.script_steps.specs.Sound.{IsSoundSite, IsSoundStep};

use crate::Step;
use crate::ends::of_heap;
use crate::forms::name_at;
use charged_heap::{Fail, Heap, Item, Value, make};
use ivm_text::Units;
use js_syntax::Scripts;
use script_meaning::Site;
use std::alloc::Global;

/// Makes the function of a node of the site's script, with the `this` that it keeps.
fn make_closure(heap: &mut Heap, node: u32, site: Site, receiver: Value) -> Result<Value, Fail>
    requires site { IsSoundSite heap.old site }
    requires receiver { IsSoundValue heap.old receiver }

    ensures gives { Meets result heap.new (closure_made node site receiver heap.old) }

    ensures grown { Grows heap.old heap.new }
    ensures closed { IsClosed heap.old → IsClosed heap.new }
    ensures sound { IsSoundResult heap.new result }
{
    let function = Item::Closure {
        script: site.script,
        node,
        scope: site.scope,
        global: site.global,
        receiver,
    };
    Ok(Value::Item(make(heap, function)?))
}

/// Makes an arrow function, which keeps `this`.
#[inline(always)]
pub(crate) fn arrow(scripts: &Scripts, heap: &mut Heap, node: u32, site: Site) -> Step
    requires itself { ((form_at scripts.now site.script node).head).number_of_node ≡ node }
    requires site { IsSoundSite heap.old site }

    ensures step { Steps scripts.now result heap.old heap.new (λ at s. of_heap s (closure_made ((form_at scripts.now site.script node).head).number_of_node site site.receiver s.heap)) }

    ensures grown { Grows heap.old heap.new }
    ensures closed { IsClosed heap.old → IsClosed heap.new }
    ensures sound { IsSoundStep heap.new result }
    ensures fits { StepFits scripts.now result }
{
    let _ = scripts;
    of_heap(make_closure(heap, node, site, site.receiver))
}

/// Makes a function that knows its own name: it stands in a scope of that one name.
#[tactic(auto, using(crate::proofs::CallLemmas::site_in, charged_heap::proofs::ClosedLaws::value_grows))]
fn make_named(
    alloc: Global,
    heap: &mut Heap,
    node: u32,
    site: Site,
    name: &Units,
) -> Result<Value, Fail>
    requires { IsSoundSite heap.old site }

    ensures step { (scripts : ScriptList) → Steps scripts (Step.Ended (end_of result)) heap.old heap.new (λ at s. function_by (Some name.now) node site s) }

    ensures grown { Grows heap.old heap.new }
    ensures closed { IsClosed heap.old → IsClosed heap.new }
    ensures sound { IsSoundResult heap.new result }
{
    let scope = js_scopes::name_scope(alloc, heap, site.scope, name)?;
    let inside = Site { scope, ..site };
    let function = make_closure(heap, node, inside, Value::Undefined)?;
    js_scopes::initialise(heap, scope, name, function);
    Ok(function)
}

/// Makes a function by a function expression, with a name of its own or without.
#[tactic(auto, using(crate::proofs::CallLemmas::function_unnamed))]
#[inline(always)]
pub(crate) fn function(
    alloc: Global,
    scripts: &Scripts,
    heap: &mut Heap,
    node: u32,
    site: Site,
) -> Step
    requires itself { ((form_at scripts.now site.script node).head).number_of_node ≡ node }
    requires site { IsSoundSite heap.old site }

    ensures step { Steps scripts.now result heap.old heap.new (λ at s. function_rule (form_at scripts.now site.script node) site s) }

    ensures grown { Grows heap.old heap.new }
    ensures closed { IsClosed heap.old → IsClosed heap.new }
    ensures sound { IsSoundStep heap.new result }
    ensures fits { StepFits scripts.now result }
{
    match name_at(scripts, site.script, node) {
        Some(name) => of_heap(make_named(alloc, heap, node, site, name)),
        None => of_heap(make_closure(heap, node, site, Value::Undefined)),
    }
}
