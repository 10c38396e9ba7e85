//! The function that a call enters.
ghost use Rattle.std.specs.Prelude.{◌≡◌, IfOk, IfErr, IfSome};
ghost use Rattle.std.specs.List.{All};
ghost use Rattle.charged_heap.specs.Closed.{IsClosed, IsSoundValue};
ghost use Rattle.charged_heap.specs.Growth.{Grows};
ghost use Rattle.charged_heap.specs.Store.{Store, IsAt, IsScope, item_at};
ghost use Rattle.js_trees.specs.Tree.{kid};
ghost use Rattle.charged_heap.specs.Ends.{IsSoundFail, Meets};
ghost use Rattle.js_scopes.specs.Lists.{call_scope};
ghost use Rattle.script_meaning.specs.Functions.{is_body, this_of, body_declares, body_rule, enter_rule, item_call, call_rule};
ghost use Rattle.script_meaning.specs.Places.{form_at};
ghost use Rattle.script_steps.specs.After.{after, Steps, Waits};
ghost use Rattle.script_steps.specs.Called.{closure_of, closure_call};
ghost use Rattle.script_steps.specs.Fits.{StepFits};
ghost use Rattle.script_steps.specs.Sound.{IsSoundEnd, IsSoundSite, IsSoundStep};

use crate::builtins::refuse_call;
use crate::ends::{abrupt_of, of_heap};
use crate::forms::{declarations_at, kid_at, kind_at, names_at};
use crate::{Frame, Step};
use charged_heap::{Fail, Heap, Item, Value, Values};
use ivm_text::{Items, NoMemory};
use js_syntax::{Kind, Scripts};
use js_trees::Declarations;
use script_meaning::{Abrupt, Ended, Site};
use std::alloc::Global;

// ---- functions of scripts

/// `this` in a function of this kind: that of the call, and in an arrow function the one that it keeps.
fn this_of(kind: Kind, kept: Value, given: Value) -> Value
    ensures value { result ≡ this_of kind kept given }
    ensures sound { (s : Store) → IsSoundValue s kept → IsSoundValue s given → IsSoundValue s result }
{
    match kind {
        Kind::Arrow => kept,
        _ => given,
    }
}

/// A closure's node, and the site where it was made; none of all other items.
#[tactic(auto, using(crate::proofs::CallLemmas::closure_sound))]
#[inline(always)]
fn closure_at(heap: &Heap, n: u32) -> Option<(u32, Site)>
    requires closed { IsClosed heap.now }
    requires function { IsSoundValue heap.now (Value.Item n) }
    ensures closure { result ≡ closure_of (item_at heap.now n) }
    ensures sound { IfSome result (λ made. IsSoundSite heap.now made.1) }
{
    match heap.get(n) {
        Item::Closure {
            script,
            node,
            scope,
            global,
            receiver,
        } => {
            let site = Site {
                script: *script,
                scope: *scope,
                global: *global,
                receiver: *receiver,
            };
            Some((*node, site))
        }
        _ => None,
    }
}

/// What the body of a function declares; an expression in its place declares nothing.
fn body_declarations(
    alloc: Global,
    scripts: &Scripts,
    script: u32,
    body: u32,
) -> Result<Declarations, NoMemory>
    ensures { IfOk result (λ list. list ≡ body_declares (form_at scripts.now script body)) }
{
    match kind_at(scripts, script, body) {
        Kind::Body => declarations_at(alloc, scripts, script, body),
        _ => Ok(Items::new(alloc)),
    }
}

/// Makes the scope of a call of the function of a node, inside that of the site.
fn scope_of_call(
    alloc: Global,
    scripts: &Scripts,
    heap: &mut Heap,
    node: u32,
    site: Site,
    arguments: &[Value],
) -> Result<u32, Fail>
    requires site { IsSoundSite heap.old site }
    requires arguments { All (IsSoundValue heap.old) arguments.now }

    ensures meets { Meets result heap.new (call_scope site.script site.global site.scope ((form_at scripts.now site.script node).head).names (body_declares (kid 0 ((form_at scripts.now site.script node).kids))) arguments.now heap.old) }

    ensures grown { Grows heap.old heap.new }
    ensures closed { IsClosed heap.old → IsClosed heap.new }
    ensures scope { IfOk result (IsAt IsScope heap.new) }
    ensures thrown { IfErr result (IsSoundFail heap.new) }
{
    let body = kid_at(scripts, site.script, node, 0);
    let declared = body_declarations(alloc, scripts, site.script, body)?;
    let parameters = names_at(scripts, site.script, node);
    js_scopes::call_scope(
        alloc,
        heap,
        site.script,
        site.global,
        site.scope,
        parameters,
        &declared,
        arguments,
    )
}

/// Begins the body of a function: a list of statements, or an expression whose value is returned.
#[tactic(auto, unfolding(crate::specs::After::after))]
#[inline(always)]
fn begin_body(scripts: &Scripts, body: u32, site: Site) -> Step
    ensures step { Waits scripts.now result (λ at s. body_rule (is_body ((form_at scripts.now site.script body).head).kind) at (form_at scripts.now site.script body) site s) }
    ensures sound { (s : Store) → IsSoundSite s site → IsSoundStep s result }
    ensures fits { StepFits scripts.now result }
{
    match kind_at(scripts, site.script, body) {
        Kind::Body => Step::statement(Frame::Body, body, site),
        _ => Step::value(Frame::Pass, body, site),
    }
}

/// Enters a function: makes the scope of its call, and begins its body there.
#[tactic(auto, unfolding(script_meaning::specs::Functions::enter_rule), using(crate::proofs::CallLemmas::site_in))]
#[inline(always)]
fn enter(
    alloc: Global,
    scripts: &Scripts,
    heap: &mut Heap,
    node: u32,
    site: Site,
    arguments: &[Value],
) -> Step
    requires site { IsSoundSite heap.old site }
    requires arguments { All (IsSoundValue heap.old) arguments.now }

    ensures step { Steps scripts.now result heap.old heap.new (λ at s. enter_rule at (form_at scripts.now site.script node) site arguments.now s) }

    ensures grown { Grows heap.old heap.new }
    ensures closed { IsClosed heap.old → IsClosed heap.new }
    ensures sound { IsSoundStep heap.new result }
    ensures fits { StepFits scripts.now result }
{
    let body = kid_at(scripts, site.script, node, 0);
    match scope_of_call(alloc, scripts, heap, node, site, arguments) {
        Ok(scope) => begin_body(scripts, body, Site { scope, ..site }),
        Err(fail) => Step::Ended(Err(abrupt_of(fail))),
    }
}

/// Calls the closure of a node that was made at a site.
#[tactic(auto, using(crate::proofs::CallLemmas::site_with))]
#[inline(always)]
fn call_closure(
    alloc: Global,
    scripts: &Scripts,
    heap: &mut Heap,
    node: u32,
    site: Site,
    receiver: Value,
    arguments: &[Value],
) -> Step
    requires site { IsSoundSite heap.old site }
    requires receiver { IsSoundValue heap.old receiver }
    requires arguments { All (IsSoundValue heap.old) arguments.now }

    ensures step { Steps scripts.now result heap.old heap.new (λ at s. closure_call at scripts.now node site receiver arguments.now s) }

    ensures grown { Grows heap.old heap.new }
    ensures closed { IsClosed heap.old → IsClosed heap.new }
    ensures sound { IsSoundStep heap.new result }
    ensures fits { StepFits scripts.now result }
{
    let kind = kind_at(scripts, site.script, node);
    let receiver = this_of(kind, site.receiver, receiver);
    enter(
        alloc,
        scripts,
        heap,
        node,
        Site { receiver, ..site },
        arguments,
    )
}

/// Calls an item, which has to be a function of a script.
#[tactic(auto, using(crate::proofs::CallLemmas::item_called))]
#[inline(always)]
fn call_item(
    alloc: Global,
    scripts: &Scripts,
    heap: &mut Heap,
    n: u32,
    receiver: Value,
    arguments: &[Value],
) -> Step
    requires closed { IsClosed heap.old }
    requires function { IsSoundValue heap.old (Value.Item n) }
    requires receiver { IsSoundValue heap.old receiver }
    requires arguments { All (IsSoundValue heap.old) arguments.now }

    ensures step { Steps scripts.now result heap.old heap.new (λ at s. item_call at scripts.now (item_at heap.old n) receiver arguments.now s) }

    ensures grown { Grows heap.old heap.new }
    ensures closed { IsClosed heap.new }
    ensures sound { IsSoundStep heap.new result }
    ensures fits { StepFits scripts.now result }
{
    match closure_at(heap, n) {
        Some((node, site)) => {
            call_closure(alloc, scripts, heap, node, site, receiver, arguments)
        }
        None => of_heap(refuse_call(alloc, heap)),
    }
}

// ---- any value

/// Calls a value (ECMA-262, Call): a built-in function is left to the machine, which takes its tick;
/// a function of a script is entered. All other values throw a new TypeError `not a function`.
#[tactic(auto, unfolding(script_meaning::specs::Functions::call_rule))]
#[inline(always)]
pub(crate) fn call(
    alloc: Global,
    scripts: &Scripts,
    heap: &mut Heap,
    function: Value,
    receiver: Value,
    values: Values,
) -> Step
    requires closed { IsClosed heap.old }
    requires function { IsSoundValue heap.old function }
    requires receiver { IsSoundValue heap.old receiver }
    requires values { All (IsSoundValue heap.old) values }

    ensures step { Steps scripts.now result heap.old heap.new (λ at s. call_rule at scripts.now function receiver values s) }

    ensures grown { Grows heap.old heap.new }
    ensures closed { IsClosed heap.new }
    ensures sound { IsSoundStep heap.new result }
    ensures fits { StepFits scripts.now result }
{
    match function {
        Value::Builtin(which) => Step::Builtin {
            which,
            receiver,
            arguments: values,
        },
        Value::Item(n) => call_item(alloc, scripts, heap, n, receiver, values.as_slice()),
        _ => of_heap(refuse_call(alloc, heap)),
    }
}

// ---- its end

/// Ends a call with its body's end: with what the body returns, and else with undefined.
#[tactic(auto, unfolding(crate::specs::After::after))]
#[inline(always)]
pub(crate) fn body(scripts: &Scripts, end: Result<Ended, Abrupt>) -> Step
    ensures step { Waits scripts.now result (λ at s. after at scripts.now Frame.Body (end, s)) }
    ensures sound { (s : Store) → IsSoundEnd s end → IsSoundStep s result }
    ensures fits { StepFits scripts.now result }
{
    let _ = scripts;
    match end {
        Ok(_) => Step::Ended(Ok(Ended::Value(Value::Undefined))),
        Err(Abrupt::Return(value)) => Step::Ended(Ok(Ended::Value(value))),
        Err(abrupt) => Step::Ended(Err(abrupt)),
    }
}
