//! Members: where they begin and how they go on.
ghost use Rattle.std.specs.Prelude.{◌≡◌, Ok, Some, []};
ghost use Rattle.std.specs.Option.{unwrap_or};
ghost use Rattle.charged_heap.specs.Closed.{IsClosed, IsSoundValue};
ghost use Rattle.charged_heap.specs.Growth.{Grows};
ghost use Rattle.charged_heap.specs.Store.{Store};
ghost use Rattle.js_syntax.specs.declared.kind.Kind.TheVariants as kinds;
ghost use Rattle.script_meaning.specs.Expressions.{member_rule, index_rule, computed_for};
ghost use Rattle.script_meaning.specs.Places.{form_at, key_of};
ghost use Rattle.script_steps.specs.After.{after, Steps, Waits};
ghost use Rattle.script_steps.specs.Callees.{callee_end};
ghost use Rattle.script_steps.specs.Fits.{Is, IsForm, StepFits};
ghost use Rattle.script_steps.specs.Sound.{IsSoundSite, IsSoundStep, IsSoundPlace};

use crate::ends::{abrupt_of, of_heap};
use crate::forms::kid_at;
use crate::places::{is_computed_key, read_computed, read_named, refuse_key, type_of_place};
use crate::{Frame, Step};
use charged_heap::{Fail, Heap, Value};
use js_syntax::Scripts;
use script_meaning::{Ended, Key, Place, Role, Site};
use std::alloc::Global;

/// Ends a callee that was read from a member.
#[inline(always)]
fn of_callee(given: Result<Value, Fail>, receiver: Value) -> Step
    ensures { result ≡ Step.Ended (callee_end given receiver) }
{
    match given {
        Ok(function) => Step::Ended(Ok(Ended::Member { function, receiver })),
        Err(fail) => Step::Ended(Err(abrupt_of(fail))),
    }
}

// ---- members by name

/// Begins `object.name`.
#[tactic(auto, unfolding(crate::specs::After::after, script_meaning::specs::Expressions::member_rule))]
#[inline(always)]
pub(crate) fn begin_member(scripts: &Scripts, role: Role, node: u32, site: Site) -> Step
    requires itself { ((form_at scripts.now site.script node).head).number_of_node ≡ node }
    requires form { IsForm (Is kinds.Member) scripts.now site.script node }
    ensures step { Waits scripts.now result (λ at s. member_rule role at (form_at scripts.now site.script node) site s) }
    ensures sound { (s : Store) → IsSoundSite s site → IsSoundStep s result }
    ensures fits { StepFits scripts.now result }
{
    let object = kid_at(scripts, site.script, node, 0);
    let waiting = Frame::Member {
        role,
        node,
        script: site.script,
    };
    Step::value(waiting, object, site)
}

/// Ends a member with its object.
#[tactic(auto, unfolding(crate::specs::After::after), using(crate::proofs::PlaceLemmas::growth))]
#[inline(always)]
pub(crate) fn member(
    alloc: Global,
    scripts: &Scripts,
    heap: &mut Heap,
    role: Role,
    node: u32,
    script: u32,
    object: Value,
) -> Step
    requires heap { IsClosed heap.old }
    requires object { IsSoundValue heap.old object }
    ensures step { Steps scripts.now result heap.old heap.new (λ at s. after at scripts.now (Frame.Member role node script) (Ok (Ended.Value object), s)) }
    ensures grown { Grows heap.old heap.new }
    ensures closed { IsClosed heap.new }
    ensures sound { IsSoundStep heap.new result }
    ensures fits { StepFits scripts.now result }
{
    match role {
        Role::Target => Step::Ended(Ok(Ended::Place(Place::Member {
            base: object,
            key: Key::Name(node),
        }))),
        Role::Callee => of_callee(
            read_named(alloc, scripts, heap, script, node, object),
            object,
        ),
        Role::Value | Role::Statement => {
            of_heap(read_named(alloc, scripts, heap, script, node, object))
        }
    }
}

// ---- members by a key that is computed

/// Begins `object[key]`.
#[tactic(auto, unfolding(crate::specs::After::after, script_meaning::specs::Expressions::index_rule), using(crate::proofs::FitLemmas::fits))]
#[inline(always)]
pub(crate) fn begin_index(scripts: &Scripts, role: Role, node: u32, site: Site) -> Step
    requires form { IsForm (Is kinds.Index) scripts.now site.script node }
    ensures step { Waits scripts.now result (λ at s. index_rule role at ((form_at scripts.now site.script node).kids) site s) }
    ensures sound { (s : Store) → IsSoundSite s site → IsSoundStep s result }
    ensures fits { StepFits scripts.now result }
{
    let object = kid_at(scripts, site.script, node, 0);
    let key = kid_at(scripts, site.script, node, 1);
    Step::value(Frame::IndexObject { role, key, site }, object, site)
}

/// Goes on with the object of a computed member.
#[tactic(auto, unfolding(crate::specs::After::after))]
#[inline(always)]
pub(crate) fn index_object(
    scripts: &Scripts,
    role: Role,
    key: u32,
    site: Site,
    object: Value,
) -> Step
    ensures step { Waits scripts.now result (λ at s. after at scripts.now (Frame.IndexObject role key site) (Ok (Ended.Value object), s)) }
    ensures sound { (s : Store) → IsSoundSite s site → IsSoundValue s object → IsSoundStep s result }
    ensures fits { StepFits scripts.now result }
{
    let _ = scripts;
    Step::value(Frame::IndexKey { role, object }, key, site)
}

/// Ends a computed member whose key is one.
#[tactic(auto, using(crate::proofs::PlaceLemmas::growth))]
#[inline(always)]
fn computed(
    alloc: Global,
    scripts: &Scripts,
    heap: &mut Heap,
    role: Role,
    object: Value,
    key: Value,
) -> Step
    requires heap { IsClosed heap.old }
    requires object { IsSoundValue heap.old object }
    requires key { IsSoundValue heap.old key }
    ensures step { Steps scripts.now result heap.old heap.new (λ at s. computed_for role object key s (Some (unwrap_or (key_of s.heap key) []))) }
    ensures grown { Grows heap.old heap.new }
    ensures closed { IsClosed heap.new }
    ensures sound { IsSoundStep heap.new result }
    ensures fits { StepFits scripts.now result }
{
    let _ = scripts;
    match role {
        Role::Target => Step::Ended(Ok(Ended::Place(Place::Member {
            base: object,
            key: Key::Computed(key),
        }))),
        Role::Callee => of_callee(read_computed(alloc, heap, object, key), object),
        Role::Value | Role::Statement => of_heap(read_computed(alloc, heap, object, key)),
    }
}

/// Ends a computed member with its key.
#[tactic(auto, unfolding(crate::specs::After::after), using(crate::proofs::PlaceLemmas::no_key, crate::proofs::PlaceLemmas::a_key))]
#[inline(always)]
pub(crate) fn index_key(
    alloc: Global,
    scripts: &Scripts,
    heap: &mut Heap,
    role: Role,
    object: Value,
    key: Value,
) -> Step
    requires heap { IsClosed heap.old }
    requires object { IsSoundValue heap.old object }
    requires key { IsSoundValue heap.old key }
    ensures step { Steps scripts.now result heap.old heap.new (λ at s. after at scripts.now (Frame.IndexKey role object) (Ok (Ended.Value key), s)) }
    ensures grown { Grows heap.old heap.new }
    ensures closed { IsClosed heap.new }
    ensures sound { IsSoundStep heap.new result }
    ensures fits { StepFits scripts.now result }
{
    if is_computed_key(heap, key) {
        computed(alloc, scripts, heap, role, object, key)
    } else {
        of_heap(refuse_key(alloc, heap))
    }
}

// ---- types of places

/// Ends `typeof` of a name with its place.
#[tactic(auto, unfolding(crate::specs::After::after))]
#[inline(always)]
pub(crate) fn type_of(
    alloc: Global,
    scripts: &Scripts,
    heap: &mut Heap,
    site: Site,
    place: Place,
) -> Step
    requires heap { IsClosed heap.old }
    requires site { IsSoundSite heap.old site }
    requires place { IsSoundPlace heap.old place }
    ensures step { Steps scripts.now result heap.old heap.new (λ at s. after at scripts.now (Frame.TypeOfPlace site) (Ok (Ended.Place place), s)) }
    ensures grown { Grows heap.old heap.new }
    ensures closed { IsClosed heap.new }
    ensures sound { IsSoundStep heap.new result }
    ensures fits { StepFits scripts.now result }
{
    of_heap(type_of_place(alloc, scripts, heap, site, place))
}
