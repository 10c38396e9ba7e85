//! Statements: where they begin and how they go on.
ghost use Rattle.std.specs.Prelude.{◌≡◌, ◌<◌, ℕ, MatchOption, Some, slice_get, ◌≢◌, ◌≤◌, suc, Option, Ok, Err, None, IfSome, drop, length, slice_index_or, [], if◌then◌else◌};
ghost use Rattle.charged_heap.specs.Closed.{IsClosed, IsSoundValue};
ghost use Rattle.charged_heap.specs.Growth.{Grows};
ghost use Rattle.charged_heap.specs.Store.{Store};
ghost use Rattle.js_scopes.specs.Scopes.{initialised};
ghost use Rattle.js_trees.specs.Tree.{kid, kid_count, kids_from};
ghost use Rattle.script_meaning.specs.Outcome.{Inside};
ghost use Rattle.script_meaning.specs.Statements.{list_rule, block_rule, declare_rule, if_rule, return_rule, latest, ended_with, or_undefined};
ghost use Rattle.script_meaning.specs.Places.{form_at};
ghost use Rattle.script_steps.specs.After.{after, with_left, Steps, Waits};
ghost use Rattle.script_steps.specs.Fits.{Is, IsDeclaration, IsForm, IsList, StepFits};
ghost use Rattle.script_steps.specs.Sound.{IsSoundSite, IsSoundStep};

use crate::ends::abrupt_of;
use crate::forms::{declarations_at, kid_at, kid_count_at, kind_at, names_at};
use crate::{Frame, Step};
use charged_heap::{Heap, Value};
use ivm_text::Units;
use js_ops::truthy;
use js_syntax::{Kind, Scripts};
use script_meaning::{Abrupt, Ended, Site};
use std::alloc::Global;

// ---- values of statements

/// The later value, where there is one.
pub(crate) fn latest(value: Option<Value>, last: Option<Value>) -> Option<Value>
    ensures { result ≡ latest value last }
{
    match value {
        Some(value) => Some(value),
        None => last,
    }
}

/// A statement that has a value, or none.
#[inline(always)]
pub(crate) fn ended_with(value: Option<Value>) -> Ended
    ensures { result ≡ ended_with value }
{
    match value {
        Some(value) => Ended::Value(value),
        None => Ended::Empty,
    }
}

/// A value, and undefined where there is none.
pub(crate) fn or_undefined(value: Option<Value>) -> Option<Value>
    ensures { result ≡ or_undefined value }
{
    Some(value.unwrap_or(Value::Undefined))
}

// ---- lists

/// The statements of a list from a place on, where the last value so far is this one.
#[tactic(auto, unfolding(script_meaning::specs::Statements::list_rule), using(js_trees::proofs::PartLemmas::parts_from, crate::proofs::ListLemmas::lists))]
#[inline(always)]
pub(crate) fn list_from(
    scripts: &Scripts,
    node: u32,
    place: u32,
    last: Option<Value>,
    site: Site,
) -> Step
    requires form { IsForm IsList scripts.now site.script node }
    ensures step { Waits scripts.now result (λ at s. list_rule at (kids_from place ((form_at scripts.now site.script node).kids)) site last s) }
    ensures sound { (s : Store) → IsSoundSite s site → IfSome last (IsSoundValue s) → IsSoundStep s result }
    ensures fits { StepFits scripts.now result }
{
    if place < kid_count_at(scripts, site.script, node) {
        let statement = kid_at(scripts, site.script, node, place);
        let waiting = Frame::List {
            node,
            place,
            last,
            site,
        };
        Step::statement(waiting, statement, site)
    } else {
        Step::Ended(Ok(ended_with(last)))
    }
}

/// Begins a block: where it declares something it has a scope of its own.
#[tactic(auto, unfolding(script_meaning::specs::Statements::block_rule), using(crate::proofs::FitLemmas::kinds_known, crate::proofs::Growing::growing))]
#[inline(always)]
pub(crate) fn begin_block(
    alloc: Global,
    scripts: &Scripts,
    heap: &mut Heap,
    node: u32,
    site: Site,
) -> Step
    requires site { IsSoundSite heap.old site }
    requires form { IsForm (Is Kind.Block) scripts.now site.script node }
    ensures step { Steps scripts.now result heap.old heap.new (λ at s. block_rule at ((form_at scripts.now site.script node).kids) site s) }
    ensures grown { Grows heap.old heap.new }
    ensures closed { IsClosed heap.old → IsClosed heap.new }
    ensures sound { IsSoundStep heap.new result }
    ensures fits { StepFits scripts.now result }
{
    let declared = match declarations_at(alloc, scripts, site.script, node) {
        Ok(declared) => declared,
        Err(_) => return Step::Ended(Err(Abrupt::NoMemory)),
    };
    if declared.len() == 0 {
        return list_from(scripts, node, 0, None, site);
    }
    let Site {
        script,
        scope,
        global,
        receiver,
    } = site;
    match js_scopes::block_scope(alloc, heap, script, global, scope, &declared) {
        Ok(scope) => {
            let inside = Site {
                script,
                scope,
                global,
                receiver,
            };
            list_from(scripts, node, 0, None, inside)
        }
        Err(fail) => Step::Ended(Err(abrupt_of(fail))),
    }
}

// ---- declarations

/// The name at a place; none from the number of the names on.
fn name_in<'a>(scripts: &'a Scripts, node: u32, place: u32, site: Site) -> Option<&'a Units>
    ensures { MatchOption result (length ((form_at scripts.now site.script node).head).names ≤ place) (λ name. slice_get ((form_at scripts.now site.script node).head).names place ≡ Some name.now) }
{
    names_at(scripts, site.script, node).get(place as usize)
}

/// Gives the name at a place undefined, since its initialiser is left out.
#[tactic(auto, using(crate::proofs::Growing::growing, crate::proofs::ListLemmas::declared))]
fn leave_undefined(
    scripts: &Scripts,
    heap: &mut Heap,
    node: u32,
    place: u32,
    site: Site,
    name: &Units,
)
    requires site { IsSoundSite heap.old site }
    requires name { slice_get ((form_at scripts.now site.script node).head).names place ≡ Some name.now }
    requires part { place < kid_count ((form_at scripts.now site.script node).kids) }
    requires absent { ((kid place ((form_at scripts.now site.script node).kids)).head).kind ≡ Kind.Absent }
    ensures passes { (at : Inside) (left : ℕ) → declare_rule at (drop place ((form_at scripts.now site.script node).head).names) (kids_from place ((form_at scripts.now site.script node).kids)) site (with_left heap.old left) ≡ declare_rule at (drop (suc place) ((form_at scripts.now site.script node).head).names) (kids_from (suc place) ((form_at scripts.now site.script node).kids)) site (with_left heap.new left) }
    ensures grown { Grows heap.old heap.new }
    ensures closed { IsClosed heap.old → IsClosed heap.new }
    ensures site { IsSoundSite heap.new site }
{
    let _ = scripts;
    let _ = node;
    let _ = place;
    js_scopes::initialise(heap, site.scope, name, Value::Undefined);
}

/// Waits for the initialiser of the name at a place.
#[tactic(auto, unfolding(crate::specs::After::after), using(crate::proofs::ListLemmas::declaration_waits))]
#[inline(always)]
fn await_value(scripts: &Scripts, node: u32, place: u32, site: Site, initialiser: u32) -> Step
    requires part { place < kid_count ((form_at scripts.now site.script node).kids) }
    requires named { place < length ((form_at scripts.now site.script node).head).names }
    requires initialiser { form_at scripts.now site.script initialiser ≡ kid place ((form_at scripts.now site.script node).kids) }
    requires there { ((kid place ((form_at scripts.now site.script node).kids)).head).kind ≢ Kind.Absent }
    requires form { IsForm IsDeclaration scripts.now site.script node }
    ensures step { Waits scripts.now result (λ at s. declare_rule at (drop place ((form_at scripts.now site.script node).head).names) (kids_from place ((form_at scripts.now site.script node).kids)) site s) }
    ensures sound { (s : Store) → IsSoundSite s site → IsSoundStep s result }
    ensures fits { StepFits scripts.now result }
{
    let _ = scripts;
    Step::value(Frame::Declarator { node, place, site }, initialiser, site)
}

/// Gives undefined to the names of a `let` or `const` from a place on, up to the first that has an initialiser. Answers
/// the place of that one, or one where no name is.
#[tactic(auto, using(crate::proofs::Growing::growing))]
fn leave_all_undefined(scripts: &Scripts, heap: &mut Heap, node: u32, place: u32, site: Site) -> u32
    requires { IsSoundSite heap.old site }
    ensures passes { (at : Inside) (left : ℕ) → declare_rule at (drop place ((form_at scripts.now site.script node).head).names) (kids_from place ((form_at scripts.now site.script node).kids)) site (with_left heap.old left) ≡ declare_rule at (drop result ((form_at scripts.now site.script node).head).names) (kids_from result ((form_at scripts.now site.script node).kids)) site (with_left heap.new left) }
    ensures next { result < kid_count ((form_at scripts.now site.script node).kids) → result < length ((form_at scripts.now site.script node).head).names → ((kid result ((form_at scripts.now site.script node).kids)).head).kind ≢ Kind.Absent }
    ensures grown { Grows heap.old heap.new }
    ensures closed { IsClosed heap.old → IsClosed heap.new }
    ensures site { IsSoundSite heap.new site }
{
    let mut next = place;
    while next < kid_count_at(scripts, site.script, node) {
        let Some(name) = name_in(scripts, node, next, site) else {
            return next;
        };
        let initialiser = kid_at(scripts, site.script, node, next);
        if kind_at(scripts, site.script, initialiser) != Kind::Absent {
            return next;
        }
        leave_undefined(scripts, heap, node, next, site, name);
        next += 1;
    }
    next
}

/// The names of a `let` or `const` from a place on. A name without an initialiser gets undefined at once.
#[tactic(auto, using(crate::proofs::Growing::growing, crate::proofs::ListLemmas::ends))]
#[inline(always)]
pub(crate) fn declare_from(
    scripts: &Scripts,
    heap: &mut Heap,
    node: u32,
    place: u32,
    site: Site,
) -> Step
    requires site { IsSoundSite heap.old site }
    requires form { IsForm IsDeclaration scripts.now site.script node }
    ensures step { Steps scripts.now result heap.old heap.new (λ at s. declare_rule at (drop place ((form_at scripts.now site.script node).head).names) (kids_from place ((form_at scripts.now site.script node).kids)) site s) }
    ensures grown { Grows heap.old heap.new }
    ensures closed { IsClosed heap.old → IsClosed heap.new }
    ensures sound { IsSoundStep heap.new result }
    ensures fits { StepFits scripts.now result }
{
    let next = leave_all_undefined(scripts, heap, node, place, site);
    if next >= kid_count_at(scripts, site.script, node) {
        return Step::Ended(Ok(Ended::Empty));
    }
    if name_in(scripts, node, next, site).is_none() {
        return Step::Ended(Ok(Ended::Empty));
    }
    let initialiser = kid_at(scripts, site.script, node, next);
    await_value(scripts, node, next, site, initialiser)
}

/// The names behind a place.
#[tactic(auto, using(crate::proofs::ListLemmas::behind))]
#[inline(always)]
fn declare_behind(scripts: &Scripts, heap: &mut Heap, node: u32, place: u32, site: Site) -> Step
    requires site { IsSoundSite heap.old site }
    requires form { IsForm IsDeclaration scripts.now site.script node }
    ensures step { Steps scripts.now result heap.old heap.new (λ at s. declare_rule at (drop (suc place) ((form_at scripts.now site.script node).head).names) (kids_from (suc place) ((form_at scripts.now site.script node).kids)) site s) }
    ensures grown { Grows heap.old heap.new }
    ensures closed { IsClosed heap.old → IsClosed heap.new }
    ensures sound { IsSoundStep heap.new result }
    ensures fits { StepFits scripts.now result }
{
    if place >= kid_count_at(scripts, site.script, node) {
        return Step::Ended(Ok(Ended::Empty));
    }
    declare_from(scripts, heap, node, place + 1, site)
}

/// Gives the name at the place a value.
#[tactic(auto, using(crate::proofs::Growing::growing, crate::proofs::ListLemmas::named))]
fn initialise_at(
    alloc: Global,
    scripts: &Scripts,
    heap: &mut Heap,
    node: u32,
    place: u32,
    site: Site,
    value: Value,
)
    requires site { IsSoundSite heap.old site }
    requires value { IsSoundValue heap.old value }
    ensures value { heap.new ≡ initialised heap.old site.scope (slice_index_or ((form_at scripts.now site.script node).head).names place []) value }
    ensures grown { Grows heap.old heap.new }
    ensures closed { IsClosed heap.old → IsClosed heap.new }
    ensures site { IsSoundSite heap.new site }
{
    match name_in(scripts, node, place, site) {
        Some(name) => js_scopes::initialise(heap, site.scope, name, value),
        None => js_scopes::initialise(heap, site.scope, &Units::new(alloc), value),
    }
}

/// Gives the name at the place its value, and goes on with the names behind it.
#[tactic(auto, unfolding(crate::specs::After::after))]
#[inline(always)]
pub(crate) fn declarator(
    alloc: Global,
    scripts: &Scripts,
    heap: &mut Heap,
    node: u32,
    place: u32,
    site: Site,
    value: Value,
) -> Step
    requires site { IsSoundSite heap.old site }
    requires value { IsSoundValue heap.old value }
    requires form { IsForm IsDeclaration scripts.now site.script node }
    ensures step { Steps scripts.now result heap.old heap.new (λ at s. after at scripts.now (Frame.Declarator node place site) (Ok (Ended.Value value), s)) }
    ensures grown { Grows heap.old heap.new }
    ensures closed { IsClosed heap.old → IsClosed heap.new }
    ensures sound { IsSoundStep heap.new result }
    ensures fits { StepFits scripts.now result }
{
    initialise_at(alloc, scripts, heap, node, place, site, value);
    declare_behind(scripts, heap, node, place, site)
}

// ---- choices and ends

/// Begins `if`.
#[tactic(auto, unfolding(crate::specs::After::after, script_meaning::specs::Statements::if_rule), using(crate::proofs::FitLemmas::fits))]
#[inline(always)]
pub(crate) fn begin_if(scripts: &Scripts, node: u32, site: Site) -> Step
    requires form { IsForm (Is Kind.If) scripts.now site.script node }
    ensures step { Waits scripts.now result (λ at s. if_rule at ((form_at scripts.now site.script node).kids) site s) }
    ensures sound { (s : Store) → IsSoundSite s site → IsSoundStep s result }
    ensures fits { StepFits scripts.now result }
{
    let condition = kid_at(scripts, site.script, node, 0);
    let good = kid_at(scripts, site.script, node, 1);
    let bad = kid_at(scripts, site.script, node, 2);
    Step::value(Frame::If { good, bad, site }, condition, site)
}

/// Goes on with the condition of an `if`.
#[tactic(auto, unfolding(crate::specs::After::after))]
#[inline(always)]
pub(crate) fn if_chosen(
    scripts: &Scripts,
    heap: &Heap,
    good: u32,
    bad: u32,
    site: Site,
    condition: Value,
) -> Step
    requires { IsSoundValue heap.now condition }
    ensures step { Steps scripts.now result heap.now heap.now (λ at s. after at scripts.now (Frame.If good bad site) (Ok (Ended.Value condition), s)) }
    ensures sound { IsSoundSite heap.now site → IsSoundStep heap.now result }
    ensures fits { StepFits scripts.now result }
{
    if truthy(heap, condition) {
        return Step::statement(Frame::Filled, good, site);
    }
    match kind_at(scripts, site.script, bad) {
        Kind::Absent => Step::Ended(Ok(Ended::Value(Value::Undefined))),
        _ => Step::statement(Frame::Filled, bad, site),
    }
}

/// Begins `return`.
#[tactic(auto, unfolding(crate::specs::After::after, script_meaning::specs::Statements::return_rule))]
#[inline(always)]
pub(crate) fn begin_return(scripts: &Scripts, node: u32, site: Site) -> Step
    ensures step { Waits scripts.now result (λ at s. return_rule at ((form_at scripts.now site.script node).kids) site s) }
    ensures sound { (s : Store) → IsSoundSite s site → IsSoundStep s result }
    ensures fits { StepFits scripts.now result }
{
    let value = kid_at(scripts, site.script, node, 0);
    match kind_at(scripts, site.script, value) {
        Kind::Absent => Step::Ended(Err(Abrupt::Return(Value::Undefined))),
        _ => Step::value(Frame::Return, value, site),
    }
}
