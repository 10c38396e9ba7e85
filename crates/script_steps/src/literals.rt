//! Literals of arrays and objects: what is made, and what each part adds to it.
ghost use Rattle.std.specs.Prelude.{◌≡◌, suc, min, length, [], ◌∷◌, drop, slice_index_or, Ok, IfOk, IfErr};
ghost use Rattle.charged_heap.specs.Closed.{IsClosed, IsSoundValue};
ghost use Rattle.charged_heap.specs.Growth.{Grows};
ghost use Rattle.charged_heap.specs.Store.{Store, IsAt, IsArray, IsPlain};
ghost use Rattle.js_members.specs.Arrays.{pushed};
ghost use Rattle.js_members.specs.Writes.{write_outcome};
ghost use Rattle.js_trees.specs.Tree.{kid_count, kids_from};
ghost use Rattle.charged_heap.specs.Ends.{IsSoundFail, Meets, item_made, IsSoundResult};
ghost use Rattle.js_syntax.specs.declared.kind.Kind.TheVariants as kinds;
ghost use Rattle.script_meaning.specs.Expressions.{array_rule, elements_rule, object_rule, properties_rule};
ghost use Rattle.script_meaning.specs.Places.{form_at};
ghost use Rattle.script_steps.specs.After.{after, Steps, Waits};
ghost use Rattle.script_steps.specs.Fits.{Is, IsForm, StepFits};
ghost use Rattle.script_steps.specs.Sound.{IsSoundSite, IsSoundStep};

use crate::ends::abrupt_of;
use crate::forms::{kid_at, kid_count_at, names_at};
use crate::{Frame, Step};
use charged_heap::{Fail, Heap, Item, Props, Value, Values, make};
use ivm_text::Units;
use js_syntax::Scripts;
use script_meaning::{Ended, Site};
use std::alloc::Global;

// ---- arrays

/// Goes on with an array from the element at a place on.
#[tactic(auto, unfolding(crate::specs::After::after, script_meaning::specs::Expressions::elements_rule), using(js_trees::proofs::PartLemmas::parts_from, crate::proofs::CallLemmas::array_held))]
#[inline(always)]
fn elements_from(scripts: &Scripts, node: u32, place: u32, array: u32, site: Site) -> Step
    requires form { IsForm (Is kinds.Array) scripts.now site.script node }
    ensures step { Waits scripts.now result (λ at s. elements_rule at array (kids_from place ((form_at scripts.now site.script node).kids)) site s) }
    ensures sound { (s : Store) → IsAt IsArray s array → IsSoundSite s site → IsSoundStep s result }
    ensures fits { StepFits scripts.now result }
{
    if place < kid_count_at(scripts, site.script, node) {
        let element = kid_at(scripts, site.script, node, place);
        let waiting = Frame::Element {
            node,
            place,
            array,
            site,
        };
        return Step::value(waiting, element, site);
    }
    Step::Ended(Ok(Ended::Value(Value::Item(array))))
}

/// Goes on with an array behind the element at a place.
#[tactic(auto, using(js_trees::proofs::PartLemmas::parts_from, crate::proofs::CallLemmas::array_held), unfolding(script_meaning::specs::Expressions::elements_rule))]
#[inline(always)]
fn elements_behind(scripts: &Scripts, node: u32, place: u32, array: u32, site: Site) -> Step
    requires form { IsForm (Is kinds.Array) scripts.now site.script node }
    ensures step { Waits scripts.now result (λ at s. elements_rule at array (kids_from (suc place) ((form_at scripts.now site.script node).kids)) site s) }
    ensures sound { (s : Store) → IsAt IsArray s array → IsSoundSite s site → IsSoundStep s result }
    ensures fits { StepFits scripts.now result }
{
    if place < kid_count_at(scripts, site.script, node) {
        return elements_from(scripts, node, place + 1, array, site);
    }
    Step::Ended(Ok(Ended::Value(Value::Item(array))))
}

/// Adds an element at the end of an array.
#[tactic(auto, using(crate::proofs::CallLemmas::push_is))]
fn add_element(alloc: Global, heap: &mut Heap, array: u32, value: Value) -> Result<Value, Fail>
    requires array { IsAt IsArray heap.old array }
    requires value { IsSoundValue heap.old value }

    ensures gives { Meets result heap.new (pushed array (value ∷ []) heap.old) }

    ensures grown { Grows heap.old heap.new }
    ensures closed { IsClosed heap.old → IsClosed heap.new }
    ensures sound { IsSoundResult heap.new result }
{
    js_members::push(alloc, heap, Value::Item(array), &[value])
}

/// Adds an element to its array, and goes on with the next.
#[tactic(auto, unfolding(crate::specs::After::after), using(crate::proofs::Growing::site_grows))]
#[inline(always)]
pub(crate) fn element(
    alloc: Global,
    scripts: &Scripts,
    heap: &mut Heap,
    node: u32,
    place: u32,
    array: u32,
    site: Site,
    value: Value,
) -> Step
    requires array { IsAt IsArray heap.old array }
    requires site { IsSoundSite heap.old site }
    requires value { IsSoundValue heap.old value }
    requires form { IsForm (Is kinds.Array) scripts.now site.script node }

    ensures step { Steps scripts.now result heap.old heap.new (λ at s. after at scripts.now (Frame.Element node place array site) (Ok (Ended.Value value), s)) }

    ensures grown { Grows heap.old heap.new }
    ensures closed { IsClosed heap.old → IsClosed heap.new }
    ensures sound { IsSoundStep heap.new result }
    ensures fits { StepFits scripts.now result }
{
    match add_element(alloc, heap, array, value) {
        Ok(_) => elements_behind(scripts, node, place, array, site),
        Err(fail) => Step::Ended(Err(abrupt_of(fail))),
    }
}

/// Begins an array: it is made before its first element is evaluated.
#[tactic(auto, unfolding(script_meaning::specs::Expressions::array_rule), using(crate::proofs::CallLemmas::made_value, crate::proofs::CallLemmas::made_refused, crate::proofs::Growing::site_grows))]
#[inline(always)]
pub(crate) fn begin_array(
    alloc: Global,
    scripts: &Scripts,
    heap: &mut Heap,
    node: u32,
    site: Site,
) -> Step
    requires site { IsSoundSite heap.old site }
    requires form { IsForm (Is kinds.Array) scripts.now site.script node }

    ensures step { Steps scripts.now result heap.old heap.new (λ at s. array_rule at ((form_at scripts.now site.script node).kids) site s) }

    ensures grown { Grows heap.old heap.new }
    ensures closed { IsClosed heap.old → IsClosed heap.new }
    ensures sound { IsSoundStep heap.new result }
    ensures fits { StepFits scripts.now result }
{
    match make(heap, Item::Array(Values::new(alloc))) {
        Ok(array) => elements_from(scripts, node, 0, array, site),
        Err(fail) => Step::Ended(Err(abrupt_of(fail))),
    }
}

// ---- objects

/// How many of an object's parts have a name.
fn property_count(scripts: &Scripts, script: u32, node: u32) -> u32
    ensures { result ≡ min (kid_count ((form_at scripts.now script node).kids)) (length ((form_at scripts.now script node).head).names) }
{
    let kids = kid_count_at(scripts, script, node);
    let names = names_at(scripts, script, node).len();
    if names < kids as usize {
        names as u32
    } else {
        kids
    }
}

/// Goes on with an object from the property at a place on.
#[tactic(auto, using(crate::proofs::CallLemmas::plain_held, crate::proofs::CallLemmas::properties_end))]
#[inline(always)]
fn properties_from(scripts: &Scripts, node: u32, place: u32, object: u32, site: Site) -> Step
    requires form { IsForm (Is kinds.Object) scripts.now site.script node }
    ensures step { Waits scripts.now result (λ at s. properties_rule at object (drop place ((form_at scripts.now site.script node).head).names) (kids_from place ((form_at scripts.now site.script node).kids)) site s) }
    ensures sound { (s : Store) → IsAt IsPlain s object → IsSoundSite s site → IsSoundStep s result }
    ensures fits { StepFits scripts.now result }
{
    if place < property_count(scripts, site.script, node) {
        let part = kid_at(scripts, site.script, node, place);
        let waiting = Frame::Property {
            node,
            place,
            object,
            site,
        };
        return Step::value(waiting, part, site);
    }
    Step::Ended(Ok(Ended::Value(Value::Item(object))))
}

/// Goes on with an object behind the property at a place.
#[tactic(auto, using(crate::proofs::CallLemmas::plain_held, crate::proofs::CallLemmas::properties_ended))]
#[inline(always)]
fn properties_behind(scripts: &Scripts, node: u32, place: u32, object: u32, site: Site) -> Step
    requires form { IsForm (Is kinds.Object) scripts.now site.script node }
    ensures step { Waits scripts.now result (λ at s. properties_rule at object (drop (suc place) ((form_at scripts.now site.script node).head).names) (kids_from (suc place) ((form_at scripts.now site.script node).kids)) site s) }
    ensures sound { (s : Store) → IsAt IsPlain s object → IsSoundSite s site → IsSoundStep s result }
    ensures fits { StepFits scripts.now result }
{
    if place < property_count(scripts, site.script, node) {
        return properties_from(scripts, node, place + 1, object, site);
    }
    Step::Ended(Ok(Ended::Value(Value::Item(object))))
}

/// Gives an object the property whose name stands at this place.
#[tactic(auto, using(crate::proofs::CallLemmas::name_there, crate::proofs::CallLemmas::name_missing, crate::proofs::CallLemmas::plain_held))]
fn add_property(
    alloc: Global,
    heap: &mut Heap,
    names: &[Units],
    place: u32,
    object: u32,
    value: Value,
) -> Result<Value, Fail>
    requires object { IsAt IsPlain heap.old object }
    requires value { IsSoundValue heap.old value }

    ensures gives { Meets result heap.new (write_outcome (Value.Item object) (slice_index_or names.now place []) value heap.old) }

    ensures grown { Grows heap.old heap.new }
    ensures closed { IsClosed heap.old → IsClosed heap.new }
    ensures sound { IsSoundResult heap.new result }
{
    match names.get(place as usize) {
        Some(name) => js_members::write(alloc, heap, Value::Item(object), name, value),
        None => js_members::write(alloc, heap, Value::Item(object), &Units::new(alloc), value),
    }
}

/// Gives an object a property, and goes on with the next.
#[tactic(auto, unfolding(crate::specs::After::after), using(crate::proofs::Growing::site_grows))]
#[inline(always)]
pub(crate) fn property(
    alloc: Global,
    scripts: &Scripts,
    heap: &mut Heap,
    node: u32,
    place: u32,
    object: u32,
    site: Site,
    value: Value,
) -> Step
    requires object { IsAt IsPlain heap.old object }
    requires site { IsSoundSite heap.old site }
    requires value { IsSoundValue heap.old value }
    requires form { IsForm (Is kinds.Object) scripts.now site.script node }

    ensures step { Steps scripts.now result heap.old heap.new (λ at s. after at scripts.now (Frame.Property node place object site) (Ok (Ended.Value value), s)) }

    ensures grown { Grows heap.old heap.new }
    ensures closed { IsClosed heap.old → IsClosed heap.new }
    ensures sound { IsSoundStep heap.new result }
    ensures fits { StepFits scripts.now result }
{
    let names = names_at(scripts, site.script, node);
    match add_property(alloc, heap, names, place, object, value) {
        Ok(_) => properties_behind(scripts, node, place, object, site),
        Err(fail) => Step::Ended(Err(abrupt_of(fail))),
    }
}

/// Makes an object without properties, and answers its number.
fn make_object(alloc: Global, heap: &mut Heap) -> Result<u32, Fail>
    ensures meets { Meets result heap.new (item_made (Item.Plain []) heap.old) }

    ensures grown { Grows heap.old heap.new }
    ensures closed { IsClosed heap.old → IsClosed heap.new }
    ensures object { IfOk result (IsAt IsPlain heap.new) }
    ensures thrown { IfErr result (IsSoundFail heap.new) }
{
    let properties = Props::new(alloc)?;
    make(heap, Item::Plain(properties))
}

/// Begins an object: it is made before its first property is evaluated.
#[tactic(auto, unfolding(script_meaning::specs::Expressions::object_rule), using(crate::proofs::CallLemmas::made_value, crate::proofs::CallLemmas::made_refused, crate::proofs::Growing::site_grows))]
#[inline(always)]
pub(crate) fn begin_object(
    alloc: Global,
    scripts: &Scripts,
    heap: &mut Heap,
    node: u32,
    site: Site,
) -> Step
    requires site { IsSoundSite heap.old site }
    requires form { IsForm (Is kinds.Object) scripts.now site.script node }

    ensures step { Steps scripts.now result heap.old heap.new (λ at s. object_rule at (form_at scripts.now site.script node) site s) }

    ensures grown { Grows heap.old heap.new }
    ensures closed { IsClosed heap.old → IsClosed heap.new }
    ensures sound { IsSoundStep heap.new result }
    ensures fits { StepFits scripts.now result }
{
    match make_object(alloc, heap) {
        Ok(object) => properties_from(scripts, node, 0, object, site),
        Err(fail) => Step::Ended(Err(abrupt_of(fail))),
    }
}
