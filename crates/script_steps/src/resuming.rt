//! How each form goes on once the node inside it has ended.
ghost use Rattle.std.specs.Prelude.{◌≡◌, Ok, Result};
ghost use Rattle.charged_heap.specs.Closed.{IsClosed, IsSoundValue};
ghost use Rattle.charged_heap.specs.Growth.{Grows};
ghost use Rattle.charged_heap.specs.Store.{Store};
ghost use Rattle.script_steps.specs.After.{after, Turns};
ghost use Rattle.script_steps.specs.Fits.{FrameFits, StepFits};
ghost use Rattle.script_steps.specs.Groups.{TakesAnyEnd, TakesOperand, TakesPlace};
ghost use Rattle.script_steps.specs.Sound.{IsSoundEnd, IsSoundFrame, IsSoundPlace, IsSoundStep};

use crate::assignments::{assign_target, assign_value, step_target, update_target, update_value};
use crate::called::body;
use crate::calls::{argument, callee, callee_member};
use crate::endings::{filled, list};
use crate::handlers::{finish, finished, tried};
use crate::literals::{element, property};
use crate::loops::{loop_body, loop_headed, loop_tested, loop_updated};
use crate::members::{index_key, index_object, member, type_of};
use crate::operators::{condition, left, logical, operand, right};
use crate::statements::{declarator, if_chosen};
use crate::{Frame, Step};
use charged_heap::{Heap, Value};
use js_syntax::Scripts;
use script_meaning::{Abrupt, Ended, Place};
use std::alloc::Global;

// ---- values

/// Goes on with a value that is no operand.
#[tactic(auto, unfolding(crate::specs::After::after), using(crate::proofs::Passing::passing))]
#[inline(always)]
fn resume_further(
    alloc: Global,
    scripts: &Scripts,
    heap: &mut Heap,
    frame: Frame,
    value: Value,
) -> Step
    requires closed { IsClosed heap.old }
    requires frame { IsSoundFrame heap.old frame }
    requires passes { TakesAnyEnd frame → ⊥ }
    requires operand { TakesOperand frame → ⊥ }
    requires value { IsSoundValue heap.old value }
    requires fits { FrameFits scripts.now frame }

    ensures step { Turns scripts.now result heap.old heap.new (λ at s. after at scripts.now frame (Ok (Ended.Value value), s)) }

    ensures grown { Grows heap.old heap.new }
    ensures closed { IsClosed heap.new }
    ensures sound { IsSoundStep heap.new result }
    ensures fits { StepFits scripts.now result }
{
    match frame {
        Frame::AssignValue { place, site } => assign_value(
            alloc, scripts, heap, place, site, value,
        ),
        Frame::UpdateValue {
            operator,
            place,
            old,
            site,
        } => update_value(alloc, scripts, heap, operator, place, old, site, value),
        Frame::Member { role, node, script } => member(
            alloc, scripts, heap, role, node, script, value,
        ),
        Frame::IndexObject { role, key, site } => index_object(scripts, role, key, site, value),
        Frame::IndexKey { role, object } => index_key(alloc, scripts, heap, role, object, value),
        Frame::Callee { node, site } => callee(alloc, scripts, heap, node, site, value),
        Frame::Argument {
            node,
            place,
            function,
            receiver,
            values,
            site,
        } => argument(
            alloc, scripts, heap, node, place, function, receiver, values, site, value,
        ),
        Frame::Element {
            node,
            place,
            array,
            site,
        } => element(alloc, scripts, heap, node, place, array, site, value),
        Frame::Property {
            node,
            place,
            object,
            site,
        } => property(alloc, scripts, heap, node, place, object, site, value),
        Frame::Declarator { node, place, site } => declarator(
            alloc, scripts, heap, node, place, site, value,
        ),
        Frame::If { good, bad, site } => if_chosen(scripts, heap, good, bad, site, value),
        Frame::Return => Step::Ended(Err(Abrupt::Return(value))),
        Frame::LoopTest { parts, last, site } => {
            loop_tested(scripts, heap, parts, last, site, value)
        }
        Frame::LoopUpdate { parts, last, site } => loop_updated(scripts, parts, last, site, value),
        Frame::Throw => Step::Ended(Err(Abrupt::Throw(value))),
        _ => Step::Ended(Ok(Ended::Value(value))),
    }
}

/// Goes on with a value; one for which the form doesn't wait is its end.
#[tactic(auto, unfolding(crate::specs::After::after), using(crate::proofs::Passing::passing))]
#[inline(always)]
fn resume_value(
    alloc: Global,
    scripts: &Scripts,
    heap: &mut Heap,
    frame: Frame,
    value: Value,
) -> Step
    requires closed { IsClosed heap.old }
    requires frame { IsSoundFrame heap.old frame }
    requires passes { TakesAnyEnd frame → ⊥ }
    requires value { IsSoundValue heap.old value }
    requires fits { FrameFits scripts.now frame }

    ensures step { Turns scripts.now result heap.old heap.new (λ at s. after at scripts.now frame (Ok (Ended.Value value), s)) }

    ensures grown { Grows heap.old heap.new }
    ensures closed { IsClosed heap.new }
    ensures sound { IsSoundStep heap.new result }
    ensures fits { StepFits scripts.now result }
{
    match frame {
        Frame::Pass => Step::Ended(Ok(Ended::Value(value))),
        Frame::Comma { right, site } => Step::value(Frame::Pass, right, site),
        Frame::Left {
            operator,
            right,
            site,
        } => left(scripts, operator, right, site, value),
        Frame::Right { operator, left } => right(alloc, scripts, heap, operator, left, value),
        Frame::Operand { operator } => operand(alloc, scripts, heap, operator, value),
        Frame::Void => Step::Ended(Ok(Ended::Value(Value::Undefined))),
        Frame::Condition { good, bad, site } => condition(scripts, heap, good, bad, site, value),
        Frame::Logical {
            operator,
            right,
            site,
        } => logical(scripts, heap, operator, right, site, value),
        frame => resume_further(alloc, scripts, heap, frame, value),
    }
}

// ---- other ends

/// Goes on with a place; one for which the form doesn't wait is its end.
#[tactic(auto, unfolding(crate::specs::After::after), using(crate::proofs::Passing::passing))]
#[inline(always)]
fn resume_place(
    alloc: Global,
    scripts: &Scripts,
    heap: &mut Heap,
    frame: Frame,
    place: Place,
) -> Step
    requires closed { IsClosed heap.old }
    requires frame { IsSoundFrame heap.old frame }
    requires passes { TakesAnyEnd frame → ⊥ }
    requires place { IsSoundPlace heap.old place }
    requires fits { FrameFits scripts.now frame }

    ensures step { Turns scripts.now result heap.old heap.new (λ at s. after at scripts.now frame (Ok (Ended.Place place), s)) }

    ensures grown { Grows heap.old heap.new }
    ensures closed { IsClosed heap.new }
    ensures sound { IsSoundStep heap.new result }
    ensures fits { StepFits scripts.now result }
{
    match frame {
        Frame::TypeOfPlace { site } => type_of(alloc, scripts, heap, site, place),
        Frame::AssignTarget { right, site } => assign_target(scripts, right, site, place),
        Frame::UpdateTarget {
            operator,
            right,
            site,
        } => update_target(alloc, scripts, heap, operator, right, site, place),
        Frame::StepTarget {
            operator,
            before,
            site,
        } => step_target(alloc, scripts, heap, operator, before, site, place),
        _ => Step::Ended(Ok(Ended::Place(place))),
    }
}

/// Goes on with a callee that is a member; for all other forms that is their end.
#[tactic(auto, unfolding(crate::specs::After::after), using(crate::proofs::Passing::passing))]
#[inline(always)]
fn resume_member(
    alloc: Global,
    scripts: &Scripts,
    heap: &mut Heap,
    frame: Frame,
    function: Value,
    receiver: Value,
) -> Step
    requires closed { IsClosed heap.old }
    requires frame { IsSoundFrame heap.old frame }
    requires passes { TakesAnyEnd frame → ⊥ }
    requires function { IsSoundValue heap.old function }
    requires receiver { IsSoundValue heap.old receiver }
    requires fits { FrameFits scripts.now frame }

    ensures step { Turns scripts.now result heap.old heap.new (λ at s. after at scripts.now frame (Ok (Ended.Member function receiver), s)) }

    ensures grown { Grows heap.old heap.new }
    ensures closed { IsClosed heap.new }
    ensures sound { IsSoundStep heap.new result }
    ensures fits { StepFits scripts.now result }
{
    match frame {
        Frame::Callee { node, site } => callee_member(
            alloc, scripts, heap, node, site, function, receiver,
        ),
        _ => Step::Ended(Ok(Ended::Member { function, receiver })),
    }
}

/// Goes on with the end of an expression; an abrupt one is the end of the form.
#[tactic(auto, using(crate::proofs::Passing::passing))]
#[inline(always)]
fn resume_form(
    alloc: Global,
    scripts: &Scripts,
    heap: &mut Heap,
    frame: Frame,
    ended: Result<Ended, Abrupt>,
) -> Step
    requires closed { IsClosed heap.old }
    requires frame { IsSoundFrame heap.old frame }
    requires passes { TakesAnyEnd frame → ⊥ }
    requires ended { IsSoundEnd heap.old ended }
    requires fits { FrameFits scripts.now frame }

    ensures step { Turns scripts.now result heap.old heap.new (λ at s. after at scripts.now frame (ended, s)) }

    ensures grown { Grows heap.old heap.new }
    ensures closed { IsClosed heap.new }
    ensures sound { IsSoundStep heap.new result }
    ensures fits { StepFits scripts.now result }
{
    match ended {
        Ok(Ended::Value(value)) => resume_value(alloc, scripts, heap, frame, value),
        Ok(Ended::Place(place)) => resume_place(alloc, scripts, heap, frame, place),
        Ok(Ended::Member { function, receiver }) => resume_member(
            alloc, scripts, heap, frame, function, receiver,
        ),
        Ok(Ended::Empty) => Step::Ended(Ok(Ended::Empty)),
        Err(abrupt) => Step::Ended(Err(abrupt)),
    }
}

// ---- all forms

/// The step of a form whose node inside has ended so (ECMA-262, Runtime Semantics: Evaluation).
///
/// The step ends the form, waits for the next node inside it, or calls a built-in function. An end that the form
/// doesn't wait for is its own end, and so is every abrupt one but for lists, statements that may be empty, loops,
/// `try` and calls. A stop is the end of every form.
/// Want of memory ends the form with `Abrupt::NoMemory`; the heap keeps what was made until then.
#[tactic(auto)]
pub fn resume(
    alloc: Global,
    scripts: &Scripts,
    heap: &mut Heap,
    frame: Frame,
    ended: Result<Ended, Abrupt>,
) -> Step
    requires closed { IsClosed heap.old }
    requires frame { IsSoundFrame heap.old frame }
    requires ended { IsSoundEnd heap.old ended }
    requires fits { FrameFits scripts.now frame }

    ensures step { Turns scripts.now result heap.old heap.new (λ at s. after at scripts.now frame (ended, s)) }

    ensures grown { Grows heap.old heap.new }
    ensures closed { IsClosed heap.new }
    ensures sound { IsSoundStep heap.new result }
    ensures fits { StepFits scripts.now result }
{
    match frame {
        Frame::List {
            node,
            place,
            last,
            site,
        } => list(scripts, node, place, last, site, ended),
        Frame::Filled => filled(scripts, ended),
        Frame::Body => body(scripts, ended),
        Frame::LoopBody { parts, last, site } => loop_body(
            alloc, scripts, heap, parts, last, site, ended,
        ),
        Frame::ForHead { parts, site } => loop_headed(alloc, scripts, heap, parts, site, ended),
        Frame::Try { node, site } => tried(alloc, scripts, heap, node, site, ended),
        Frame::Catch { node, site } => finish(scripts, node, site, ended),
        Frame::Finally { before } => finished(scripts, before, ended),
        frame => resume_form(alloc, scripts, heap, frame, ended),
    }
}
