//! Lists of statements, and statements that may be empty, with whatever ends a statement inside them.
ghost use Rattle.std.specs.Prelude.{◌≡◌, suc, Ok, Option, IfSome};
ghost use Rattle.charged_heap.specs.Closed.{IsSoundValue};
ghost use Rattle.charged_heap.specs.Store.{Store};
ghost use Rattle.js_trees.specs.Tree.{kids_from};
ghost use Rattle.script_meaning.specs.Statements.{list_rule, value_in};
ghost use Rattle.script_meaning.specs.Places.{form_at};
ghost use Rattle.script_steps.specs.After.{after, Waits};
ghost use Rattle.script_steps.specs.Fits.{IsForm, IsList, StepFits};
ghost use Rattle.script_steps.specs.Sound.{IsSoundEnd, IsSoundEnded, IsSoundSite, IsSoundStep};

use crate::forms::kid_count_at;
use crate::statements::{ended_with, latest, list_from, or_undefined};
use crate::{Frame, Step};
use charged_heap::Value;
use js_syntax::Scripts;
use script_meaning::{Abrupt, Ended, Site};

/// The value of a statement, where it has one.
pub(crate) fn value_in(end: Ended) -> Option<Value>
    ensures value { result ≡ value_in end }
    ensures sound { (s : Store) → IsSoundEnded s end → IfSome result (IsSoundValue s) }
{
    match end {
        Ended::Value(value) => Some(value),
        _ => None,
    }
}

/// The statements of a list behind a place.
#[tactic(auto, unfolding(script_meaning::specs::Statements::list_rule), using(js_trees::proofs::PartLemmas::parts_from))]
#[inline(always)]
fn list_behind(scripts: &Scripts, node: u32, place: u32, last: Option<Value>, site: Site) -> Step
    requires form { IsForm IsList scripts.now site.script node }
    ensures step { Waits scripts.now result (λ at s. list_rule at (kids_from (suc place) ((form_at scripts.now site.script node).kids)) site last s) }
    ensures sound { (s : Store) → IsSoundSite s site → IfSome last (IsSoundValue s) → IsSoundStep s result }
    ensures fits { StepFits scripts.now result }
{
    if place < kid_count_at(scripts, site.script, node) {
        return list_from(scripts, node, place + 1, last, site);
    }
    Step::Ended(Ok(ended_with(last)))
}

/// Goes on with a list behind a statement that has ended. A `break` or `continue` takes the last value along.
#[tactic(auto, unfolding(crate::specs::After::after))]
#[inline(always)]
pub(crate) fn list(
    scripts: &Scripts,
    node: u32,
    place: u32,
    last: Option<Value>,
    site: Site,
    end: Result<Ended, Abrupt>,
) -> Step
    requires form { IsForm IsList scripts.now site.script node }
    ensures step { Waits scripts.now result (λ at s. after at scripts.now (Frame.List node place last site) (end, s)) }
    ensures sound { (s : Store) → IsSoundSite s site → IfSome last (IsSoundValue s) → IsSoundEnd s end → IsSoundStep s result }
    ensures fits { StepFits scripts.now result }
{
    match end {
        Ok(end) => list_behind(scripts, node, place, latest(value_in(end), last), site),
        Err(Abrupt::Break(value)) => Step::Ended(Err(Abrupt::Break(latest(value, last)))),
        Err(Abrupt::Continue(value)) => Step::Ended(Err(Abrupt::Continue(latest(value, last)))),
        Err(abrupt) => Step::Ended(Err(abrupt)),
    }
}

/// Ends an `if` or a `try` with the end of what it chose, whose value is undefined where it has none.
#[tactic(auto, unfolding(crate::specs::After::after))]
#[inline(always)]
pub(crate) fn filled(scripts: &Scripts, end: Result<Ended, Abrupt>) -> Step
    ensures step { Waits scripts.now result (λ at s. after at scripts.now Frame.Filled (end, s)) }
    ensures sound { (s : Store) → IsSoundEnd s end → IsSoundStep s result }
    ensures fits { StepFits scripts.now result }
{
    let _ = scripts;
    match end {
        Ok(end) => Step::Ended(Ok(ended_with(or_undefined(value_in(end))))),
        Err(Abrupt::Break(value)) => Step::Ended(Err(Abrupt::Break(or_undefined(value)))),
        Err(Abrupt::Continue(value)) => Step::Ended(Err(Abrupt::Continue(or_undefined(value)))),
        Err(abrupt) => Step::Ended(Err(abrupt)),
    }
}
