//! Ends of forms, from what calls over the heap give.
ghost use Rattle.std.specs.Prelude.{◌≡◌};
ghost use Rattle.charged_heap.specs.Store.{Store};
ghost use Rattle.charged_heap.specs.Ends.{IsSoundResult};
ghost use Rattle.script_meaning.specs.Outcome.{abrupt_of};
ghost use Rattle.script_steps.specs.Ends.{end_of};
ghost use Rattle.script_steps.specs.Sound.{IsSoundStep};

use crate::Step;
use charged_heap::{Fail, Value};
use script_meaning::{Abrupt, Ended, StopCause};

/// A failure over the heap, as the end of a node.
#[inline(always)]
pub fn abrupt_of(fail: Fail) -> Abrupt
    ensures { result ≡ abrupt_of fail }
{
    match fail {
        Fail::Throw(value) => Abrupt::Throw(value),
        Fail::Over(overrun) => Abrupt::Stop(StopCause::Memory(overrun)),
        Fail::NoMemory => Abrupt::NoMemory,
    }
}

/// The end of a form that gives what a call over the heap gave.
#[inline(always)]
pub fn of_heap(given: Result<Value, Fail>) -> Step
    ensures step { result ≡ Step.Ended (end_of given) }
    ensures sound { (s : Store) → IsSoundResult s given → IsSoundStep s result }
{
    match given {
        Ok(value) => Step::Ended(Ok(Ended::Value(value))),
        Err(fail) => Step::Ended(Err(abrupt_of(fail))),
    }
}
