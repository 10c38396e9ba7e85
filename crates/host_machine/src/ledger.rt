//! The host's events, with what they show of each isolate.
ghost use Rattle.std.specs.Prelude.{◌≡◌, ◌<◌, [], ◌∷◌, ◌++◌, IfOk, OnOk, OnErr};
ghost use Rattle.task_history.specs.Lists.{is_gone};
ghost use Rattle.host_meaning.specs.Machine.{have_answered};
ghost use Rattle.host_machine.specs.Ledger.{with_event, with_reply, IsWithin};
ghost use Rattle.host_machine.specs.Tally.{tally_of, isolate_in};

use crate::last::drop_last;
use crate::tally::{Tally, isolate_in};
use ivm_text::Items;
use std::alloc::{AllocError, Global};
use std::marker::Model;
use task_history::{Event, History, Out, Settlement};

/// The host's events beside a tally of each isolate, so that no question walks the events.
#[derive(Drop)]
pub struct Ledger {
    events: History,
    tallies: Items<Tally>,
}

impl Model for Ledger {
    ghost use Rattle.std.specs.Prelude.{length};
    ghost use Rattle.host_machine.specs.Ledger.{Ledger, AreTallies};

    ghost Value = { Ledger };

    ghost view = { λ l. record { isolates = length l.tallies; events = l.events } };

    ghost invariant = { λ l. AreTallies l.tallies l.events };
}

impl Ledger {
    /// No event, for so many isolates.
    pub fn new(alloc: Global, isolates: u32) -> Result<Ledger, AllocError>
        ensures { IfOk result (λ ledger. ledger ≡ record { isolates = isolates; events = [] }) }
    {
        let mut tallies = Items::new(alloc);
        for _isolate in 0..isolates {
            tallies.push(Tally::none())?;
        }
        Ok(Ledger {
            events: Items::new(alloc),
            tallies,
        })
    }

    fn tally(&self, isolate: u32) -> Tally
        requires { isolate < self.now.isolates }
        ensures { result ≡ tally_of isolate self.now.events }
    {
        match self.tallies.get(isolate) {
            Some(tally) => *tally,
            None => Tally::none(),
        }
    }

    /// The isolate was asked to stop or has told its end.
    pub fn is_gone(&self, isolate: u32) -> bool
        requires { isolate < self.now.isolates }
        ensures { result ≡ is_gone isolate self.now.events }
    {
        self.tally(isolate).is_gone()
    }

    /// Each isolate has answered all that was asked of it.
    pub fn have_answered(&self) -> bool
        ensures { result ≡ have_answered self.now.events self.now.isolates }
    {
        for isolate in 0..self.tallies.len() {
            if !self.tally(isolate).has_answered() {
                return false;
            }
        }
        true
    }

    /// Adds an event. Refused for want of memory, it leaves all as it was.
    pub fn add(&mut self, event: Event) -> Result<(), AllocError>
        requires { IsWithin self.old.isolates (isolate_in event) }
        ensures ok { OnOk result (self.new ≡ with_event self.old event) }
        ensures err { OnErr result (self.new ≡ self.old) }
    {
        let _few = self.events.len();
        match isolate_in(&event) {
            Some(isolate) => {
                let tally = self.tally(isolate).noting(&event);
                self.events.push(event)?;
                self.tallies.set(isolate, tally);
            }
            None => self.events.push(event)?,
        }
        Ok(())
    }

    /// Adds the receipt of an out and the settlement of a call by it, whose reply it is. Refused for want of
    /// memory, it leaves all as it was.
    pub fn add_settled(&mut self, isolate: u32, out: Out, call: u32) -> Result<(), AllocError>
        requires { isolate < self.old.isolates }
        ensures ok { OnOk result (self.new ≡ with_reply self.old isolate out call) }
        ensures err { OnErr result (self.new ≡ self.old) }
    {
        let _few = self.events.len();
        let tally = self.tally(isolate);
        let receipt = Event::Recv { isolate, out };
        let noted = tally.noting(&receipt);
        let place = tally.replies as u32;
        let how = Settlement::Entry { isolate, place };
        push_both(&mut self.events, receipt, Event::Settle { call, how })?;
        self.tallies.set(isolate, noted);
        Ok(())
    }

    /// The events, the first first.
    pub fn into_events(self) -> History
        ensures { result ≡ self.events }
    {
        let Ledger { events, .. } = self;
        events
    }
}

fn push_both(events: &mut History, first: Event, second: Event) -> Result<(), AllocError>
    ensures ok { OnOk result (events.new ≡ events.old ++ first ∷ [] ++ second ∷ []) }
    ensures err { OnErr result (events.new ≡ events.old) }
{
    events.push(first)?;
    if events.push(second).is_err() {
        drop_last(events);
        return Err(AllocError);
    }
    Ok(())
}
