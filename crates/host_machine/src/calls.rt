//! The calls of a run, by number: which are settled, and what their settlements hold.
ghost use Rattle.std.specs.Prelude.{◌≡◌, ◌<◌, [], ◌∷◌, ◌++◌, length, None, Some, OnOk, OnErr, slice_set, slice_index_or, true};
ghost use Rattle.std.specs.List.{list_all};
ghost use Rattle.host_meaning.specs.Stand.{is_there};
ghost use Rattle.host_machine.specs.Calls.{is_open_in};
ghost use Rattle.host_machine.specs.Last.{DropsLast};

use host_meaning::Held;
use ivm_text::Items;
use std::alloc::{AllocError, Global};
use std::marker::Model;

/// For each number that was drawn what its settlement holds, once it is settled.
#[derive(Drop)]
pub struct Calls {
    held: Items<Option<Held>>,
    /// How many are not settled.
    unsettled: u32,
}

impl Model for Calls {
    ghost use Rattle.std.specs.Prelude.{◌≡◌, List, Option};
    ghost use Rattle.host_meaning.specs.declared.moves.Held.{Held};
    ghost use Rattle.host_machine.specs.Calls.{open_count};

    ghost Value = { List (Option Held) };

    ghost view = { λ c. c.held };

    ghost invariant = { λ c. c.unsettled ≡ open_count c.held };
}

impl Calls {
    /// No call. It takes no memory.
    pub fn new(alloc: Global) -> Calls
        ensures { result ≡ [] }
    {
        Calls {
            held: Items::new(alloc),
            unsettled: 0,
        }
    }

    /// How many numbers were drawn.
    pub fn len(&self) -> u32
        ensures { result ≡ length self.now }
    {
        self.held.len()
    }

    /// What the settlement of a number holds; none where it isn't settled or wasn't drawn.
    #[tactic(auto, using(crate::proofs::CallsLemmas::absent))]
    pub fn held(&self, number: u32) -> Option<Held>
        ensures { result ≡ slice_index_or self.now number None }
    {
        match self.held.get(number) {
            Some(held) => *held,
            None => None,
        }
    }

    /// A number was drawn and isn't settled.
    pub fn is_open(&self, number: u32) -> bool
        ensures { result ≡ is_open_in self.now number }
    {
        match self.held.get(number) {
            Some(held) => held.is_none(),
            None => false,
        }
    }

    /// Every number that was drawn is settled.
    pub fn are_settled(&self) -> bool
        ensures { result ≡ list_all is_there self.now }
    {
        self.unsettled == 0
    }

    /// Draws the next number. Refused for want of memory, it leaves all as it was.
    pub fn draw(&mut self, settled: Option<Held>) -> Result<(), AllocError>
        ensures ok { OnOk result (self.new ≡ self.old ++ settled ∷ []) }
        ensures err { OnErr result (self.new ≡ self.old) }
    {
        self.held.push(settled)?;
        let _drawn = self.held.len();
        if settled.is_none() {
            self.unsettled += 1;
        }
        Ok(())
    }

    /// Takes the last number back.
    pub fn take_back(&mut self)
        ensures { DropsLast self.old self.new }
    {
        if let Some(None) = self.held.pop() {
            self.unsettled -= 1;
        }
    }

    /// Settles an open number.
    #[tactic(auto, using(crate::proofs::CallsLemmas::one_fewer, crate::proofs::CallsLemmas::open_within))]
    pub fn settle(&mut self, number: u32, held: Held)
        requires { is_open_in self.old number ≡ true }
        ensures { self.new ≡ slice_set self.old number (Some held) }
    {
        self.held.set(number, Some(held));
        self.unsettled -= 1;
    }
}
