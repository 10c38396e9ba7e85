//! The heap: items within a limit of cells.
ghost use Rattle.std.specs.Prelude.{◌≡◌, ◌+◌, ◌^◌, ◌<◌, ◌≤◌, ◌++◌, [], ◌∷◌, length, None, IfOk, IsOk, OnOk, OnErr, MatchOption, if◌then◌else◌, is_some, IsSome};
ghost use Rattle.charged_heap.specs.Price.{price_of, charge_of, property_price};
ghost use Rattle.ivm_text.specs.Keys.{value_at};
ghost use Rattle.charged_heap.specs.Store.{Store, IsAt, IsPlain, IsArray, IsScope, IsPromise, IsReference, item_at, properties, elements, place_count, with_more, with_all, with_item, with_property, with_elements, with_place, with_binding, with_function, with_reaction, with_state, released};
ghost use Rattle.charged_heap.specs.Room.{AsksFor, AsksOnly};
ghost use Rattle.charged_heap.specs.Growth.{Grows};
ghost use Rattle.charged_heap.specs.Closed.{IsClosed, IsSound, IsSoundValue, IsSoundState, IsSoundReaction, AreSound};
ghost use Rattle.charged_heap.specs.declared.price.TheConstants.{ELEMENT_CELLS, BINDING_CELLS, REACTION_CELLS};

use crate::price::{self, property_price};
use crate::{
    BINDING_CELLS, Binding, ELEMENT_CELLS, GREATEST_TOLD, HeapFault, Item, PromiseState,
    REACTION_CELLS, Reaction, Value,
};
use ivm_text::{CloneWhole, NoMemory, Overrun, Units};
use std::alloc::Global;
use std::marker::Model;

/// The items of an isolate by number, counted from 0 in the order in which they were made. What they
/// cost together is at most the limit.
#[derive(Drop)]
pub struct Heap {
    items: Vec<Item>,
    charged: u32,
    limit: u32,
    alloc: Global,
}

impl Model for Heap {
    ghost use Rattle.std.specs.Prelude.{◌≡◌, ◌≤◌};
    ghost use Rattle.charged_heap.specs.Store.{Store};
    ghost use Rattle.charged_heap.specs.Price.{charge_of};

    ghost Value = { Store };

    ghost view = { λ h. record { items = h.items.items; limit = h.limit } };

    ghost invariant = { λ h. (h.charged ≡ charge_of h.items.items) × (h.charged ≤ h.limit) };
}

impl Heap {
    /// A heap without items, which may have so many cells charged. It takes no memory.
    pub fn new(alloc: Global, limit: u32) -> Heap
        ensures items { result.items ≡ [] }
        ensures limit { result.limit ≡ limit }
    {
        Heap {
            items: Vec::new(alloc),
            charged: 0,
            limit,
            alloc,
        }
    }

    /// How many items there are.
    #[tactic(auto, using(crate::proofs::Charges::length_le_charge))]
    pub fn len(&self) -> u32
        ensures { result ≡ length self.now.items }
    {
        let _charged = self.charged;
        self.items.len() as u32
    }

    /// The cells that the items cost together.
    pub fn charged(&self) -> u32
        ensures charge { result ≡ charge_of self.now.items }
        ensures within { result ≤ self.now.limit }
    {
        self.charged
    }

    /// The most cells that may be charged.
    pub fn limit(&self) -> u32
        ensures { result ≡ self.now.limit }
    {
        self.limit
    }

    /// The item with a number.
    pub fn get(&self, n: u32) -> &Item
        requires { n < length self.now.items }
        ensures { result.now ≡ item_at self.now n }
    {
        &self.items[n as usize]
    }

    /// The value of an object's property; none where it has no such key.
    pub fn property(&self, n: u32, key: &Units) -> Option<Value>
        requires { IsAt IsPlain self.now n }
        ensures { result ≡ value_at (properties (item_at self.now n)) key.now }
    {
        self.items[n as usize].property(key)
    }

    /// Whether so many more cells stay within the limit. It changes nothing and takes no memory.
    ///
    /// `Over` comes exactly where they don't, with the charge, the cells asked and the limit.
    pub fn room(&self, asked: u64) -> Result<(), HeapFault>
        ensures over { AsksOnly self.now asked result }
        ensures limit { self.now.limit < 2 ^ 32 }
    {
        if asked > (self.limit - self.charged) as u64 {
            return Err(HeapFault::Over(Overrun {
                charged: self.charged,
                asked: asked.min(GREATEST_TOLD) as u32,
                limit: self.limit,
            }));
        }
        Ok(())
    }

    /// Adds an item behind all others, and answers its number.
    pub fn add(&mut self, item: Item) -> Result<u32, HeapFault>
        ensures ok { OnOk result (self.new ≡ with_more self.old item) }
        ensures number { IfOk result (λ n. n ≡ length self.old.items) }
        ensures err { OnErr result (self.new ≡ self.old) }

        ensures over { AsksFor self.old (price_of item) result }

        ensures grown { Grows self.old self.new }
        ensures closed { IsClosed self.old → IsSound self.old (length self.old.items) item → IsClosed self.new }
    {
        let asked = price::price_of(&item);
        self.room(asked)?;
        let number = self.len();
        self.items.push(item)?;
        self.charged += asked as u32;
        Ok(number)
    }

    /// Adds all of the items in one charge, in their order behind all others.
    pub fn add_all(&mut self, mut items: Vec<Item>) -> Result<(), HeapFault>
        ensures ok { OnOk result (self.new ≡ with_all self.old items.items) }
        ensures err { OnErr result (self.new ≡ self.old) }

        ensures over { AsksFor self.old (charge_of items.items) result }

        ensures grown { Grows self.old self.new }
        ensures closed { IsClosed self.old → AreSound self.old items.items → IsClosed self.new }
    {
        let mut asked: u64 = 0;
        for item in &items {
            asked = asked.saturating_add(price::price_of(item));
        }
        self.room(asked)?;
        self.items.append(&mut items)?;
        self.charged += asked as u32;
        Ok(())
    }

    /// Gives a property of an object its value. A new key goes last and is charged. A present key
    /// keeps its place and asks nothing, cells or memory.
    pub fn set(&mut self, n: u32, key: &Units, value: Value) -> Result<(), HeapFault>
        requires { IsAt IsPlain self.old n }
        ensures ok { OnOk result (self.new ≡ with_item self.old n (with_property (item_at self.old n) key.now value)) }
        ensures err { OnErr result (self.new ≡ self.old) }

        ensures over { AsksFor self.old (if is_some (value_at (properties (item_at self.old n)) key.now) then 0 else property_price key.now) result }
        ensures present { IsSome (value_at (properties (item_at self.old n)) key.now) → IsOk result }

        ensures grown { Grows self.old self.new }
        ensures closed { IsClosed self.old → IsSoundValue self.old value → IsClosed self.new }
    {
        let asked = if self.property(n, key).is_some() {
            0
        } else {
            property_price(key)
        };
        self.room(asked)?;
        let alloc = self.alloc;
        self.items[n as usize].set_property(alloc, key, value)?;
        self.charged += asked as u32;
        Ok(())
    }

    /// Adds an element at an array's end.
    pub fn push(&mut self, n: u32, value: Value) -> Result<(), HeapFault>
        requires { IsAt IsArray self.old n }
        ensures ok { OnOk result (self.new ≡ with_item self.old n (with_elements (item_at self.old n) (elements (item_at self.old n) ++ value ∷ []))) }
        ensures err { OnErr result (self.new ≡ self.old) }

        ensures over { AsksFor self.old ELEMENT_CELLS result }

        ensures grown { Grows self.old self.new }
        ensures closed { IsClosed self.old → IsSoundValue self.old value → IsClosed self.new }
    {
        self.room(ELEMENT_CELLS)?;
        self.items[n as usize].push_element(value)?;
        self.charged += ELEMENT_CELLS as u32;
        Ok(())
    }

    /// Takes an array's last element off, and gives its cell back; none where the array is empty, and then the heap is
    /// as it was.
    #[tactic(auto, using(crate::proofs::Replaced::replaced_by_itself))]
    pub fn pop(&mut self, n: u32) -> Option<Value>
        requires { IsAt IsArray self.old n }
        ensures last { MatchOption result ((elements (item_at self.old n) ≡ []) × (self.new ≡ self.old)) (λ last. elements (item_at self.old n) ≡ elements (item_at self.new n) ++ last ∷ []) }
        ensures rest { self.new ≡ with_item self.old n (with_elements (item_at self.old n) (elements (item_at self.new n))) }

        ensures grown { Grows self.old self.new }
        ensures closed { IsClosed self.old → IsClosed self.new }
    {
        let last = self.items[n as usize].pop_element();
        if last.is_some() {
            self.charged -= ELEMENT_CELLS as u32;
        }
        last
    }

    /// Replaces an array's element or the value of a scope's binding, which has one from then on.
    pub fn put(&mut self, n: u32, place: u32, value: Value)
        requires there { n < length self.old.items }
        requires within { place < place_count (item_at self.old n) }
        ensures value { self.new ≡ with_item self.old n (with_place (item_at self.old n) place value) }

        ensures grown { Grows self.old self.new }
        ensures closed { IsClosed self.old → IsSoundValue self.old value → IsClosed self.new }
    {
        let alloc = self.alloc;
        self.items[n as usize].set_place(alloc, place, value);
    }

    /// Adds a binding to a scope. It is in its dead zone until `put` gives it a value.
    pub fn declare(&mut self, n: u32, name: &Units, constant: bool) -> Result<(), HeapFault>
        requires { IsAt IsScope self.old n }
        ensures ok { OnOk result (self.new ≡ with_item self.old n (with_binding (item_at self.old n) (record { name = name.now; constant = constant; value = None }))) }
        ensures err { OnErr result (self.new ≡ self.old) }

        ensures over { AsksFor self.old BINDING_CELLS result }

        ensures grown { Grows self.old self.new }
        ensures closed { IsClosed self.old → IsClosed self.new }
    {
        self.room(BINDING_CELLS)?;
        let alloc = self.alloc;
        let binding = Binding {
            name: name.clone_whole(alloc)?,
            constant,
            value: None,
        };
        self.items[n as usize].push_binding(alloc, binding)?;
        self.charged += BINDING_CELLS as u32;
        Ok(())
    }

    /// Notes a name as that of a function of a scope, where it isn't noted yet. It costs no cells.
    pub fn declare_function(&mut self, n: u32, name: &Units) -> Result<(), NoMemory>
        requires { IsAt IsScope self.old n }
        ensures ok { OnOk result (self.new ≡ with_item self.old n (with_function (item_at self.old n) name.now)) }
        ensures err { OnErr result (self.new ≡ self.old) }

        ensures grown { Grows self.old self.new }
        ensures closed { IsClosed self.old → IsClosed self.new }
    {
        let alloc = self.alloc;
        self.items[n as usize].note_function(alloc, name)?;
        Ok(())
    }

    /// Adds a reaction to a promise, behind those that it has.
    pub fn react(&mut self, n: u32, reaction: Reaction) -> Result<(), HeapFault>
        requires { IsAt IsPromise self.old n }
        ensures ok { OnOk result (self.new ≡ with_item self.old n (with_reaction (item_at self.old n) reaction)) }
        ensures err { OnErr result (self.new ≡ self.old) }

        ensures over { AsksFor self.old REACTION_CELLS result }

        ensures grown { Grows self.old self.new }
        ensures closed { IsClosed self.old → IsSoundReaction self.old reaction → IsClosed self.new }
    {
        self.room(REACTION_CELLS)?;
        self.items[n as usize].push_reaction(reaction)?;
        self.charged += REACTION_CELLS as u32;
        Ok(())
    }

    /// Changes the state of a promise, and nothing else of it.
    pub fn resolve(&mut self, n: u32, state: PromiseState)
        requires { IsAt IsPromise self.old n }
        ensures state { self.new ≡ with_item self.old n (with_state (item_at self.old n) state) }

        ensures grown { Grows self.old self.new }
        ensures closed { IsClosed self.old → IsSoundState self.old state → IsClosed self.new }
    {
        self.items[n as usize].set_state(state);
    }

    /// Makes a reference a released one.
    pub fn release(&mut self, n: u32)
        requires { IsAt IsReference self.old n }
        ensures released { self.new ≡ with_item self.old n (released (item_at self.old n)) }

        ensures grown { Grows self.old self.new }
        ensures closed { IsClosed self.old → IsClosed self.new }
    {
        self.items[n as usize].release();
    }
}
