//! The bindings of a scope, found by name in a time that doesn't grow with their number.
ghost use Rattle.std.specs.Prelude.{◌≡◌, ◌<◌, [], ◌++◌, ◌∷◌, length, slice_get, IfOk, IfSome, OnOk, OnErr, OnSome};
ghost use Rattle.std.specs.Option.{option_copied};
ghost use Rattle.charged_heap.specs.Bindings.{place_of};
ghost use Rattle.charged_heap.specs.Index.{with_first, IsIndex};
ghost use Rattle.charged_heap.specs.Store.{with_bound};

use crate::{Binding, Value};
use indexmap::IndexMap;
use ivm_text::{CloneWhole, Items, Units};
use std::alloc::{AllocError, Global};
use std::marker::Model;

/// So many bindings are searched one after another. Of more than these there is an index.
const SEARCHED: u32 = 8;

/// The bindings of a scope in order of declaration. Contracts see the list of them.
#[derive(Drop)]
pub struct Bindings {
    listed: Items<Binding>,
    // The place of the first binding of each name. Boxed, since most scopes have none.
    index: Option<Box<IndexMap<Units, u32>>>,
}

impl Model for Bindings {
    ghost use Rattle.std.specs.Prelude.{List, IfSome};
    ghost use Rattle.charged_heap.specs.declared.values.Binding as declared;
    ghost use Rattle.charged_heap.specs.Index.{IsIndex};

    ghost Value = { List declared.Binding };

    ghost view = { λ b. b.listed };

    ghost invariant = { λ b. IfSome b.index (λ places. IsIndex places.value.entries b.listed) };
}

impl Bindings {
    /// No bindings. It takes no memory.
    pub fn new(alloc: Global) -> Bindings
        ensures { result ≡ [] }
    {
        Bindings {
            listed: Items::new(alloc),
            index: None,
        }
    }

    /// How many bindings there are.
    pub fn len(&self) -> u32
        ensures { result ≡ length self.now }
    {
        self.listed.len()
    }

    /// The bindings, in order.
    pub fn as_slice(&self) -> &[Binding]
        ensures { result.now ≡ self.now }
    {
        self.listed.as_slice()
    }

    /// The binding at a place, counted from 0; none from the length on.
    pub fn get(&self, place: u32) -> Option<&Binding>
        ensures value { option_copied result ≡ slice_get self.now place }
        ensures within { OnSome result (place < length self.now) }
    {
        self.listed.get(place)
    }

    /// The place of the first binding with a name. It takes no memory.
    pub fn place_of(&self, name: &Units) -> Option<u32>
        ensures place { result ≡ place_of self.now name.now }
        ensures within { IfSome result (λ place. place < length self.now) }
    {
        match &self.index {
            Some(places) => places.get(name).copied(),
            None => searched(&self.listed, name),
        }
    }

    /// Adds a binding behind the others. It is refused for want of memory, and where there would be
    /// 2^32 bindings.
    pub fn push(&mut self, alloc: Global, binding: Binding) -> Result<(), AllocError>
        ensures ok { OnOk result (self.new ≡ self.old ++ binding ∷ []) }
        ensures err { OnErr result (self.new ≡ self.old) }
    {
        if self.index.is_none() && self.listed.len() >= SEARCHED {
            self.index = Some(index_of(alloc, &self.listed)?);
        }
        match &mut self.index {
            Some(places) => push_indexed(alloc, places, &mut self.listed, binding),
            None => self.listed.push(binding),
        }
    }

    /// Gives the binding at the place a value. It takes no memory.
    pub fn bind(&mut self, alloc: Global, place: u32, value: Value)
        requires { place < length self.old }
        ensures value { self.new ≡ with_bound self.old place value }
        ensures len { length self.new ≡ length self.old }
    {
        bind(&mut self.listed, alloc, place, value);
    }
}

/// The place of the first binding with a name, in a slice.
fn position_of(bindings: &[Binding], name: &Units) -> Option<usize>
    ensures place { result ≡ place_of bindings.now name.now }
    ensures within { IfSome result (λ place. place < length bindings.now) }
{
    bindings.iter().position(|binding| binding.name == *name)
}

/// The place of the first binding with a name, found by a search.
fn searched(listed: &Items<Binding>, name: &Units) -> Option<u32>
    ensures place { result ≡ place_of listed.now name.now }
    ensures within { IfSome result (λ place. place < length listed.now) }
{
    match position_of(listed.as_slice(), name) {
        Some(place) => Some(place as u32),
        None => None,
    }
}

/// The index of a list of bindings.
fn index_of(alloc: Global, listed: &Items<Binding>) -> Result<Box<IndexMap<Units, u32>>, AllocError>
    ensures { IfOk result (λ places. IsIndex places.value.entries listed.now) }
{
    let mut places = Box::new(alloc, IndexMap::new(alloc))?;
    for (place, binding) in listed.as_slice().iter().enumerate() {
        note_place(alloc, &mut places, &binding.name, place as u32)?;
    }
    Ok(places)
}

/// Notes the place of a name, unless it has one.
fn note_place(
    alloc: Global,
    places: &mut IndexMap<Units, u32>,
    name: &Units,
    place: u32,
) -> Result<(), AllocError>
    ensures { OnOk result (places.new.entries ≡ with_first places.old.entries name.now place) }
{
    if !places.contains_key(name) {
        places.insert(name.clone_whole(alloc)?, place)?;
    }
    Ok(())
}

/// Adds a binding behind the others, and notes it in their index where it is the first of its name.
fn push_indexed(
    alloc: Global,
    places: &mut IndexMap<Units, u32>,
    listed: &mut Items<Binding>,
    binding: Binding,
) -> Result<(), AllocError>
    requires { IsIndex places.old.entries listed.old }
    ensures ok { OnOk result (listed.new ≡ listed.old ++ binding ∷ []) }
    ensures err { OnErr result (listed.new ≡ listed.old) }
    ensures index { IsIndex places.new.entries listed.new }
{
    if places.contains_key(&binding.name) {
        return listed.push(binding);
    }
    let name = binding.name.clone_whole(alloc)?;
    // The room comes first: once the list has grown, nothing is refused.
    places.reserve(1)?;
    let place = listed.len();
    listed.push(binding)?;
    places.insert(name, place).unwrap();
    Ok(())
}

/// Gives the binding at the place a value.
fn bind(listed: &mut Items<Binding>, alloc: Global, place: u32, value: Value)
    requires { place < length listed.old }
    ensures value { listed.new ≡ with_bound listed.old place value }
    ensures len { length listed.new ≡ length listed.old }
{
    let vacant = Binding {
        name: Units::new(alloc),
        constant: false,
        value: None,
    };
    let Binding { name, constant, .. } = listed.replace(place, vacant);
    let bound = Binding {
        name,
        constant,
        value: Some(value),
    };
    listed.set(place, bound);
}
