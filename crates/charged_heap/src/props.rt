//! The properties of an object.
ghost use Rattle.std.specs.Prelude.{◌≡◌, ◌<◌, [], ◌++◌, ◌∷◌, length, slice_get, Some, IfOk, OnOk, OnErr, IsOk, IsSome, is_some, false};
ghost use Rattle.std.specs.Map.{keys_of};
ghost use Rattle.std.specs.List.{list_any};
ghost use Rattle.ivm_text.specs.Keys.{is_key, value_at, with_value, HasDistinctKeys};

use crate::Value;
use indexmap::IndexMap;
use ivm_text::{CloneWhole, NoMemory, Units};
use std::alloc::{AllocError, Global};
use std::marker::Model;

/// Keys, each with a value, in order of creation. Contracts see the list of the pairs, in which no
/// key stands twice.
#[derive(Drop)]
pub struct Props {
    // Boxed, since most items are no objects, and each item takes the room of the largest kind.
    map: Box<IndexMap<Units, Value>>,
}

impl Model for Props {
    ghost use Rattle.std.specs.Prelude.{List, ℕ};
    ghost use Rattle.charged_heap.specs.declared.values.Value as script;
    ghost use Rattle.ivm_text.specs.Keys.{HasDistinctKeys};

    ghost Value = { List (List ℕ × script.Value) };

    ghost view = { λ p. p.map.value.entries };

    ghost invariant = { λ p. HasDistinctKeys p.map.value.entries };
}

impl Props {
    /// No properties. Only want of memory refuses it.
    pub fn new(alloc: Global) -> Result<Props, NoMemory>
        ensures { IfOk result (λ props. props ≡ []) }
    {
        let map = Box::new(alloc, IndexMap::new(alloc))?;
        Ok(Props { map })
    }

    /// How many properties there are.
    pub fn len(&self) -> usize
        ensures len { result ≡ length self.now }
        ensures distinct { HasDistinctKeys self.now }
    {
        self.map.len()
    }

    /// The value at a key; none where the key isn't there.
    pub fn get(&self, key: &Units) -> Option<Value>
        ensures { result ≡ value_at self.now key.now }
    {
        self.map.get(key).copied()
    }

    /// Whether the key is there.
    pub fn has(&self, key: &Units) -> bool
        ensures { result ≡ is_some (value_at self.now key.now) }
    {
        self.map.contains_key(key)
    }

    /// The key and the value at a place, counted from 0 in order of creation.
    pub fn entry(&self, place: usize) -> (&Units, Value)
        requires { place < length self.now }
        ensures { slice_get self.now place ≡ Some (result.0.now, result.1) }
    {
        let (key, value) = self.map.get_index(place).unwrap();
        (key, *value)
    }

    /// The keys and values, as a map.
    pub(crate) fn entries(&self) -> &IndexMap<Units, Value>
        ensures { result.now.entries ≡ self.now }
    {
        &self.map
    }

    /// Adds a property whose key isn't there yet, behind all others.
    #[tactic(auto, using(ivm_text::proofs::KeyLemmas::with_value_new))]
    pub fn add(&mut self, key: Units, value: Value) -> Result<(), AllocError>
        requires { list_any (is_key key) (keys_of self.old) ≡ false }
        ensures ok { OnOk result (self.new ≡ self.old ++ (key, value) ∷ []) }
        ensures err { OnErr result (self.new ≡ self.old) }
    {
        self.map.insert(key, value)?;
        Ok(())
    }

    /// Gives a key its value. A new key goes last. A present key keeps its place, and then no
    /// memory is taken.
    pub fn put(&mut self, alloc: Global, key: &Units, value: Value) -> Result<(), AllocError>
        ensures ok { OnOk result (self.new ≡ with_value self.old key.now value) }
        ensures err { OnErr result (self.new ≡ self.old) }
        ensures present { IsSome (value_at self.old key.now) → IsOk result }
    {
        if let Some(place) = self.map.get_index_of(key) {
            *self.map.get_index_mut(place).unwrap() = value;
            return Ok(());
        }
        let key = key.clone_whole(alloc)?;
        self.map.insert(key, value)?;
        Ok(())
    }
}
