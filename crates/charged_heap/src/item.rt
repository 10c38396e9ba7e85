//! The items of a heap, and how one of them changes.
ghost use Rattle.std.specs.Prelude.{◌≡◌, ◌+◌, ◌<◌, ◌++◌, ◌∷◌, [], length, OnOk, OnErr, MatchOption, if◌then◌else◌, is_some, IsSome, IsOk};
ghost use Rattle.charged_heap.specs.Price.{price_of, property_price};
ghost use Rattle.ivm_text.specs.Keys.{value_at};
ghost use Rattle.charged_heap.specs.Store.{kind_of, IsPlain, IsArray, IsScope, IsPromise, IsReference, properties, elements, place_count, with_property, with_elements, with_place, with_binding, with_function, with_reaction, with_state, released};
ghost use Rattle.charged_heap.specs.declared.price.TheConstants.{ELEMENT_CELLS, BINDING_CELLS, REACTION_CELLS};

use crate::{Binding, Bindings, Names, PromiseState, Props, Reaction, Reactions, Value, Values};
use ivm_text::{Copy, ErrorKind, Handle, Units};
use std::alloc::{AllocError, Global};

/// What an isolate has made and keeps until it ends. Items name one another by number.
#[derive(Drop)]
pub enum Item {
    /// A string.
    Text(Units),
    /// A plain object.
    Plain(Props),
    Array(Values),
    /// An error, and the number of the string that is its message.
    Error(ErrorKind, u32),
    /// A scope, its parent by number, and the names that it notes as functions'.
    Scope {
        parent: Option<u32>,
        bindings: Bindings,
        functions: Names,
    },
    /// A function of a script: its node there, the scope and the global object of the place where it
    /// was made, and the `this` that an arrow function takes from there.
    Closure {
        script: u32,
        node: u32,
        scope: u32,
        global: u32,
        receiver: Value,
    },
    Promise {
        state: PromiseState,
        reactions: Reactions,
    },
    /// A function that fulfils (`good`) or rejects a promise.
    Settler {
        promise: u32,
        good: bool,
    },
    /// A value of some isolate, by its handle.
    Reference {
        to: Handle,
        released: bool,
    },
    /// A handle that becomes the value itself where it arrives in its own isolate.
    Deref(Handle),
    /// A copy that is held outside every isolate.
    External(Copy),
    /// A copy that becomes a value where it arrives.
    Into(Copy),
    /// A callback of the host, by its number.
    Callback(u32),
    /// A row, by which other isolates name a value of this one.
    Row(Value),
    /// A compiled script, by its number.
    Script(u32),
}

/// Which kind of item it is. No call of a heap changes an item's kind.
#[derive(Debug, Clone, Copy, PartialEq, Eq)]
pub enum ItemKind {
    Text,
    Plain,
    Array,
    Error,
    Scope,
    Closure,
    Promise,
    Settler,
    Reference,
    Deref,
    External,
    Into,
    Callback,
    Row,
    Script,
}

impl Item {
    /// The kind of the item.
    pub fn kind(&self) -> ItemKind
        ensures { result ≡ kind_of self.now }
    {
        match self {
            Item::Text(_) => ItemKind::Text,
            Item::Plain(_) => ItemKind::Plain,
            Item::Array(_) => ItemKind::Array,
            Item::Error(_, _) => ItemKind::Error,
            Item::Scope { .. } => ItemKind::Scope,
            Item::Closure { .. } => ItemKind::Closure,
            Item::Promise { .. } => ItemKind::Promise,
            Item::Settler { .. } => ItemKind::Settler,
            Item::Reference { .. } => ItemKind::Reference,
            Item::Deref(_) => ItemKind::Deref,
            Item::External(_) => ItemKind::External,
            Item::Into(_) => ItemKind::Into,
            Item::Callback(_) => ItemKind::Callback,
            Item::Row(_) => ItemKind::Row,
            Item::Script(_) => ItemKind::Script,
        }
    }

    pub(crate) fn property(&self, key: &Units) -> Option<Value>
        requires { IsPlain (kind_of self.now) }
        ensures { result ≡ value_at (properties self.now) key.now }
    {
        match self {
            Item::Plain(props) => props.get(key),
            _ => unreachable!(),
        }
    }

    pub(crate) fn set_property(
        &mut self,
        alloc: Global,
        key: &Units,
        value: Value,
    ) -> Result<(), AllocError>
        requires { IsPlain (kind_of self.old) }
        ensures ok { OnOk result (self.new ≡ with_property self.old key.now value) }
        ensures err { OnErr result (self.new ≡ self.old) }
        ensures present { IsSome (value_at (properties self.old) key.now) → IsOk result }
        ensures price { OnOk result (price_of self.new ≡ price_of self.old + (if is_some (value_at (properties self.old) key.now) then 0 else property_price key.now)) }
    {
        match self {
            Item::Plain(props) => props.put(alloc, key, value),
            _ => unreachable!(),
        }
    }

    pub(crate) fn push_element(&mut self, value: Value) -> Result<(), AllocError>
        requires { IsArray (kind_of self.old) }
        ensures ok { OnOk result (self.new ≡ with_elements self.old (elements self.old ++ value ∷ [])) }
        ensures err { OnErr result (self.new ≡ self.old) }
        ensures price { OnOk result (price_of self.new ≡ price_of self.old + ELEMENT_CELLS) }
    {
        match self {
            Item::Array(values) => values.push(value),
            _ => unreachable!(),
        }
    }

    pub(crate) fn pop_element(&mut self) -> Option<Value>
        requires { IsArray (kind_of self.old) }
        ensures last { MatchOption result (elements self.old ≡ []) (λ last. elements self.old ≡ elements self.new ++ last ∷ []) }
        ensures rest { self.new ≡ with_elements self.old (elements self.new) }
        ensures price { MatchOption result (self.new ≡ self.old) (λ _. price_of self.new + ELEMENT_CELLS ≡ price_of self.old) }
    {
        match self {
            Item::Array(values) => values.pop(),
            _ => unreachable!(),
        }
    }

    pub(crate) fn set_place(&mut self, alloc: Global, place: u32, value: Value)
        requires { place < place_count self.old }
        ensures value { self.new ≡ with_place self.old place value }
        ensures price { price_of self.new ≡ price_of self.old }
    {
        match self {
            Item::Array(values) => values.set(place, value),
            Item::Scope { bindings, .. } => bindings.bind(alloc, place, value),
            _ => unreachable!(),
        }
    }

    pub(crate) fn push_binding(&mut self, alloc: Global, binding: Binding) -> Result<(), AllocError>
        requires { IsScope (kind_of self.old) }
        ensures ok { OnOk result (self.new ≡ with_binding self.old binding) }
        ensures err { OnErr result (self.new ≡ self.old) }
        ensures price { OnOk result (price_of self.new ≡ price_of self.old + BINDING_CELLS) }
    {
        match self {
            Item::Scope { bindings, .. } => bindings.push(alloc, binding),
            _ => unreachable!(),
        }
    }

    pub(crate) fn note_function(&mut self, alloc: Global, name: &Units) -> Result<(), AllocError>
        requires { IsScope (kind_of self.old) }
        ensures ok { OnOk result (self.new ≡ with_function self.old name.now) }
        ensures err { OnErr result (self.new ≡ self.old) }
        ensures price { price_of self.new ≡ price_of self.old }
    {
        match self {
            Item::Scope { functions, .. } => functions.note(alloc, name),
            _ => unreachable!(),
        }
    }

    pub(crate) fn push_reaction(&mut self, reaction: Reaction) -> Result<(), AllocError>
        requires { IsPromise (kind_of self.old) }
        ensures ok { OnOk result (self.new ≡ with_reaction self.old reaction) }
        ensures err { OnErr result (self.new ≡ self.old) }
        ensures price { OnOk result (price_of self.new ≡ price_of self.old + REACTION_CELLS) }
    {
        match self {
            Item::Promise { reactions, .. } => reactions.push(reaction),
            _ => unreachable!(),
        }
    }

    pub(crate) fn set_state(&mut self, to: PromiseState)
        requires { IsPromise (kind_of self.old) }
        ensures value { self.new ≡ with_state self.old to }
        ensures price { price_of self.new ≡ price_of self.old }
    {
        match self {
            Item::Promise { state, .. } => *state = to,
            _ => unreachable!(),
        }
    }

    pub(crate) fn release(&mut self)
        requires { IsReference (kind_of self.old) }
        ensures value { self.new ≡ released self.old }
        ensures price { price_of self.new ≡ price_of self.old }
    {
        match self {
            Item::Reference { released, .. } => *released = true,
            _ => unreachable!(),
        }
    }
}
