//! Tests of what items and values name.
ghost use Rattle.std.specs.Prelude.{◌↔◌, IsTrue, IfSome};
ghost use Rattle.std.specs.List.{All};
ghost use Rattle.charged_heap.specs.Store.{IsAt, IsPromise};
ghost use Rattle.charged_heap.specs.Closed.{IsClosed, IsSound, IsSoundValue, IsSoundBinding, IsSoundState, IsSoundReaction, IsParentOf};

use crate::{Bindings, Heap, Item, PromiseState, Props, Reaction, Reactions, Value, Values};

impl Heap {
    /// Whether each number in the heap names an item of the kind that its place asks for.
    pub fn is_closed(&self) -> bool
        ensures { IsTrue result ↔ IsClosed self.now }
    {
        for n in 0..self.len() {
            if !self.is_sound(n, self.get(n)) {
                return false;
            }
        }
        true
    }

    /// Whether all that an item with this number names is what its place asks for.
    pub fn is_sound(&self, n: u32, item: &Item) -> bool
        ensures { IsTrue result ↔ IsSound self.now n item.now }
    {
        match item {
            Item::Plain(props) => self.are_sound_props(props),
            Item::Array(values) => self.are_sound_values(values),
            Item::Error(_, message) => self.is_text(*message),
            Item::Scope {
                parent,
                bindings,
                ..
            } => self.is_sound_parent(n, *parent) && self.are_sound_bindings(bindings),
            Item::Closure {
                scope,
                global,
                receiver,
                ..
            } => {
                self.is_scope(*scope) && self.is_plain(*global) && self.is_sound_value(*receiver)
            }
            Item::Promise { state, reactions } => {
                self.is_sound_state(*state) && self.are_sound_reactions(reactions)
            }
            Item::Settler { promise, .. } => self.is_promise(*promise),
            Item::Row(value) => self.is_sound_value(*value),
            Item::Text(_)
            | Item::Reference { .. }
            | Item::Deref(_)
            | Item::External(_)
            | Item::Into(_)
            | Item::Callback(_)
            | Item::Script(_) => true,
        }
    }

    /// Whether the value, where it is an item, is one that a script can hold.
    pub fn is_sound_value(&self, value: Value) -> bool
        ensures { IsTrue result ↔ IsSoundValue self.now value }
    {
        match value {
            Value::Item(n) => self.is_held(n),
            _ => true,
        }
    }

    /// Whether the value or the reason of a settled promise is one that a script can hold.
    pub fn is_sound_state(&self, state: PromiseState) -> bool
        ensures { IsTrue result ↔ IsSoundState self.now state }
    {
        match state {
            PromiseState::Fulfilled(value) | PromiseState::Rejected(value) => {
                self.is_sound_value(value)
            }
            PromiseState::Pending | PromiseState::Adopting => true,
        }
    }

    /// Whether the handlers are values that a script can hold, and the next promise is one.
    pub fn is_sound_reaction(&self, reaction: Reaction) -> bool
        ensures { IsTrue result ↔ IsSoundReaction self.now reaction }
    {
        self.is_sound_value(reaction.good)
            && self.is_sound_value(reaction.bad)
            && self.is_sound_next(reaction.next)
    }

    fn is_sound_next(&self, next: Option<u32>) -> bool
        ensures { IsTrue result ↔ IfSome next (IsAt IsPromise self.now) }
    {
        match next {
            Some(promise) => self.is_promise(promise),
            None => true,
        }
    }

    fn is_sound_parent(&self, n: u32, parent: Option<u32>) -> bool
        ensures { IsTrue result ↔ IfSome parent (IsParentOf self.now n) }
    {
        match parent {
            Some(scope) => scope < n && self.is_scope(scope),
            None => true,
        }
    }

    fn is_sound_binding(&self, value: Option<Value>) -> bool
        ensures { IsTrue result ↔ IfSome value (IsSoundValue self.now) }
    {
        match value {
            Some(bound) => self.is_sound_value(bound),
            None => true,
        }
    }

    fn are_sound_props(&self, props: &Props) -> bool
        ensures { IsTrue result ↔ All (λ p. IsSoundValue self.now p.1) props.now }
    {
        for place in 0..props.len() {
            if !self.is_sound_value(props.entry(place).1) {
                return false;
            }
        }
        true
    }

    /// Whether each of the values is one that a script can hold, where it is an item.
    pub fn are_sound_values(&self, values: &Values) -> bool
        ensures { IsTrue result ↔ All (IsSoundValue self.now) values.now }
    {
        for value in values.as_slice() {
            if !self.is_sound_value(*value) {
                return false;
            }
        }
        true
    }

    fn are_sound_bindings(&self, bindings: &Bindings) -> bool
        ensures { IsTrue result ↔ All (IsSoundBinding self.now) bindings.now }
    {
        for binding in bindings.as_slice() {
            if !self.is_sound_binding(binding.value) {
                return false;
            }
        }
        true
    }

    fn are_sound_reactions(&self, reactions: &Reactions) -> bool
        ensures { IsTrue result ↔ All (IsSoundReaction self.now) reactions.now }
    {
        for reaction in reactions.as_slice() {
            if !self.is_sound_reaction(*reaction) {
                return false;
            }
        }
        true
    }
}
