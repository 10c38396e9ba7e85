//! Tests of what a number names.
ghost use Rattle.std.specs.Prelude.{◌↔◌, IsTrue};
ghost use Rattle.charged_heap.specs.Store.{IsAt, IsText, IsPlain, IsArray, IsScope, IsPromise, IsReference};
ghost use Rattle.charged_heap.specs.Closed.{IsHeld};

use crate::{Heap, Item};

impl Heap {
    /// Whether the number is that of a string.
    pub fn is_text(&self, n: u32) -> bool
        ensures { IsTrue result ↔ IsAt IsText self.now n }
    {
        n < self.len() && matches!(self.get(n), Item::Text(_))
    }

    /// Whether the number is that of a plain object.
    pub fn is_plain(&self, n: u32) -> bool
        ensures { IsTrue result ↔ IsAt IsPlain self.now n }
    {
        n < self.len() && matches!(self.get(n), Item::Plain(_))
    }

    /// Whether the number is that of an array.
    pub fn is_array(&self, n: u32) -> bool
        ensures { IsTrue result ↔ IsAt IsArray self.now n }
    {
        n < self.len() && matches!(self.get(n), Item::Array(_))
    }

    /// Whether the number is that of a scope.
    pub fn is_scope(&self, n: u32) -> bool
        ensures { IsTrue result ↔ IsAt IsScope self.now n }
    {
        n < self.len() && matches!(self.get(n), Item::Scope { .. })
    }

    /// Whether the number is that of a promise.
    pub fn is_promise(&self, n: u32) -> bool
        ensures { IsTrue result ↔ IsAt IsPromise self.now n }
    {
        n < self.len() && matches!(self.get(n), Item::Promise { .. })
    }

    /// Whether the number is that of a reference.
    pub fn is_reference(&self, n: u32) -> bool
        ensures { IsTrue result ↔ IsAt IsReference self.now n }
    {
        n < self.len() && matches!(self.get(n), Item::Reference { .. })
    }

    /// Whether the number is that of an item that a script can hold.
    pub fn is_held(&self, n: u32) -> bool
        ensures { IsTrue result ↔ IsAt IsHeld self.now n }
    {
        n < self.len()
            && !matches!(
                self.get(n),
                Item::Scope { .. } | Item::Row(_) | Item::Script(_)
            )
    }
}
