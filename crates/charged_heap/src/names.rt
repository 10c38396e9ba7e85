//! The names that a scope notes.
ghost use Rattle.std.specs.Prelude.{◌≡◌, [], OnOk, OnErr};
ghost use Rattle.charged_heap.specs.Store.{is_noted, with_name};

use indexmap::IndexSet;
use ivm_text::{CloneWhole, Units};
use std::alloc::{AllocError, Global};
use std::marker::Model;

/// Names in the order in which they were noted. Contracts see the list of them.
#[derive(Drop)]
pub struct Names {
    // Boxed, since most scopes note no name.
    noted: Option<Box<IndexSet<Units>>>,
}

impl Model for Names {
    ghost use Rattle.std.specs.Prelude.{List, ℕ, []};
    ghost use Rattle.std.specs.Option.{option_map_or};

    ghost Value = { List (List ℕ) };

    ghost view = { λ n. option_map_or (λ noted. noted.value.keys) n.noted [] };
}

impl Names {
    /// No names. It takes no memory.
    pub fn new() -> Names
        ensures { result ≡ [] }
    {
        Names { noted: None }
    }

    /// Whether the name is among them. It takes no memory.
    pub fn has(&self, name: &Units) -> bool
        ensures { result ≡ is_noted self.now name.now }
    {
        match &self.noted {
            Some(noted) => noted.contains(name),
            None => false,
        }
    }

    /// Adds the name, where it isn't there.
    pub fn note(&mut self, alloc: Global, name: &Units) -> Result<(), AllocError>
        ensures ok { OnOk result (self.new ≡ with_name self.old name.now) }
        ensures err { OnErr result (self.new ≡ self.old) }
    {
        if self.has(name) {
            return Ok(());
        }
        let name = name.clone_whole(alloc)?;
        if self.noted.is_none() {
            self.noted = Some(Box::new(alloc, IndexSet::new(alloc))?);
        }
        if let Some(noted) = &mut self.noted {
            noted.insert(name)?;
        }
        Ok(())
    }
}
