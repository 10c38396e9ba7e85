//! The names that a script has given so far.
ghost use Rattle.std.specs.Prelude.{◌≡◌, [], ◌∷◌, ◌++◌, None, IfOk};
ghost use Rattle.host_script.specs.Faults.{Gives};
ghost use Rattle.host_script.specs.Names.{named, new_name, isolate_named, context_named, call_named};

use crate::fault::at;
use crate::words::is_name;
use crate::{HostFault, HostKind};
use indexmap::IndexMap;
use ivm_text::{NoMemory, Units};
use std::alloc::Global;
use std::marker::Model;

// What a name stands for.
#[derive(Clone, Copy, Debug, PartialEq, Eq)]
pub(crate) enum Named {
    // The isolate of this number.
    Isolate(u32),
    // The command of this number, which makes a context.
    Context(u32),
    // The command of this number, which is any other call.
    Call(u32),
}

// The names in the order in which they were given, each with what it stands for. A look-up takes
// constant time, however many names there are.
#[derive(Drop)]
pub(crate) struct Names {
    map: IndexMap<Units, Named>,
}

impl Model for Names {
    ghost use Rattle.std.specs.Prelude.{List, ℕ};
    ghost use Rattle.host_script.specs.declared.names.Named.{Named};

    ghost Value = { List (List ℕ × Named) };

    ghost view = { λ n. n.map.entries };
}

impl Names {
    pub(crate) fn new(alloc: Global) -> Names
        ensures { result ≡ [] }
    {
        Names {
            map: IndexMap::new(alloc),
        }
    }

    // What a name stands for.
    #[tactic(auto, unfolding(crate::specs::Names::named))]
    fn get(&self, name: &Units) -> Option<Named>
        ensures { result ≡ named name.now self.now }
    {
        self.map.get(name).copied()
    }

    // What a word of a line stands for.
    fn look_up(&self, alloc: Global, word: &[u8]) -> Result<Option<Named>, NoMemory>
        ensures { IfOk result (λ found. found ≡ named word.now self.now) }
    {
        let name = Units::from_latin1(alloc, word)?;
        Ok(self.get(&name))
    }

    // A new name, which is not yet entered.
    #[tactic(auto, unfolding(crate::specs::Names::new_name))]
    pub(crate) fn new_name(
        &self,
        alloc: Global,
        number: u32,
        word: &[u8],
    ) -> Result<Units, HostFault>
        ensures gives { Gives (λ name. name) result (new_name number self.now word.now) }
        ensures free { IfOk result (λ name. named name self.now ≡ None) }
    {
        if !is_name(word) {
            return Err(at(number, HostKind::BadName));
        }
        let name = Units::from_latin1(alloc, word)?;
        if self.get(&name).is_some() {
            return Err(at(number, HostKind::NameTaken));
        }
        Ok(name)
    }

    // Enters a new name.
    #[tactic(auto, using(crate::proofs::NameLemmas::entered_last), unfolding(crate::specs::Names::named))]
    pub(crate) fn enter(&mut self, name: Units, meaning: Named) -> Result<(), HostFault>
        requires { named name self.old ≡ None }
        ensures { Gives (λ _. self.new) result (Ok (self.old ++ (name, meaning) ∷ [])) }
    {
        self.map.insert(name, meaning)?;
        Ok(())
    }

    // The number of the isolate that a word names.
    #[tactic(auto, unfolding(crate::specs::Names::isolate_named))]
    pub(crate) fn isolate(&self, alloc: Global, number: u32, word: &[u8]) -> Result<u32, HostFault>
        ensures { Gives (λ isolate. isolate) result (isolate_named number self.now word.now) }
    {
        match self.look_up(alloc, word)? {
            Some(Named::Isolate(isolate)) => Ok(isolate),
            Some(Named::Context(_) | Named::Call(_)) => Err(at(number, HostKind::WrongKind)),
            None => Err(at(number, HostKind::UnknownName)),
        }
    }

    // The number of the command whose label, a context's, a word is.
    #[tactic(auto, unfolding(crate::specs::Names::context_named))]
    pub(crate) fn context(&self, alloc: Global, number: u32, word: &[u8]) -> Result<u32, HostFault>
        ensures { Gives (λ call. call) result (context_named number self.now word.now) }
    {
        match self.look_up(alloc, word)? {
            Some(Named::Context(call)) => Ok(call),
            Some(Named::Isolate(_) | Named::Call(_)) => Err(at(number, HostKind::WrongKind)),
            None => Err(at(number, HostKind::UnknownName)),
        }
    }

    // The number of the command whose label a word is.
    #[tactic(auto, unfolding(crate::specs::Names::call_named))]
    pub(crate) fn call(&self, alloc: Global, number: u32, word: &[u8]) -> Result<u32, HostFault>
        ensures { Gives (λ call. call) result (call_named number self.now word.now) }
    {
        match self.look_up(alloc, word)? {
            Some(Named::Context(call) | Named::Call(call)) => Ok(call),
            Some(Named::Isolate(_)) => Err(at(number, HostKind::WrongKind)),
            None => Err(at(number, HostKind::UnknownName)),
        }
    }
}
