//! Names that are declared twice.
ghost use Rattle.std.specs.Prelude.{◌≡◌, [], IfOk, OnOk};
ghost use Rattle.js_syntax.specs.Names.{twice};
ghost use Rattle.js_syntax.specs.Noted.{twice_fault, with_function, with_other, least};

use crate::fault::earlier_of;
use crate::listing::Declared;
use crate::{Fault, FaultKind};
use indexmap::IndexSet;
use ivm_text::{CloneWhole, NoMemory, Units};
use std::alloc::Global;

// The names that were declared so far, as a function's own and otherwise.
#[derive(Drop)]
struct Earlier {
    functions: IndexSet<Units>,
    others: IndexSet<Units>,
}

impl Earlier {
    // The fault of declaring a name now. Two functions may share a name where `shared` says so.
    fn fault_of(&self, shared: bool, it: &Declared) -> Option<Fault>
        ensures { result ≡ least (twice_fault shared self.now.others.keys self.now.functions.keys it.now) }
    {
        let clashes = self.others.contains(&it.name)
            || self.functions.contains(&it.name) && !(shared && it.by_function);
        if clashes {
            return Some(Fault {
                kind: FaultKind::TwiceDeclared,
                place: it.place,
            });
        }
        None
    }

    // Notes a name.
    fn note(&mut self, alloc: Global, it: &Declared) -> Result<(), NoMemory>
        ensures functions { OnOk result (self.new.functions.keys ≡ with_function self.old.functions.keys it.now) }
        ensures others { OnOk result (self.new.others.keys ≡ with_other self.old.others.keys it.now) }
    {
        let name = it.name.clone_whole(alloc)?;
        if it.by_function {
            self.functions.insert(name)?;
        } else {
            self.others.insert(name)?;
        }
        Ok(())
    }
}

/// The fault that is told of names that must differ. Two functions may share a name where `shared`
/// says so.
pub(crate) fn first_twice(
    alloc: Global,
    shared: bool,
    list: &[Declared],
) -> Result<Option<Fault>, NoMemory>
    ensures { IfOk result (λ told. told ≡ least (twice shared [] list.now)) }
{
    if list.len() < 2 {
        return Ok(None);
    }
    let mut earlier = Earlier {
        functions: IndexSet::new(alloc),
        others: IndexSet::new(alloc),
    };
    let mut told = None;
    let mut left = list;
    while let [it, rest @ ..] = left {
        told = earlier_of(told, earlier.fault_of(shared, it));
        earlier.note(alloc, it)?;
        left = rest;
    }
    Ok(told)
}
