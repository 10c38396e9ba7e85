//! The contexts of a live isolate, and how one is made.
ghost use Rattle.std.specs.Prelude.{◌≡◌, IfErr, IfOk, Some};
ghost use Rattle.charged_heap.specs.Closed.{IsClosed as IsClosedStore};
ghost use Rattle.charged_heap.specs.Ends.{IsSoundFail, Meets};
ghost use Rattle.charged_heap.specs.Growth.{Grows};
ghost use Rattle.charged_heap.specs.Store.{IsAt};
ghost use Rattle.isolate_meaning.specs.State.{AreClosed, HeapIsClosed, IsClosedContext, IsRow};
ghost use Rattle.isolate_meaning.specs.Tasks.{context_items, context_made, with_context};
ghost use Rattle.isolate_core.specs.Contents.{contents_of};
ghost use Rattle.isolate_core.specs.Done.{done_of};

use crate::contents::Contents;
use crate::done::{Done, refused};
use charged_heap::{Bindings, Fail, Heap, Item, Names, Props, Value, make};
use ivm_text::NoMemory;
use std::alloc::Global;
use std::marker::Model;
use task_history::Outcome;

/// One context (isolated-vm: `Context`), by numbers of items: the scope that is the record of its names, and its
/// global object.
#[derive(Drop)]
pub(crate) struct Context {
    names: u32,
    global: u32,
}

impl Model for Context {
    ghost use Rattle.isolate_meaning.specs.State.{Context as ContextMeaning};

    ghost Value = { ContextMeaning };

    ghost view = { λ c. record { names = c.names; global = c.global } };
}

impl Context {
    pub(crate) fn names(&self) -> u32
        ensures { result ≡ self.now.names }
    {
        self.names
    }

    pub(crate) fn global(&self) -> u32
        ensures { result ≡ self.now.global }
    {
        self.global
    }
}

/// The items of a context, and the row of its global object.
#[derive(Drop)]
struct MadeContext {
    context: Context,
    row: u32,
}

impl Model for MadeContext {
    ghost use Rattle.isolate_meaning.specs.Tasks.{MadeContext as MadeMeaning};

    ghost Value = { MadeMeaning };

    ghost view = { λ m. record { context = m.context; row = m.row } };
}

/// Makes an empty object, a scope without names, and a row of the object, one after the other.
#[tactic(auto, using(crate::proofs::Growing::growing, crate::proofs::Growing::made_there, crate::proofs::Growing::sequences))]
fn context_items(alloc: Global, heap: &mut Heap) -> Result<MadeContext, Fail>
    requires { IsClosedStore heap.old }

    ensures meets { Meets result heap.new (context_items heap.old) }

    ensures grown { Grows heap.old heap.new }
    ensures closed { IsClosedStore heap.new }
    ensures context { IfOk result (λ made. IsClosedContext heap.new made.context) }
    ensures row { IfOk result (λ made. IsAt IsRow heap.new made.row) }
    ensures thrown { IfErr result (IsSoundFail heap.new) }
{
    let properties = Props::new(alloc)?;
    let global = make(heap, Item::Plain(properties))?;
    let scope = Item::Scope {
        parent: None,
        bindings: Bindings::new(alloc),
        functions: Names::new(),
    };
    let names = make(heap, scope)?;
    let context = Context { names, global };
    match make(heap, Item::Row(Value::Item(global))) {
        Ok(row) => Ok(MadeContext { context, row }),
        Err(fail) => Err(fail),
    }
}

/// Puts a context that was made, and the row of its global object, behind the others.
#[tactic(auto, using(crate::proofs::Growing::contents))]
fn add_context(mut contents: Contents, context: Context, row: u32) -> Result<Contents, NoMemory>
    requires closed { AreClosed (contents_of contents) }
    requires context { IsClosedContext contents.heap context }
    requires row { IsAt IsRow contents.heap row }

    ensures added { IfOk result (λ more. contents_of more ≡ with_context (contents_of contents) (record { context = context; row = row }) contents.heap) }
    ensures closed { IfOk result (λ more. AreClosed (contents_of more)) }
{
    contents.contexts.push(context)?;
    contents.rows.push(row)?;
    Ok(contents)
}

/// Makes a context (isolated-vm: `isolate.createContext`), and tells its number and that of its global object's row.
#[tactic(auto, unfolding(isolate_meaning::specs::Tasks::context_made), using(crate::proofs::Growing::contents, crate::proofs::DoneLemmas::dones))]
pub(crate) fn make_context(alloc: Global, mut contents: Contents) -> Result<Done, NoMemory>
    requires { AreClosed (contents_of contents) }

    ensures done { IfOk result (λ done. context_made (contents_of contents) ≡ Some (done_of done)) }
    ensures closed { IfOk result (λ done. HeapIsClosed (done_of done).state) }
{
    let outcome = Outcome::Context {
        context: contents.contexts.len(),
        row: contents.rows.len(),
    };
    match context_items(alloc, &mut contents.heap) {
        Ok(MadeContext { context, row }) => Ok(Done::Lives {
            contents: add_context(contents, context, row)?,
            outcome,
            ticks: 0,
        }),
        Err(fail) => refused(alloc, contents, fail),
    }
}
