//! What a live isolate holds.

ghost use Rattle.std.specs.Prelude.{◌≡◌};
ghost use Rattle.isolate_meaning.specs.State.{empty};
ghost use Rattle.isolate_core.specs.Contents.{contents_of};

use crate::contexts::Context;
use charged_heap::Heap;
use ivm_text::Items;
use js_syntax::Scripts;
use std::alloc::Global;

/// The contexts of an isolate, in the order in which they were made.
pub(crate) type Contexts = Items<Context>;

/// The rows of an isolate, each by the number of its item.
pub(crate) type Rows = Items<u32>;

/// The items of a live isolate, its contexts, the scripts that it was charged for, and its rows.
#[derive(Drop)]
pub(crate) struct Contents {
    pub heap: Heap,
    pub contexts: Contexts,
    pub scripts: Scripts,
    pub rows: Rows,
}

impl Contents {
    /// Nothing, with this limit in cells. It takes no memory.
    pub fn new(alloc: Global, limit: u32) -> Contents
        ensures { contents_of result ≡ empty limit }
    {
        Contents {
            heap: Heap::new(alloc, limit),
            contexts: Items::new(alloc),
            scripts: Items::new(alloc),
            rows: Items::new(alloc),
        }
    }
}
