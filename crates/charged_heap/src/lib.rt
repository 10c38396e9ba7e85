//! The heap of one isolate: items by number, and what they cost in cells.
//!
//! Contracts see a `Heap` as a `Store`: the list of its items, the first made first, and its limit.
//! Rely on: the charge is the sum of the prices and at most the limit; a refused call changes nothing.
//! A call over it gives, throws or is refused as `specs/Ends.antt` says of all that evaluates.
//! Over `ivm_text` and `indexmap`; under `js_ops` and all that evaluates, copies or holds values.
//! Begin with `specs/Price.antt` and `specs/Store.antt`, then `src/heap.rt`.
#![tactic(auto)]

mod bindings;
mod builtin;
mod closed;
mod fault;
mod heap;
mod item;
mod kinds;
mod making;
mod names;
mod order;
mod price;
mod props;
mod values;

pub use bindings::Bindings;
pub use builtin::Builtin;
pub use fault::{Fail, HeapFault};
pub use heap::Heap;
pub use item::{Item, ItemKind};
pub use making::make;
pub use names::Names;
pub use order::{INDEX_END, index_of, key_order};
pub use price::{
    BINDING_CELLS, ELEMENT_CELLS, GREATEST_TOLD, ITEM_CELLS, PROPERTY_CELLS, REACTION_CELLS,
    ROW_CELLS, SCOPE_CELLS, TEXT_CELLS, UNITS_PER_CELL, price_of, property_price, text_price,
};
pub use props::Props;
pub use values::{Binding, PromiseState, Reaction, Reactions, Value, Values};
