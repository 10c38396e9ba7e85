//! The order of an object's own keys.
ghost use Rattle.std.specs.Prelude.{◌<◌, length, IfOk};
ghost use Rattle.std.specs.List.{All};
ghost use Rattle.ivm_text.specs.KeyOrder as spec;

use crate::Props;
use ivm_text::{NoMemory, places_in_order};
pub use ivm_text::{INDEX_END, index_of};
use std::alloc::Global;

/// The places of an object's properties in key order: array indices ascending, then the others in
/// order of creation.
pub fn key_order(alloc: Global, props: &Props) -> Result<Vec<usize>, NoMemory>
    ensures ok { IfOk result (λ places. spec.AreInOrder props.now places.items) }
    ensures within { IfOk result (λ places. All (λ place. place < length props.now) places.items) }

    ensures law { spec.IsKeyOrder props.now (spec.key_order props.now) }
{
    places_in_order(alloc, props.entries())
}
