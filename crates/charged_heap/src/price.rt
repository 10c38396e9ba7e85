//! What items, and the parts that are added to them, cost in cells.
ghost use Rattle.std.specs.Prelude.{◌≡◌, ◌+◌, ◌-◌, ◌^◌, ◌≤◌, min, sum_by};
ghost use Rattle.std.specs.Map.{keys_of};
ghost use Rattle.charged_heap.specs.Price as spec;

use crate::{Item, Props};
use ivm_text::Units;

/// The cells of an item by itself, without its elements, properties or reactions: of an object,
/// array, closure, settler, promise, error, reference, deref, external copy, into, callback or script.
pub const ITEM_CELLS: u64 = 4;

/// The cells of a property, beside those of its key's units.
pub const PROPERTY_CELLS: u64 = 2;

/// The cells of an element of an array.
pub const ELEMENT_CELLS: u64 = 1;

/// The cells of a string, beside those of its units.
pub const TEXT_CELLS: u64 = 1;

/// The cells of a scope, without its bindings.
pub const SCOPE_CELLS: u64 = 2;

/// The cells of a binding of a scope. A function's name that is only noted costs nothing.
pub const BINDING_CELLS: u64 = 1;

/// The cells of a reaction of a promise.
pub const REACTION_CELLS: u64 = 3;

/// The cells of a row, by which other isolates name a value of this one.
pub const ROW_CELLS: u64 = 2;

/// So many code units of a string or a key, or fewer that are left over, cost one cell.
pub const UNITS_PER_CELL: u64 = 4;

/// The greatest price that a refusal tells; it stands for every price above it too.
pub const GREATEST_TOLD: u64 = 4_294_967_295;

/// One cell for each four units begun.
fn units_price(units: &Units) -> u64
    ensures value { result ≡ spec.units_price units.now }
    ensures small { result ≤ 2 ^ 62 }
{
    (units.len() as u64).div_ceil(UNITS_PER_CELL)
}

/// The cells of a property with this key.
pub fn property_price(key: &Units) -> u64
    ensures value { result ≡ spec.property_price key.now }
    ensures small { result ≤ 2 ^ 62 + 2 }
{
    PROPERTY_CELLS + units_price(key)
}

/// The cells of a string of these units.
pub fn text_price(units: &Units) -> u64
    ensures value { result ≡ spec.text_price units.now }
    ensures small { result ≤ 2 ^ 62 + 1 }
{
    TEXT_CELLS + units_price(units)
}

/// The cells of all the properties, or the greatest number where they are above it.
fn properties_price(props: &Props) -> u64
    ensures { result ≡ min (spec.properties_price props.now) (2 ^ 64 - 1) }
{
    let mut total: u64 = 0;
    for place in 0..props.len() {
        total = total.saturating_add(property_price(props.entry(place).0));
    }
    total
}

/// The cells of an item, or the greatest number where they are above it.
pub fn price_of(item: &Item) -> u64
    ensures { result ≡ min (spec.price_of item.now) (2 ^ 64 - 1) }
{
    match item {
        Item::Text(units) => text_price(units),
        Item::Plain(props) => properties_price(props).saturating_add(ITEM_CELLS),
        Item::Array(values) => ITEM_CELLS + ELEMENT_CELLS * values.len() as u64,
        Item::Scope { bindings, .. } => SCOPE_CELLS + BINDING_CELLS * bindings.len() as u64,
        Item::Promise { reactions, .. } => ITEM_CELLS + REACTION_CELLS * reactions.len() as u64,
        Item::Row(_) => ROW_CELLS,
        Item::Error(_, _)
        | Item::Closure { .. }
        | Item::Settler { .. }
        | Item::Reference { .. }
        | Item::Deref(_)
        | Item::External(_)
        | Item::Into(_)
        | Item::Callback(_)
        | Item::Script(_) => ITEM_CELLS,
    }
}
