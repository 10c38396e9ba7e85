//! The order of an object's own keys.
ghost use Rattle.std.specs.Prelude.{◌≡◌, ◌≢◌, ◌<◌, ◌≤◌, ℕ, true, length, slice_index, IfOk, IfSome, IfNone};
ghost use Rattle.std.specs.Fmt.{decimal};
ghost use Rattle.std.specs.List.{All};
ghost use Rattle.std.specs.Str.{all_ascii_digits};
ghost use Rattle.ivm_text.specs.KeyOrder as spec;
ghost use Rattle.ivm_text.specs.declared.key_order.TheConstants.{INDEX_END};

use crate::{NoMemory, Units};
use indexmap::IndexMap;
use std::alloc::Global;

/// One above the greatest array index, which is 2^32 - 2.
pub const INDEX_END: u64 = 4_294_967_295;

/// The unit at a place of a key.
fn unit_at(key: &Units, place: usize) -> u16
    requires { place < length key.now }
    ensures { result ≡ slice_index key.now place }
{
    key.get(place).unwrap()
}

/// The number that the decimal digits of a key write, where it has no other units and the number is
/// that of an array index.
fn digits_value(key: &Units) -> Option<u64>
    ensures some { IfSome result (λ n. (all_ascii_digits key.now ≡ true) × (n ≡ spec.read_on 0 key.now) × (n < INDEX_END)) }
    ensures none { IfNone result (all_ascii_digits key.now ≡ true → INDEX_END ≤ spec.read_on 0 key.now) }
{
    let mut n: u64 = 0;
    for place in 0..key.len() {
        let digit = unit_at(key, place);
        if digit < 48 || 57 < digit {
            return None;
        }
        n = 10 * n + (digit as u64 - 48);
        if n >= INDEX_END {
            return None;
        }
    }
    Some(n)
}

/// The number of which the key is the decimal text, where it is that of an array index.
fn decimal_index(key: &Units) -> Option<u64>
    ensures some { IfSome result (λ n. (decimal n ≡ key.now) × (n < INDEX_END)) }
    ensures none { IfNone result ((n : ℕ) → n < INDEX_END → decimal n ≢ key.now) }
{
    if key.len() == 0 {
        return None;
    }
    if unit_at(key, 0) == 48 && key.len() > 1 {
        return None;
    }
    let n = digits_value(key)?;
    Some(n)
}

/// The array index that a key is: the key is the decimal text, without a superfluous zero, of a
/// number of 0 to 2^32 - 2. None where it is no such text.
pub fn index_of(key: &Units) -> Option<u64>
    ensures value { result ≡ spec.index_of key.now }
    ensures some { IfSome result (λ n. (decimal n ≡ key.now) × (n < INDEX_END)) }
    ensures none { IfNone result ((n : ℕ) → n < INDEX_END → decimal n ≢ key.now) }
{
    decimal_index(key)
}

/// Where the key at a place stands: an array index by its number, and all other keys behind those.
#[tactic(auto, unfolding(crate::specs::KeyOrder::rank_of))]
fn rank_at<V>(entries: &IndexMap<Units, V>, place: usize) -> u64
    ensures { result ≡ spec.rank_at entries.now.entries place }
{
    match entries.get_index(place) {
        Some((key, _)) => match index_of(key) {
            Some(index) => index,
            None => INDEX_END,
        },
        None => INDEX_END,
    }
}

/// The places of a map's pairs in key order: array indices ascending, then the others in order of
/// creation.
pub fn places_in_order<V>(
    alloc: Global,
    entries: &IndexMap<Units, V>,
) -> Result<Vec<usize>, NoMemory>
    ensures ok { IfOk result (λ places. spec.AreInOrder entries.now.entries places.items) }
    ensures within { IfOk result (λ places. All (λ place. place < length entries.now.entries) places.items) }

    ensures law { spec.IsKeyOrder entries.now.entries (spec.key_order entries.now.entries) }
{
    let mut places = Vec::new(alloc);
    for place in 0..entries.len() {
        places.push(place)?;
    }
    places.sort_by_cached_key(|place: &usize| rank_at(entries, *place))?;
    Ok(places)
}
