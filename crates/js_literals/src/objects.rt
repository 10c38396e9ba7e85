//! The properties of an object.

ghost use Rattle.std.specs.Prelude.{◌≡◌, ◌<◌, [], length, slice_get, zip, IfOk, Some};
ghost use Rattle.ivm_text.specs.Keys.{HasDistinctKeys};
ghost use Rattle.js_literals.specs.Copies.{given};

use indexmap::IndexMap;
use ivm_text::{CloneWhole, NoMemory, Units};
use js_syntax::Node;
use std::alloc::Global;

/// The keys of an object with the numbers of their values. A key that is given twice keeps its
/// first place and its last value.
pub(crate) fn entries_of(alloc: Global, node: &Node) -> Result<IndexMap<Units, u32>, NoMemory>
    ensures entries { IfOk result (λ entries. entries.entries ≡ given [] (zip node.now.names node.now.kids)) }
    ensures distinct { IfOk result (λ entries. HasDistinctKeys entries.entries) }
{
    let mut entries = IndexMap::new(alloc);
    let names = node.names.as_slice();
    let kids = node.kids.as_slice();
    for place in 0..names.len().min(kids.len()) {
        let key = names[place].clone_whole(alloc)?;
        entries.insert(key, kids[place])?;
    }
    Ok(entries)
}

/// The key at a place, and the number of its value.
pub(crate) fn entry_at(entries: &IndexMap<Units, u32>, place: usize) -> (&Units, u32)
    requires { place < length entries.now.entries }
    ensures { slice_get entries.now.entries place ≡ Some (result.0.now, result.1) }
{
    let (key, kid) = entries.get_index(place).unwrap();
    (key, *kid)
}
