//! One more item, for a call that may throw.
ghost use Rattle.std.specs.Prelude.{◌≡◌, ◌<◌, length, IfOk, IfErr};
ghost use Rattle.charged_heap.specs.Closed.{IsClosed, IsSound};
ghost use Rattle.charged_heap.specs.Ends.{IsSoundFail, Meets, item_made};
ghost use Rattle.charged_heap.specs.Growth.{Grows};
ghost use Rattle.charged_heap.specs.Store.{item_at};

use crate::{Fail, Heap, Item};

/// Makes one more item behind all others, and answers its number.
///
/// `Over` comes exactly where its cells don't fit; then the heap is as it was. `NoMemory` may come, and nothing is
/// thrown.
pub fn make(heap: &mut Heap, item: Item) -> Result<u32, Fail>
    ensures meets { Meets result heap.new (item_made item heap.old) }

    ensures there { IfOk result (λ n. n < length heap.new.items) }
    ensures item { IfOk result (λ n. item_at heap.new n ≡ item) }
    ensures grown { Grows heap.old heap.new }
    ensures closed { IsClosed heap.old → IsSound heap.old (length heap.old.items) item → IsClosed heap.new }
    ensures thrown { IfErr result (IsSoundFail heap.new) }
{
    let number = heap.add(item)?;
    Ok(number)
}
