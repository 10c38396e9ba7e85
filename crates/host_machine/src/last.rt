//! The last item of a list, taken back.
ghost use Rattle.host_machine.specs.Last.{DropsLast};

use ivm_text::Items;

/// Drops the last item.
pub fn drop_last<T: Drop>(list: &mut Items<T>)
    ensures { DropsLast list.old list.new }
{
    list.pop();
}
