//! Room for more slots and entries.

ghost use Rattle.std.specs.Prelude.{◌≡◌, ◌+◌, ◌≤◌, OnOk};
ghost use Rattle.std.specs.BinaryHeap.{heap_capacity, heap_items, heap_len};
ghost use Rattle.std.specs.Vec.{vec_capacity, vec_len};

use crate::free_slots::FreeSlots;
use lk_model::layouts::GotKey;
use lk_report::NoMemory;

/// Makes room for `more` slots, each of which may be free, and `more` entries.
pub(crate) fn reserve_each(
    got: &mut Vec<Option<GotKey>>,
    free: &mut FreeSlots,
    plt: &mut Vec<u32>,
    more: usize,
) -> Result<(), NoMemory>
    requires { heap_len free.old ≤ vec_len got.old }
    ensures got { got.new.items ≡ got.old.items }
    ensures free { heap_items free.new ≡ heap_items free.old }
    ensures plt { plt.new.items ≡ plt.old.items }
    ensures got_room { vec_capacity got.old ≤ vec_capacity got.new }
    ensures free_room { heap_capacity free.old ≤ heap_capacity free.new }
    ensures plt_room { vec_capacity plt.old ≤ vec_capacity plt.new }
    ensures got_more { OnOk result (vec_len got.new + more ≤ vec_capacity got.new) }
    ensures free_more { OnOk result (vec_len got.new + more ≤ heap_capacity free.new) }
    ensures plt_more { OnOk result (vec_len plt.new + more ≤ vec_capacity plt.new) }
{
    if got.reserve(more).is_err() || plt.reserve(more).is_err() {
        return Err(NoMemory);
    }
    let used = got.len() - free.len();
    let Some(all) = more.checked_add(used) else {
        return Err(NoMemory);
    };
    match free.reserve(all) {
        Ok(()) => Ok(()),
        Err(_) => Err(NoMemory),
    }
}
