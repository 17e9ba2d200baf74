//! Lists by number, which grow where a number is first used. One list can serve one object after another, so that
//! none is allocated anew for each.

ghost use Rattle.std.specs.Prelude.{◌≡◌, ℕ, ◌<◌, length, get_or, OnErr, OnOk};

use lk_report::NoMemory;

/// Grows a list until it has an item with this number. New items are `empty`, which is also what a number past the
/// end counts as.
///
/// # Errors
/// Out of memory: the list is as it was.
pub fn make_room<T: Copy>(items: &mut Vec<T>, number: u32, empty: T) -> Result<(), NoMemory>
    ensures room { OnOk result (number < length items.new.items) }
    ensures same { OnOk result ((k : ℕ) → get_or items.new.items k empty ≡ get_or items.old.items k empty) }
    ensures kept { OnErr result (items.new.items ≡ items.old.items) }
{
    if (number as usize) < items.len() {
        return Ok(());
    }
    match items.resize(number as usize + 1, empty) {
        Ok(()) => Ok(()),
        Err(_) => Err(NoMemory),
    }
}
