//! Lists with room.

ghost use Rattle.std.specs.Prelude.{◌≡◌, [], IfOk};

use lk_report::{List, NoMemory};
use std::alloc::Global;

/// An empty list with room for so many items.
///
/// # Errors
/// Out of memory.
pub(crate) fn with_room<X: Drop>(alloc: Global, count: usize) -> Result<List<X>, NoMemory>
    ensures { IfOk result (λ list. list ≡ []) }
{
    match Vec::with_capacity(alloc, count) {
        Ok(items) => Ok(List::from_vec(items)),
        Err(_) => Err(NoMemory),
    }
}
