//! Rooms: the bytes that are reserved for an output section, and the steps by which its pieces are placed
//! (this project's own rules).

ghost use Rattle.std.specs.Prelude.{◌≡◌, IfOk};
ghost use Rattle.lk_model.specs.Rooms.{is_fillable, patched_room, room_of, step_to};

use crate::amounts::{above, plus, round_up, times};
use lk_report::NoMemory;

/// The room for `n` bytes: more by so many percent, in whole lines of 64 bytes.
#[tactic(auto, unfolding(lk_model::specs::Rooms::room_of))]
pub(crate) fn room_of(patch: u32, n: u128) -> Result<u128, NoMemory>
    ensures { IfOk result (λ room. room ≡ room_of patch n) }
{
    let growth = times(n, u128::from(patch))? / 100;
    let lines = round_up(plus(n, growth)?, 64)?;
    Ok(lines.max(64))
}

/// Whether a hole of `n` bytes can be filled; no bytes are no hole.
fn is_fillable(least: u64, n: u128) -> bool
    ensures { result ≡ is_fillable least n }
{
    n == 0 || u128::from(least) <= n
}

/// The least multiple of the alignment at or above the cursor that leaves a hole behind the cursor that can
/// be filled, or none.
#[tactic(auto, unfolding(lk_model::specs::Rooms::step_to))]
pub(crate) fn step_to(least: u64, cursor: u128, align: u64) -> Result<u128, NoMemory>
    ensures { IfOk result (λ next. next ≡ step_to least cursor align) }
{
    let next = round_up(cursor, u128::from(align))?;
    if is_fillable(least, above(next, cursor)) {
        return Ok(next);
    }
    round_up(plus(cursor, u128::from(least))?, u128::from(align))
}

/// The room of a patched section whose pieces end at `n`: 64 bytes more where the last hole, which the
/// reserved bytes end, could not be filled.
#[tactic(auto, unfolding(lk_model::specs::Rooms::patched_room))]
pub(crate) fn patched_room(patch: u32, least: u64, reserved: u64, n: u128) -> Result<u128, NoMemory>
    ensures { IfOk result (λ room. room ≡ patched_room patch least reserved n) }
{
    let reserved = u128::from(reserved);
    let room = room_of(patch, plus(n, reserved)?)?;
    if is_fillable(least, above(above(room, reserved), n)) {
        return Ok(room);
    }
    plus(room, 64)
}
