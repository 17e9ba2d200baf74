//! First fit: the first hole that takes a piece, the least place in it, and what is left of it.
//!
//! A piece may leave no hole that is too short to be filled, so not every place in a hole will do. In a
//! hole from 0x104 to 0x120 where the shortest is 16 bytes, a piece of 8 bytes at multiples of 8 can not
//! are at 0x108 (4 bytes would be left before it), nor at 0x110 (12), but at 0x118, where it ends with
//! the hole.
//!
//! Two places are looked at in a hole: the least multiple of the alignment that leaves nothing or enough
//! before the piece, and, where the piece would leave too little behind there, the place that ends with
//! the hole. Any place between leaves too little behind, and any other too little before. So a hole costs
//! a few divisions, however long it is; the holes are walked once, up to the first that takes the piece.

ghost use Rattle.std.specs.Prelude.{◌≡◌, ◌+◌, ◌-◌, ◌^◌, ◌<◌, ◌≤◌, ◌++◌, take, drop, ◌∷◌, None, MatchOption};
ghost use Rattle.std.specs.Option.{SomeIff};
ghost use Rattle.std.specs.Vec.{vec_capacity, vec_len};
ghost use Rattle.lk_model.specs.Amounts.{round_up};
ghost use Rattle.lk_model.specs.FirstFit.{fit_in, first_fit};
ghost use Rattle.lk_model.specs.Holes.{without_one};
ghost use Rattle.lk_model.specs.Rooms.{is_fillable, step_to};
ghost use Rattle.lk_freelist.specs.FreeBytes.{AreHoles};
ghost use Rattle.lk_freelist.specs.Placing.{IsFirstFit};

use lk_model::layouts::Hole;

/// The place of a piece, and the hole that takes it.
#[derive(Clone, Copy)]
pub(crate) struct Found {
    /// The number of the hole, from 0.
    pub(crate) index: usize,
    /// The hole.
    pub(crate) hole: Hole,
    /// The place, a multiple of the alignment.
    pub(crate) at: u64,
}

/// The first place that takes a piece of `size` bytes.
pub(crate) fn find_place(holes: &[Hole], least: u64, size: u64, align: u64) -> Option<Found>
    requires positive { 0 < align }
    requires holes { AreHoles holes.now }
    ensures { MatchOption result (first_fit holes.now least size align ≡ None) (λ found. IsFirstFit holes.now least size align found) }
{
    for (index, hole) in holes.iter().enumerate() {
        if let Some(at) = place_in(*hole, least, size, align) {
            return Some(Found {
                index,
                hole: *hole,
                at,
            });
        }
    }
    None
}

/// The least place in a hole that takes a piece of `size` bytes.
fn place_in(hole: Hole, least: u64, size: u64, align: u64) -> Option<u64>
    requires positive { 0 < align }
    requires below { hole.start + hole.length < 2 ^ 64 }
    ensures { result ≡ fit_in hole least size align }
{
    let end = hole.start + hole.length;
    let near = step_from(hole.start, least, align)?;
    let reached = near.checked_add(size)?;
    if end < reached {
        return None;
    }
    if can_fill(least, end - reached) {
        return Some(near);
    }
    let last = end - size;
    if last % align == 0 && can_fill(least, last - hole.start) {
        return Some(last);
    }
    None
}

/// The least multiple of the alignment that leaves no hole from `start` to it, or one that can be filled;
/// `None` where it is 2^64 or more.
fn step_from(start: u64, least: u64, align: u64) -> Option<u64>
    requires { 0 < align }
    ensures { SomeIff result (step_to least start align < 2 ^ 64) (step_to least start align) }
{
    let next = round_up(start, align)?;
    if can_fill(least, next - start) {
        return Some(next);
    }
    round_up(start.checked_add(least)?, align)
}

/// The least multiple of the alignment that is not below `n`; `None` where it is 2^64 or more.
fn round_up(n: u64, align: u64) -> Option<u64>
    requires { 0 < align }
    ensures { SomeIff result (round_up n align < 2 ^ 64) (round_up n align) }
{
    let past = n % align;
    if past == 0 {
        return Some(n);
    }
    n.checked_add(align - past)
}

/// Whether a hole of `n` bytes can be filled; no bytes are no hole.
fn can_fill(least: u64, n: u64) -> bool
    ensures { result ≡ is_fillable least n }
{
    n == 0 || least <= n
}

/// Takes bytes out of a hole, and leaves in its stead the holes before and behind them.
pub(crate) fn take_out(holes: &mut Vec<Hole>, index: usize, hole: Hole, at: u64, size: u64)
    requires is_at { drop index holes.old.items ≡ hole ∷ drop (index + 1) holes.old.items }
    requires below { hole.start + hole.length < 2 ^ 64 }
    requires above { hole.start ≤ at }
    requires inside { at + size ≤ hole.start + hole.length }
    requires room { vec_len holes.old < vec_capacity holes.old }
    ensures left { holes.new.items ≡ take index holes.old.items ++ without_one at size hole ++ drop (index + 1) holes.old.items }
    ensures spare { vec_len holes.new + vec_capacity holes.old ≤ vec_capacity holes.new + vec_len holes.old + 1 }
{
    let end = at + size;
    let before = Hole {
        start: hole.start,
        length: at - hole.start,
    };
    let behind = Hole {
        start: end,
        length: hole.start + hole.length - end,
    };
    if behind.length == 0 {
        if before.length == 0 {
            holes.remove(index);
        } else {
            holes[index] = before;
        }
    } else if before.length == 0 {
        holes[index] = behind;
    } else {
        holes[index] = before;
        let _done = holes.insert(index + 1, behind);
    }
}
