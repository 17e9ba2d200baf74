//! Bytes become free again: their place among the holes is found by halving, and they are joined with the
//! holes that they touch.

ghost use Rattle.std.specs.Prelude.{◌≡◌, ◌+◌, ◌^◌, ◌<◌, ◌≤◌, ◌++◌, ℕ, take, drop, length, nat_lt, slice_index_or};
ghost use Rattle.std.specs.Vec.{vec_capacity, vec_len};
ghost use Rattle.lk_model.specs.declared.layouts.Hole.{Hole};
ghost use Rattle.lk_freelist.specs.FreeBytes.{AreHoles, NoneFree, end_of};
ghost use Rattle.lk_freelist.specs.TakingBack.{put_among, put_before};

use lk_model::layouts::Hole;

/// Puts a range of bytes among the holes.
pub(crate) fn put_back(holes: &mut Vec<Hole>, start: u64, size: u64)
    requires holes { AreHoles holes.old.items }
    requires within { start + size < 2 ^ 64 }
    requires some { 0 < size }
    requires taken { NoneFree holes.old.items start size }
    requires room { vec_len holes.old < vec_capacity holes.old }
    ensures put { holes.new.items ≡ put_among start size holes.old.items }
    ensures spare { vec_len holes.new + vec_capacity holes.old ≤ vec_capacity holes.new + vec_len holes.old + 1 }
{
    let freed = Hole {
        start,
        length: size,
    };
    let index = first_reaching(holes.as_slice(), start);
    if index == holes.len() {
        let _done = holes.push(freed);
        return;
    }
    let hole = holes[index];
    if hole.start + hole.length == start {
        let longer = Hole {
            start: hole.start,
            length: hole.length + size,
        };
        join(holes, index, longer);
    } else if start + size == hole.start {
        holes[index] = Hole {
            start,
            length: size + hole.length,
        };
    } else {
        let _done = holes.insert(index, freed);
    }
}

/// How many holes end below a place, which is the number of the first that ends there or above it.
fn first_reaching(holes: &[Hole], start: u64) -> usize
    requires { AreHoles holes.now }
    ensures within { result ≤ length holes.now }
    ensures below { (k : ℕ) (d : Hole) → k < result → end_of (slice_index_or holes.now k d) < start }
    ensures reaches { (d : Hole) → result < length holes.now → start ≤ end_of (slice_index_or holes.now result d) }
{
    holes.partition_point(|hole| ends_below(hole, start))
}

/// Whether a hole ends below a place.
fn ends_below(hole: &Hole, start: u64) -> bool
    ensures { result ≡ nat_lt (end_of hole.now) start }
{
    hole.start < start && hole.length < start - hole.start
}

/// Puts a hole in the stead of one, as one with the next where it touches it.
fn join(holes: &mut Vec<Hole>, index: usize, hole: Hole)
    requires holes { AreHoles holes.old.items }
    requires there { index < vec_len holes.old }
    requires within { hole.start + hole.length < 2 ^ 64 }
    ensures put { holes.new.items ≡ take index holes.old.items ++ put_before hole.start hole.length (drop (index + 1) holes.old.items) }
    ensures len { vec_len holes.new ≤ vec_len holes.old }
    ensures capacity { vec_capacity holes.new ≡ vec_capacity holes.old }
{
    let next = index + 1;
    if next < holes.len() {
        let behind = holes[next];
        if hole.start + hole.length == behind.start {
            holes.remove(next);
            holes[index] = Hole {
                start: hole.start,
                length: hole.length + behind.length,
            };
            return;
        }
    }
    holes[index] = hole;
}
