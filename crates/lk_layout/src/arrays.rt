//! Arrays of functions: their pieces are by rising number, those of one number in the order in which they
//! were added (this project's own rule).
//!
//! Pieces `.init_array.2`, `.init_array.1`, `.init_array.2` are as the second, the first, the third. A copy
//! sorted by number says where the pieces end, and where the first of each number is (its lane). Then the
//! pieces are walked in their own order: each is at its lane's cursor, and moves it. So n pieces cost
//! n log n steps.

ghost use Rattle.std.specs.Prelude.{◌≡◌, ℕ, [], nat_eq, unwrap_or, IfOk, OnOk};
ghost use Rattle.indexmap.specs.IndexMap.{get};
ghost use Rattle.lk_model.specs.Rooms.{by_number, sequence_end};
ghost use Rattle.lk_layout.specs.Ranked.{first_lane, lane_moved, lane_offsets, lane_opened, rank_in, ranked_end, ranked_next, ranked_offset};
ghost use Rattle.lk_layout.specs.Sorts.{IsSortOf, Rises};
ghost use Rattle.lk_layout.specs.Walked.{array_offsets};

use crate::amounts::{plus, round_up};
use crate::kept::Kept;
use crate::ranks::{Ranked, ranked_pieces};
use crate::stretches::{Step, Stretch, push_offset};
use indexmap::IndexMap;
use lk_report::NoMemory;
use std::alloc::Global;

/// Where the next piece of each number is.
type Lanes = IndexMap<u32, u128>;

/// The lanes of sorted pieces, each at its first piece, and where the last piece ends.
#[derive(Drop)]
struct Opened {
    lanes: Lanes,
    end: u128,
}

/// The step of a piece.
fn ranked_step(cursor: u128, piece: Ranked) -> Result<Step, NoMemory>
    ensures at { IfOk result (λ step. step.at ≡ ranked_offset cursor piece) }
    ensures next { IfOk result (λ step. step.next ≡ ranked_next cursor piece) }
{
    let at = round_up(cursor, u128::from(piece.align))?;
    let next = plus(at, u128::from(piece.size))?;
    Ok(Step { at, next })
}

/// The pieces by rising number, those of one number in their order.
fn sort_by_rank(pieces: &mut Vec<Ranked>) -> Result<(), NoMemory>
    ensures { OnOk result (IsSortOf rank_in pieces.old.items pieces.new.items) }
{
    match pieces.sort_by_key(|piece| piece.rank) {
        Ok(()) => Ok(()),
        Err(_) => Err(NoMemory),
    }
}

/// Opens the lane of a number at a place, where there is none yet.
fn open_lane(lanes: &mut Lanes, rank: u32, at: u128) -> Result<(), NoMemory>
    ensures { OnOk result ((r : ℕ) → get nat_eq lanes.new r ≡ lane_opened (get nat_eq lanes.old r) rank at r) }
{
    if lanes.contains_key(&rank) {
        return Ok(());
    }
    if lanes.insert(rank, at).is_err() {
        return Err(NoMemory);
    }
    Ok(())
}

/// Opens the lanes of pieces that are sorted by their numbers.
fn open_lanes(alloc: Global, sorted: &[Ranked]) -> Result<Opened, NoMemory>
    requires { Rises rank_in sorted.now }
    ensures lanes { IfOk result (λ o. (rank : ℕ) → get nat_eq o.lanes rank ≡ first_lane 0 sorted.now rank) }
    ensures end { IfOk result (λ o. o.end ≡ ranked_end sorted.now) }
{
    let mut lanes = IndexMap::new(alloc);
    let mut end = 0;
    for piece in sorted {
        open_lane(&mut lanes, piece.rank, end)?;
        end = ranked_step(end, *piece)?.next;
    }
    Ok(Opened { lanes, end })
}

/// Where a piece is in its lane, which is moved.
fn lane_step(lanes: &mut Lanes, piece: Ranked) -> Result<u128, NoMemory>
    ensures at { IfOk result (λ at. at ≡ ranked_offset (unwrap_or (get nat_eq lanes.old piece.rank) 0) piece) }
    ensures moved { OnOk result ((r : ℕ) → get nat_eq lanes.new r ≡ lane_moved (get nat_eq lanes.old piece.rank) (get nat_eq lanes.old r) piece r) }
{
    let cursor = match lanes.get(&piece.rank) {
        Some(cursor) => *cursor,
        None => 0,
    };
    let step = ranked_step(cursor, piece)?;
    if lanes.insert(piece.rank, step.next).is_err() {
        return Err(NoMemory);
    }
    Ok(step.at)
}

/// Pieces in their own order, each where it is among the sorted ones.
fn lane_stretch(alloc: Global, ranked: &[Ranked], sorted: &[Ranked]) -> Result<Stretch, NoMemory>
    requires { IsSortOf rank_in ranked.now sorted.now }
    ensures offsets { IfOk result (λ s. s.offsets.items ≡ lane_offsets sorted.now [] ranked.now) }
    ensures end { IfOk result (λ s. s.end ≡ ranked_end sorted.now) }
{
    let Opened { mut lanes, end } = open_lanes(alloc, sorted)?;
    let mut offsets = Vec::new(alloc);
    for piece in ranked {
        let at = lane_step(&mut lanes, *piece)?;
        push_offset(&mut offsets, at)?;
    }
    Ok(Stretch { offsets, end })
}

/// A copy of pieces, sorted by their numbers.
fn sorted_copy(alloc: Global, ranked: &[Ranked]) -> Result<Vec<Ranked>, NoMemory>
    ensures { IfOk result (λ sorted. IsSortOf rank_in ranked.now sorted.items) }
{
    let Ok(mut sorted) = Vec::from_slice(alloc, ranked) else {
        return Err(NoMemory);
    };
    sort_by_rank(&mut sorted)?;
    Ok(sorted)
}

/// The pieces of an array of functions, which are by rising number.
pub(crate) fn array_stretch(alloc: Global, pieces: &[Kept<'_>]) -> Result<Stretch, NoMemory>
    ensures offsets { IfOk result (λ s. s.offsets.items ≡ array_offsets pieces.now [] pieces.now) }
    ensures end { IfOk result (λ s. s.end ≡ sequence_end (by_number pieces.now)) }
{
    let ranked = ranked_pieces(alloc, pieces)?;
    let sorted = sorted_copy(alloc, ranked.as_slice())?;
    let stretch = lane_stretch(alloc, ranked.as_slice(), sorted.as_slice())?;
    Ok(stretch)
}
