//! Ranges that share no byte: the rooms of output sections, the pieces in them, the fields of references.

ghost use Rattle.std.specs.Prelude.{◌≡◌, ◌+◌, ◌<◌, ◌^◌, []};
ghost use Rattle.lk_records_read.specs.TakenRanges.{CountedAnswers, TakeAnswers, is_free};

use lk_report::NoMemory;
use std::alloc::Global;
use std::collections::BTreeMap;
use std::marker::Model;

/// Ranges of bytes that are taken, by number. No two share a byte. Contracts see them in rising order, each by its
/// end and its start.
#[derive(Drop)]
pub(crate) struct TakenRanges {
    starts: BTreeMap<u128, u128>,
}

impl Model for TakenRanges {
    ghost use Rattle.std.specs.Prelude.{ℕ, List};
    ghost use Rattle.lk_records_read.specs.TakenRanges.{Rising};

    ghost Value = { List (ℕ × ℕ) };

    ghost view = { λ r. r.starts.entries };

    ghost invariant = { λ r. Rising 0 r.starts.entries };
}

impl TakenRanges {
    /// None is taken.
    pub(crate) fn new(alloc: Global) -> Self
        ensures { result ≡ [] }
    {
        TakenRanges {
            starts: BTreeMap::new(alloc),
        }
    }

    /// Whether the bytes from a start to an end are apart from those that are taken. Time is logarithmic.
    #[tactic(auto, using(crate::proofs::RangesRising::none_after, crate::proofs::RangesRising::found_after))]
    fn is_free(&self, start: u128, end: u128) -> bool
        requires { start < end }
        ensures { result ≡ is_free self.now start end }
    {
        match self.starts.range(start + 1..).next() {
            None => true,
            Some((_, first)) => end <= *first,
        }
    }

    /// Takes so many bytes from a start on: whether they are apart from those that were taken before. Time is
    /// logarithmic.
    ///
    /// # Errors
    /// Out of memory.
    #[tactic(auto, using(crate::proofs::RangesRising::taken, crate::proofs::RangesRising::none_taken, crate::proofs::RangesRising::none_free, crate::proofs::RangesRising::free_sized, crate::proofs::RangesRising::still_rising))]
    pub(crate) fn take(&mut self, start: u128, size: u64) -> Result<bool, NoMemory>
        requires { start + size < 2 ^ 128 }
        ensures { TakeAnswers self.old start size result self.new }
    {
        if size == 0 {
            return Ok(true);
        }
        let end = start + u128::from(size);
        if !self.is_free(start, end) {
            return Ok(false);
        }
        if self.starts.insert(end, start).is_err() {
            return Err(NoMemory);
        }
        Ok(true)
    }
}

/// Takes so many bytes from a start on, where they count at all: whether they are apart from those that were taken
/// before.
///
/// # Errors
/// Out of memory.
pub(crate) fn take_where(
    counts: bool,
    ranges: &mut TakenRanges,
    start: u64,
    size: u64,
) -> Result<bool, NoMemory>
    ensures { CountedAnswers counts ranges.old start size result ranges.new }
{
    if !counts {
        return Ok(true);
    }
    ranges.take(u128::from(start), size)
}
