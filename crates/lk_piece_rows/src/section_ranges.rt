//! Where the sections of each input are in the dense list of all sections.

ghost use Rattle.std.specs.Prelude.{◌≡◌, ℕ, ◌+◌, ◌<◌, ◌^◌, get_or, Some, IfOk};
ghost use Rattle.lk_piece_rows.specs.RowNumbers.{AreConsecutive, Fit, count_in, index_in, index_of, ranges_end, ranges_from};

use lk_report::NoMemory;
use std::alloc::Global;

/// The sections of an input in the dense list: where section 0 is, and how many there are.
#[derive(Clone, Copy)]
pub(crate) struct SectionRange {
    pub(crate) start: usize,
    pub(crate) count: usize,
}

/// The ranges of all inputs, one after another, and where the last one ends.
#[derive(Drop)]
pub(crate) struct SectionRanges {
    pub(crate) ranges: Vec<SectionRange>,
    pub(crate) end: usize,
}

/// The ranges of inputs with these counts of sections.
fn ranges_of_counts(alloc: Global, counts: &[usize]) -> Result<SectionRanges, NoMemory>
    ensures ranges { IfOk result (λ made. made.ranges.items ≡ ranges_from 0 counts.now) }
    ensures end { IfOk result (λ made. made.end ≡ ranges_end 0 counts.now) }
{
    let Ok(mut ranges) = Vec::with_capacity(alloc, counts.len()) else {
        return Err(NoMemory);
    };
    let mut end: usize = 0;
    for count in counts {
        let range = SectionRange {
            start: end,
            count: *count,
        };
        if ranges.push(range).is_err() {
            return Err(NoMemory);
        }
        let Some(next) = end.checked_add(*count) else {
            return Err(NoMemory);
        };
        end = next;
    }
    Ok(SectionRanges { ranges, end })
}

/// The ranges of inputs with these counts of sections: they are one after another, and each has as many sections as
/// its input.
///
/// # Errors
/// Out of memory. A list of 2^64 sections, which no memory can have, is answered so too.
pub(crate) fn section_ranges(alloc: Global, counts: &[usize]) -> Result<SectionRanges, NoMemory>
    ensures fit { IfOk result (λ made. Fit made.ranges.items) }
    ensures laid { IfOk result (λ made. AreConsecutive 0 made.ranges.items made.end) }
    ensures counted { IfOk result (λ made. (n : ℕ) → count_in made.ranges.items n ≡ get_or counts.now n 0) }
{
    let made = ranges_of_counts(alloc, counts)?;
    Ok(made)
}

/// The index of a section in the dense list; none for one that is not among those of its input.
fn index_of(range: SectionRange, section: u32) -> Option<usize>
    requires { range.start + range.count < 2 ^ 64 }
    ensures { result ≡ index_of (Some range) section }
{
    let section = section as usize;
    if section < range.count {
        Some(range.start + section)
    } else {
        None
    }
}

/// The index of a section of an input in the dense list; none for one that has none.
pub(crate) fn index_in(ranges: &[SectionRange], input: u64, section: u32) -> Option<usize>
    requires { Fit ranges.now }
    ensures { result ≡ index_in ranges.now input section }
{
    match ranges.get(input as usize) {
        None => None,
        Some(range) => index_of(*range, section),
    }
}
