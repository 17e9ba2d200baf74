//! How many inputs before it have the path of an input.

ghost use Rattle.std.specs.Prelude.{◌≡◌, ◌+◌, [], map, IfOk};
ghost use Rattle.lk_records.specs.Occurrences.{PathNoted, count_under, name_path, occurrences_after};

use indexmap::IndexMap;
use lk_model::input_names::InputName;
use lk_model::summaries::NumberList;
use lk_report::{List, NoMemory};
use std::alloc::Global;

/// How often a path was noted.
fn count_in(counts: &IndexMap<&[u8], u32>, path: &[u8]) -> u32
    ensures { result ≡ count_under counts.now.entries path.now }
{
    match counts.get(path) {
        Some(count) => *count,
        None => 0,
    }
}

/// The count after this one; one that has no room in 32 bits is answered as out of memory.
fn next_count(count: u32) -> Result<u32, NoMemory>
    ensures { IfOk result (λ next. next ≡ count + 1) }
{
    match count.checked_add(1) {
        Some(next) => Ok(next),
        None => Err(NoMemory),
    }
}

/// Notes a path once more: how often it was noted before.
fn note_path<'f>(counts: &mut IndexMap<&'f [u8], u32>, path: &'f [u8]) -> Result<u32, NoMemory>
    ensures { IfOk result (λ count. PathNoted counts.old.entries path.now count counts.new.entries) }
{
    let before = count_in(counts, path);
    let now = next_count(before)?;
    match counts.insert(path, now) {
        Ok(_) => Ok(before),
        Err(_) => Err(NoMemory),
    }
}

/// For each input the number of those before it that have its path.
///
/// # Errors
/// Out of memory alone.
pub fn occurrences_of<'f>(alloc: Global, names: &'f [InputName]) -> Result<NumberList, NoMemory>
    ensures { IfOk result (λ counts. counts ≡ occurrences_after [] (map name_path names.now)) }
{
    let mut counts: IndexMap<&'f [u8], u32> = IndexMap::new(alloc);
    let mut occurrences = List::new(alloc);
    for name in names {
        occurrences.push(note_path(&mut counts, name.path.as_slice())?)?;
    }
    Ok(occurrences)
}
