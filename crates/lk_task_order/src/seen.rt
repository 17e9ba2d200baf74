//! The last writer of each slot and the readers since, as far as the tasks were looked at.

ghost use Rattle.std.specs.Prelude.{◌≡◌, ℕ, ◌+◌, ◌-◌, ◌<◌, ◌^◌, ◌++◌, ◌∷◌, ◌||◌, ◌&&◌, ◌==◌, [], true, cond, length, replicate, slice_index, slice_index_or, slice_set, IfOk, OnOk};
ghost use Rattle.lk_task_runs.specs.Below.{has};
ghost use Rattle.std.specs.List.{list_any};
ghost use Rattle.lk_task_order.specs.Seen.{IsNoted, is_gathered};

use lk_report::{List, NoMemory};
use lk_task_runs::Needs;
use std::alloc::Global;

/// So many numbers that are 0.
pub fn zeros(alloc: Global, count: u64) -> Result<Vec<u32>, NoMemory>
    ensures { IfOk result (λ v. v.items ≡ replicate count 0) }
{
    match Vec::from_elem(alloc, 0u32, count as usize) {
        Ok(numbers) => Ok(numbers),
        Err(_) => Err(NoMemory),
    }
}

/// So many empty lists.
pub fn no_readers(alloc: Global, count: u64) -> Result<Vec<List<u32>>, NoMemory>
    ensures { IfOk result (λ v. v.items ≡ replicate count []) }
{
    let mut lists = Vec::new(alloc);
    for _number in 0..count {
        if lists.push(List::new(alloc)).is_err() {
            return Err(NoMemory);
        }
    }
    Ok(lists)
}

/// Puts a task at the end of the readers of a slot.
fn push_reader(readers: &mut Vec<List<u32>>, slot: u32, task: u32) -> Result<(), NoMemory>
    requires { slot < length readers.old.items }
    ensures { OnOk result (readers.new.items ≡ slice_set readers.old.items slot (slice_index_or readers.old.items slot [] ++ task ∷ [])) }
{
    readers[slot as usize].push(task)
}

/// Notes that a task reads these slots.
fn note_reads(readers: &mut Vec<List<u32>>, reads: &[u32], task: u32) -> Result<(), NoMemory>
    requires { (m : ℕ) → has m reads.now ≡ true → m < length readers.old.items }
    ensures size { OnOk result (length readers.new.items ≡ length readers.old.items) }
    ensures noted { OnOk result ((m t : ℕ) → has t (slice_index_or readers.new.items m []) ≡ (has t (slice_index_or readers.old.items m []) || (task == t && has m reads.now))) }
{
    for slot in reads {
        push_reader(readers, *slot, task)?;
    }
    Ok(())
}

/// Notes that a task writes these slots: it is their last writer, and nobody has read them since.
fn note_writes(
    alloc: Global,
    writers: &mut Vec<u32>,
    readers: &mut Vec<List<u32>>,
    writes: &[u32],
    task: u32,
)
    requires few { task < 2 ^ 32 - 1 }
    requires writers { (m : ℕ) → has m writes.now ≡ true → m < length writers.old.items }
    requires readers { (m : ℕ) → has m writes.now ≡ true → m < length readers.old.items }
    ensures writers_size { length writers.new.items ≡ length writers.old.items }
    ensures readers_size { length readers.new.items ≡ length readers.old.items }
    ensures writers { (m : ℕ) → slice_index writers.new.items m ≡ cond (has m writes.now) (task + 1) (slice_index writers.old.items m) }
    ensures readers { (m : ℕ) → slice_index_or readers.new.items m [] ≡ cond (has m writes.now) [] (slice_index_or readers.old.items m []) }
{
    for slot in writes {
        writers[*slot as usize] = task + 1;
        readers[*slot as usize] = List::new(alloc);
    }
}

/// Notes what a task reads and writes.
pub fn note(
    alloc: Global,
    needs: &Needs,
    writers: &mut Vec<u32>,
    readers: &mut Vec<List<u32>>,
    task: u32,
) -> Result<(), NoMemory>
    requires few { task < 2 ^ 32 - 1 }
    requires reads { (m : ℕ) → has m needs.now.reads ≡ true → m < length readers.old.items }
    requires writers { (m : ℕ) → has m needs.now.writes ≡ true → m < length writers.old.items }
    requires sizes { length writers.old.items ≡ length readers.old.items }
    ensures { OnOk result (IsNoted needs.now task writers.old.items readers.old.items writers.new.items readers.new.items) }
{
    note_reads(readers, needs.reads.as_slice(), task)?;
    note_writes(alloc, writers, readers, needs.writes.as_slice(), task);
    Ok(())
}

/// Puts the last writer of a slot at the end of a list, where there is one.
fn push_writer(before: &mut Vec<u32>, writer: u32) -> Result<(), NoMemory>
    ensures { OnOk result ((t : ℕ) → has t before.new.items ≡ (has t before.old.items || (writer == t + 1))) }
{
    if writer > 0 {
        if before.push(writer - 1).is_err() {
            return Err(NoMemory);
        }
    }
    Ok(())
}

/// Puts the last writers of slots at the end of a list.
fn push_writers(before: &mut Vec<u32>, writers: &[u32], slots: &[u32]) -> Result<(), NoMemory>
    requires { (m : ℕ) → has m slots.now ≡ true → m < length writers.now }
    ensures { OnOk result ((t : ℕ) → has t before.new.items ≡ (has t before.old.items || list_any (λ m. slice_index writers.now m == t + 1) slots.now)) }
{
    for slot in slots {
        push_writer(before, writers[*slot as usize])?;
    }
    Ok(())
}

/// The readers of a slot.
fn readers_of(readers: &[List<u32>], slot: u32) -> &[u32]
    requires { slot < length readers.now }
    ensures { result.now ≡ slice_index_or readers.now slot [] }
{
    readers[slot as usize].as_slice()
}

/// Puts tasks at the end of a list.
fn push_all(before: &mut Vec<u32>, more: &[u32]) -> Result<(), NoMemory>
    ensures { OnOk result ((t : ℕ) → has t before.new.items ≡ (has t before.old.items || has t more.now)) }
{
    match before.extend_from_slice(more) {
        Ok(()) => Ok(()),
        Err(_) => Err(NoMemory),
    }
}

/// Puts the readers of slots at the end of a list.
fn push_readers(before: &mut Vec<u32>, readers: &[List<u32>], slots: &[u32]) -> Result<(), NoMemory>
    requires { (m : ℕ) → has m slots.now ≡ true → m < length readers.now }
    ensures { OnOk result ((t : ℕ) → has t before.new.items ≡ (has t before.old.items || list_any (λ m. has t (slice_index_or readers.now m [])) slots.now)) }
{
    for slot in slots {
        push_all(before, readers_of(readers, *slot))?;
    }
    Ok(())
}

/// The tasks that a task must be after, in place of what the list had: the last writer of each slot that it touches, and
/// for each that it writes the readers since.
pub fn gather(
    needs: &Needs,
    writers: &[u32],
    readers: &[List<u32>],
    before: &mut Vec<u32>,
) -> Result<(), NoMemory>
    requires reads { (m : ℕ) → has m needs.now.reads ≡ true → m < length writers.now }
    requires writes { (m : ℕ) → has m needs.now.writes ≡ true → m < length writers.now }
    requires sizes { length writers.now ≡ length readers.now }
    ensures { OnOk result ((t : ℕ) → has t before.new.items ≡ is_gathered needs.now writers.now readers.now t) }
{
    before.clear();
    push_writers(before, writers, needs.reads.as_slice())?;
    push_writers(before, writers, needs.writes.as_slice())?;
    push_readers(before, readers, needs.writes.as_slice())
}
