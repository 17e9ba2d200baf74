//! The first task that is not ordered.

ghost use Rattle.std.specs.Prelude.{◌≡◌, ℕ, ◌+◌, ◌-◌, ◌<◌, ◌≤◌, ◌^◌, true, false, length, slice_index, IfOk};
ghost use Rattle.lk_task_runs.specs.Below.{has};
ghost use Rattle.lk_task_runs.specs.Phases.{need, is_token};
ghost use Rattle.lk_task_runs.specs.Orders as orders;
ghost use Rattle.lk_task_order.specs.Seen.{AreSeen, IsLastReleaser};

use crate::seen::{gather, no_readers, note, zeros};
use crate::sweeping::is_after_all;
use lk_report::{List, NoMemory};
use lk_task_board::{blockers_of, need_at, past_all};
use lk_task_runs::Needs;
use std::alloc::Global;

/// How many slots the tasks speak of, which are numbered from 0.
fn slots_of(needs: &[Needs]) -> u64
    requires { length needs.now < 2 ^ 32 }
    ensures few { result ≤ 2 ^ 32 }
    ensures reads { (t m : ℕ) → has m (need needs.now t).reads ≡ true → m < result }
    ensures writes { (t m : ℕ) → has m (need needs.now t).writes ≡ true → m < result }
{
    let mut past = 0;
    for task in 0..needs.len() as u32 {
        let one = need_at(needs, task);
        past = past_all(one.writes.as_slice(), past_all(one.reads.as_slice(), past));
    }
    past
}

/// For each of so many blockers one more than the last task that releases it, or 0.
fn last_releasers(alloc: Global, needs: &[Needs], blockers: u64) -> Result<Vec<u32>, NoMemory>
    requires few { length needs.now < 2 ^ 32 }
    requires known { (t b : ℕ) → is_token b (need needs.now t).releases ≡ true → b < blockers }
    ensures size { IfOk result (λ v. length v.items ≡ blockers) }
    ensures last { IfOk result (λ v. (b : ℕ) → b < blockers → IsLastReleaser needs.now b (length needs.now) (slice_index v.items b)) }
{
    let mut last = zeros(alloc, blockers)?;
    for task in 0..needs.len() as u32 {
        if let Some(token) = need_at(needs, task).releases {
            last[token as usize] = task + 1;
        }
    }
    Ok(last)
}

/// Whether a task waits for a blocker that a task of equal or higher number releases.
fn waits_ahead(needs: &[Needs], releasers: &[u32], task: u32) -> bool
    requires there { task < length needs.now }
    requires known { (b : ℕ) → is_token b (need needs.now task).waits ≡ true → b < length releasers.now }
    requires last { (b : ℕ) → b < length releasers.now → IsLastReleaser needs.now b (length needs.now) (slice_index releasers.now b) }
    ensures { result ≡ orders.waits_ahead needs.now task }
{
    match need_at(needs, task).waits {
        None => false,
        Some(token) => releasers[token as usize] > task,
    }
}

/// Whether a task shares a written slot with an earlier one that it is not after, where the earlier ones are ordered.
///
/// # Errors
/// Out of memory.
fn clashes(
    needs: &[Needs],
    writers: &[u32],
    readers: &[List<u32>],
    reached: &mut [u32],
    before: &mut Vec<u32>,
    task: u32,
    slots: u64,
) -> Result<bool, NoMemory>
    requires there { task < length needs.now }
    requires few { task < 2 ^ 32 - 1 }
    requires seen { AreSeen needs.now slots task writers.now readers.now }
    requires reads { (m : ℕ) → has m (need needs.now task).reads ≡ true → m < slots }
    requires writes { (m : ℕ) → has m (need needs.now task).writes ≡ true → m < slots }
    requires waits { (t b : ℕ) → is_token b (need needs.now t).waits ≡ true → b < length reached.old }
    requires releases { (t b : ℕ) → is_token b (need needs.now t).releases ≡ true → b < length reached.old }
    requires least { (b : ℕ) → slice_index reached.old b ≤ task }
    requires ordered { (x : ℕ) → x ≤ task → orders.waits_ahead needs.now x ≡ false }
    requires lower { (x : ℕ) → x < task → orders.clashes needs.now x ≡ false }
    ensures clash { IfOk result (λ r. r ≡ orders.clashes needs.now task) }
    ensures least { (b : ℕ) → slice_index reached.new b ≤ task + 1 }
{
    gather(need_at(needs, task), writers, readers, before)?;
    let after = is_after_all(needs, reached, before.as_slice(), task);
    Ok(!after)
}

/// The first task that is not ordered.
///
/// # Errors
/// Out of memory.
pub fn first_not_ordered(alloc: Global, needs: &[Needs]) -> Result<Option<u32>, NoMemory>
    requires { length needs.now < 2 ^ 32 }
    ensures { IfOk result (λ o. o ≡ orders.first_not_ordered needs.now) }
{
    let blockers = blockers_of(needs);
    let slots = slots_of(needs);
    let releasers = last_releasers(alloc, needs, blockers)?;
    let mut reached = zeros(alloc, blockers)?;
    let mut writers = zeros(alloc, slots)?;
    let mut readers = no_readers(alloc, slots)?;
    let mut before = Vec::new(alloc);
    for task in 0..needs.len() as u32 {
        if waits_ahead(needs, &releasers, task) {
            return Ok(Some(task));
        }
        let clash = clashes(
            needs,
            &writers,
            &readers,
            &mut reached,
            &mut before,
            task,
            slots,
        )?;
        if clash {
            return Ok(Some(task));
        }
        note(
            alloc,
            need_at(needs, task),
            &mut writers,
            &mut readers,
            task,
        )?;
    }
    Ok(None)
}
