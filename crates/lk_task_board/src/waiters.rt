//! The tasks that wait for each blocker, linked by number.
//!
//! `first` has for each blocker the lowest task that waits for it, and `next` for each task the next one that waits for
//! the same blocker. Both have the number of tasks where there is none.

ghost use Rattle.std.specs.Prelude.{◌≡◌, ℕ, ◌+◌, ◌<◌, ◌≤◌, ◌^◌, true, length, slice_index, IfOk};
ghost use Rattle.lk_task_runs.specs.Phases.{need, is_token};
ghost use Rattle.lk_task_board.specs.Waiting.{AreLinkedFrom};

use crate::lookups::need_at;
use lk_report::NoMemory;
use lk_task_runs::Needs;
use std::alloc::Global;

/// The tasks that wait for each blocker.
#[derive(Drop)]
pub struct Waiters {
    pub first: Vec<u32>,
    pub next: Vec<u32>,
}

/// Links a task before the higher ones that wait for the same blocker.
fn link_task(needs: &[Needs], first: &mut [u32], next: &mut [u32], task: u32)
    requires there { task < length needs.now }
    requires known { (t b : ℕ) → is_token b (need needs.now t).waits ≡ true → b < length first.old }
    requires linked { AreLinkedFrom needs.now (length first.old) (task + 1) first.old next.old }
    ensures { AreLinkedFrom needs.now (length first.old) task first.new next.new }
{
    if let Some(token) = need_at(needs, task).waits {
        next[task as usize] = first[token as usize];
        first[token as usize] = task;
    }
}

/// Links all tasks, the highest one first.
fn link_all(needs: &[Needs], first: &mut [u32], next: &mut [u32])
    requires few { length needs.now < 2 ^ 32 }
    requires known { (t b : ℕ) → is_token b (need needs.now t).waits ≡ true → b < length first.old }
    requires linked { AreLinkedFrom needs.now (length first.old) (length needs.now) first.old next.old }
    ensures { AreLinkedFrom needs.now (length first.old) 0 first.new next.new }
{
    let mut task = needs.len() as u32;
    while task > 0 {
        task -= 1;
        link_task(needs, first, next, task);
    }
}

/// The tasks that wait for each of so many blockers.
///
/// # Errors
/// Out of memory.
pub fn link_waiters(alloc: Global, needs: &[Needs], blockers: u32) -> Result<Waiters, NoMemory>
    requires few { length needs.now < 2 ^ 32 }
    requires known { (t b : ℕ) → is_token b (need needs.now t).waits ≡ true → b < blockers }
    ensures { IfOk result (λ w. AreLinkedFrom needs.now blockers 0 w.first.items w.next.items) }
{
    let none = needs.len() as u32;
    let Ok(mut first) = Vec::from_elem(alloc, none, blockers as usize) else {
        return Err(NoMemory);
    };
    let Ok(mut next) = Vec::from_elem(alloc, none, needs.len()) else {
        return Err(NoMemory);
    };
    link_all(needs, &mut first, &mut next);
    Ok(Waiters { first, next })
}
