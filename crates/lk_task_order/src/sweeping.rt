//! Whether a task is after others by blockers.

ghost use Rattle.std.specs.Prelude.{◌≡◌, ℕ, ◌+◌, ◌-◌, ◌<◌, ◌≤◌, ◌^◌, ◌||◌, ◌==◌, true, false, length, slice_index, if◌then◌else◌};
ghost use Rattle.std.specs.List.{list_all};
ghost use Rattle.lk_task_runs.specs.Below.{has};
ghost use Rattle.lk_task_runs.specs.Phases.{need, is_token, blocks};
ghost use Rattle.lk_task_runs.specs.Orders.{is_after, waits_ahead};
ghost use Rattle.lk_task_order.specs.Sweeps.{AreSwept, passes_token, swept};

use lk_task_board::need_at;
use lk_task_runs::Needs;

/// Marks a blocker that there may be.
fn reach(reached: &mut [u32], token: Option<u32>, number: u32)
    requires { (b : ℕ) → is_token b token ≡ true → b < length reached.old }
    ensures { (b : ℕ) → slice_index reached.new b ≡ (if is_token b token then number else slice_index reached.old b) }
{
    if let Some(token) = token {
        reached[token as usize] = number;
    }
}

/// Whether a blocker that there may be is marked.
fn is_reached(reached: &[u32], token: Option<u32>, number: u32) -> bool
    requires { (b : ℕ) → is_token b token ≡ true → b < length reached.now }
    ensures { result ≡ passes_token (λ b. slice_index reached.now b == number) token }
{
    match token {
        None => false,
        Some(token) => reached[token as usize] == number,
    }
}

/// Marks the blockers that a task waits for, itself or by way of the tasks from `low` on.
fn sweep(needs: &[Needs], reached: &mut [u32], task: u32, low: u32)
    requires there { task < length needs.now }
    requires few { task < 2 ^ 32 - 1 }
    requires waits { (t b : ℕ) → is_token b (need needs.now t).waits ≡ true → b < length reached.old }
    requires releases { (t b : ℕ) → is_token b (need needs.now t).releases ≡ true → b < length reached.old }
    requires least { (b : ℕ) → slice_index reached.old b ≤ task }
    ensures { AreSwept needs.now task (task - low) (task + 1) reached.new }
{
    reach(reached, need_at(needs, task).waits, task + 1);
    let mut next = task;
    while next > low {
        next -= 1;
        let one = need_at(needs, next);
        if is_reached(reached, one.releases, task + 1) {
            reach(reached, one.waits, task + 1);
        }
    }
}

/// Whether a task waits for the very blocker that another one releases.
fn is_direct(needs: &[Needs], before: u32, task: u32) -> bool
    requires before { before < length needs.now }
    requires task { task < length needs.now }
    ensures { result ≡ blocks needs.now before task }
{
    match need_at(needs, task).waits {
        None => false,
        Some(token) => match need_at(needs, before).releases {
            None => false,
            Some(other) => other == token,
        },
    }
}

/// The least of these tasks that does not release the blocker that a task waits for, or the task.
fn lowest_left(needs: &[Needs], before: &[u32], task: u32) -> u32
    requires there { task < length needs.now }
    requires before { (t : ℕ) → has t before.now ≡ true → t < task }
    ensures within { result ≤ task }
    ensures direct { (t : ℕ) → has t before.now ≡ true → t < result → blocks needs.now t task ≡ true }
{
    let mut low = task;
    for other in before {
        if *other < low && !is_direct(needs, *other, task) {
            low = *other;
        }
    }
    low
}

/// Whether a task is after all of these lower ones by blockers.
pub fn is_after_all(needs: &[Needs], reached: &mut [u32], before: &[u32], task: u32) -> bool
    requires there { task < length needs.now }
    requires few { task < 2 ^ 32 - 1 }
    requires before { (t : ℕ) → has t before.now ≡ true → t < task }
    requires waits { (t b : ℕ) → is_token b (need needs.now t).waits ≡ true → b < length reached.old }
    requires releases { (t b : ℕ) → is_token b (need needs.now t).releases ≡ true → b < length reached.old }
    requires least { (b : ℕ) → slice_index reached.old b ≤ task }
    requires ordered { (x : ℕ) → x ≤ task → waits_ahead needs.now x ≡ false }
    ensures after { result ≡ list_all (λ t. is_after needs.now t task) before.now }
    ensures least { (b : ℕ) → slice_index reached.new b ≤ task + 1 }
{
    let low = lowest_left(needs, before, task);
    if low == task {
        return true;
    }
    sweep(needs, reached, task, low);
    are_reached(needs, reached, before, task)
}

/// Whether each of these tasks releases a blocker that is marked for a task.
fn are_reached(needs: &[Needs], reached: &[u32], before: &[u32], task: u32) -> bool
    requires few { task < 2 ^ 32 - 1 }
    requires before { (t : ℕ) → has t before.now ≡ true → t < length needs.now }
    requires releases { (t b : ℕ) → is_token b (need needs.now t).releases ≡ true → b < length reached.now }
    ensures { result ≡ list_all (λ t. passes_token (λ b. slice_index reached.now b == task + 1) (need needs.now t).releases) before.now }
{
    for other in before {
        if !is_reached(reached, need_at(needs, *other).releases, task + 1) {
            return false;
        }
    }
    true
}
