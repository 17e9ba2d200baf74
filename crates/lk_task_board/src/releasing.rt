//! What becomes of the tasks that wait for a blocker when one task less counts for it.

ghost use Rattle.std.specs.Prelude.{◌≡◌, ℕ, ◌<◌, ◌≤◌, ◌^◌, true, false, length, MatchOption};
ghost use Rattle.lk_token.specs.TokenStates.{count_of};
ghost use Rattle.lk_task_runs.specs.Phases.{need, is_token};
ghost use Rattle.lk_task_board.specs.Trees.{mark};
ghost use Rattle.lk_task_board.specs.Tokens.{after_release};
ghost use Rattle.lk_task_board.specs.Waiting.{AreLinkedFrom, ready_after, woken};

use crate::lookups::{is_waiting, need_at};
use crate::trees::MarkTree;
use crate::waiters::Waiters;
use lk_task_runs::{Needs, Phase};
use lk_token::Tokens;

/// Wakes the tasks that wait for a blocker: each is ready unless it was taken.
fn wake(needs: &[Needs], phases: &[Phase], waiters: &Waiters, ready: &mut MarkTree, token: u32)
    requires few { length needs.now < 2 ^ 32 }
    requires size { length phases.now ≡ length needs.now }
    requires room { length needs.now ≤ length ready.old }
    requires there { token < length waiters.now.first.items }
    requires linked { AreLinkedFrom needs.now (length waiters.now.first.items) 0 waiters.now.first.items waiters.now.next.items }
    ensures room { length ready.new ≡ length ready.old }
    ensures woken { (k : ℕ) → mark ready.new k ≡ woken needs.now phases.now token (mark ready.old k) k }
{
    let mut task = waiters.first[token as usize];
    while (task as usize) < needs.len() {
        ready.set(task as usize, is_waiting(phases, task));
        task = waiters.next[task as usize];
    }
}

/// Releases the blocker that a task releases, if there is one: one task less counts for it, and where none is left the
/// tasks that wait for it are woken.
pub fn release(
    needs: &[Needs],
    phases: &[Phase],
    waiters: &Waiters,
    tokens: &mut Tokens,
    ready: &mut MarkTree,
    task: u32,
)
    requires few { length needs.now < 2 ^ 32 }
    requires size { length phases.now ≡ length needs.now }
    requires here { task < length needs.now }
    requires room { length needs.now ≤ length ready.old }
    requires linked { AreLinkedFrom needs.now (length tokens.old.counts) 0 waiters.now.first.items waiters.now.next.items }
    requires there { (b : ℕ) → is_token b (need needs.now task).releases ≡ true → b < length tokens.old.counts }
    requires counted { (b : ℕ) → is_token b (need needs.now task).releases ≡ true → 0 < count_of tokens.old b }
    ensures tokens { tokens.new ≡ after_release tokens.old (need needs.now task).releases }
    ensures room { length ready.new ≡ length ready.old }
    ensures ready { (k : ℕ) → mark ready.new k ≡ ready_after needs.now phases.now tokens.new (need needs.now task).releases (mark ready.old k) k }
{
    if let Some(token) = need_at(needs, task).releases {
        tokens.unblock(token);
        if !tokens.is_blocked(token) {
            wake(needs, phases, waiters, ready, token);
        }
    }
}
