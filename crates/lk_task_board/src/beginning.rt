//! The parts of a board before any task was taken.

ghost use Rattle.std.specs.Prelude.{◌≡◌, ℕ, ◌<◌, ◌≤◌, ◌^◌, true, false, not, ◌&&◌, length, nat_lt};
ghost use Rattle.lk_token.specs.TokenStates.{count_of};
ghost use Rattle.lk_task_runs.specs.Below.{count_below};
ghost use Rattle.lk_task_runs.specs.Phases.{need, is_token};
ghost use Rattle.lk_task_board.specs.Trees.{mark};
ghost use Rattle.lk_task_board.specs.Tokens.{is_counted_up};

use crate::lookups::need_at;
use crate::trees::MarkTree;
use lk_task_runs::Needs;
use lk_token::Tokens;

/// Counts for each blocker the tasks that release it.
pub fn count_releases(needs: &[Needs], tokens: &mut Tokens)
    requires few { length needs.now < 2 ^ 32 }
    requires known { (t b : ℕ) → is_token b (need needs.now t).releases ≡ true → b < length tokens.old.counts }
    requires zero { (b : ℕ) → b < length tokens.old.counts → count_of tokens.old b ≡ 0 }
    ensures size { length tokens.new.counts ≡ length tokens.old.counts }
    ensures locked { tokens.new.locked ≡ tokens.old.locked }
    ensures counts { (b : ℕ) → b < length tokens.new.counts → count_of tokens.new b ≡ count_below (λ t. is_token b (need needs.now t).releases) (length needs.now) }
{
    for task in 0..needs.len() as u32 {
        if let Some(token) = need_at(needs, task).releases {
            tokens.add_blocker(token);
        }
    }
}

/// Whether the count of a blocker that there may be is 0.
fn is_open(tokens: &Tokens, waits: Option<u32>) -> bool
    requires { (b : ℕ) → is_token b waits ≡ true → b < length tokens.now.counts }
    ensures { result ≡ not (is_counted_up tokens.now waits) }
{
    match waits {
        None => true,
        Some(token) => !tokens.is_blocked(token),
    }
}

/// Marks the tasks whose blocker's count is 0.
pub fn mark_ready(needs: &[Needs], tokens: &Tokens, ready: &mut MarkTree)
    requires few { length needs.now < 2 ^ 32 }
    requires known { (t b : ℕ) → is_token b (need needs.now t).waits ≡ true → b < length tokens.now.counts }
    requires room { length needs.now ≤ length ready.old }
    requires none { (k : ℕ) → mark ready.old k ≡ false }
    ensures room { length ready.new ≡ length ready.old }
    ensures ready { (k : ℕ) → mark ready.new k ≡ (nat_lt k (length needs.now) && not (is_counted_up tokens.now (need needs.now k).waits)) }
{
    for task in 0..needs.len() as u32 {
        let open = is_open(tokens, need_at(needs, task).waits);
        ready.set(task as usize, open);
    }
}
