//! The locks that a task takes, all at once.

ghost use Rattle.std.specs.Prelude.{◌≡◌, ℕ, ◌<◌, true, not, ◌&&◌, ◌||◌, length, nat_eq};
ghost use Rattle.lk_token.specs.TokenStates.{is_locked};
ghost use Rattle.lk_task_runs.specs.Below.{has};
ghost use Rattle.lk_task_runs.specs.Phases.{need};
ghost use Rattle.lk_task_board.specs.Tokens as tokens_say;

use crate::lookups::need_at;
use lk_task_runs::Needs;
use lk_token::Tokens;

/// Locks these locks.
fn lock_all(tokens: &mut Tokens, locks: &[u32])
    requires { (l : ℕ) → has l locks.now ≡ true → l < length tokens.old.locked }
    ensures counts { tokens.new.counts ≡ tokens.old.counts }
    ensures size { length tokens.new.locked ≡ length tokens.old.locked }
    ensures locked { (l : ℕ) → is_locked tokens.new l ≡ (is_locked tokens.old l || has l locks.now) }
{
    for lock in locks {
        let _was_free = tokens.lock(*lock);
    }
}

/// Unlocks a lock. One that is not locked stays so.
fn unlock(tokens: &mut Tokens, lock: u32)
    requires { lock < length tokens.old.locked }
    ensures counts { tokens.new.counts ≡ tokens.old.counts }
    ensures size { length tokens.new.locked ≡ length tokens.old.locked }
    ensures locked { (l : ℕ) → is_locked tokens.new l ≡ (is_locked tokens.old l && not (nat_eq lock l)) }
{
    if tokens.is_locked(lock) {
        tokens.unlock(lock);
    }
}

/// Unlocks these locks. One that is in the list twice is unlocked once.
fn unlock_all(tokens: &mut Tokens, locks: &[u32])
    requires { (l : ℕ) → has l locks.now ≡ true → l < length tokens.old.locked }
    ensures counts { tokens.new.counts ≡ tokens.old.counts }
    ensures size { length tokens.new.locked ≡ length tokens.old.locked }
    ensures locked { (l : ℕ) → is_locked tokens.new l ≡ (is_locked tokens.old l && not (has l locks.now)) }
{
    for lock in locks {
        unlock(tokens, *lock);
    }
}

/// Whether none of these locks is locked.
fn are_free(tokens: &Tokens, locks: &[u32]) -> bool
    requires { (l : ℕ) → has l locks.now ≡ true → l < length tokens.now.locked }
    ensures { result ≡ tokens_say.are_free tokens.now locks.now }
{
    for lock in locks {
        if tokens.is_locked(*lock) {
            return false;
        }
    }
    true
}

/// Locks the locks of a task.
pub fn lock_task(needs: &[Needs], tokens: &mut Tokens, task: u32)
    requires there { task < length needs.now }
    requires known { (l : ℕ) → has l (need needs.now task).locks ≡ true → l < length tokens.old.locked }
    ensures counts { tokens.new.counts ≡ tokens.old.counts }
    ensures size { length tokens.new.locked ≡ length tokens.old.locked }
    ensures locked { (l : ℕ) → is_locked tokens.new l ≡ (is_locked tokens.old l || has l (need needs.now task).locks) }
{
    lock_all(tokens, need_at(needs, task).locks.as_slice());
}

/// Unlocks the locks of a task.
pub fn unlock_task(needs: &[Needs], tokens: &mut Tokens, task: u32)
    requires there { task < length needs.now }
    requires known { (l : ℕ) → has l (need needs.now task).locks ≡ true → l < length tokens.old.locked }
    ensures counts { tokens.new.counts ≡ tokens.old.counts }
    ensures size { length tokens.new.locked ≡ length tokens.old.locked }
    ensures locked { (l : ℕ) → is_locked tokens.new l ≡ (is_locked tokens.old l && not (has l (need needs.now task).locks)) }
{
    unlock_all(tokens, need_at(needs, task).locks.as_slice());
}

/// Whether the locks of a task are free.
pub fn is_free(needs: &[Needs], tokens: &Tokens, task: u32) -> bool
    requires there { task < length needs.now }
    requires known { (l : ℕ) → has l (need needs.now task).locks ≡ true → l < length tokens.now.locked }
    ensures { result ≡ tokens_say.are_free tokens.now (need needs.now task).locks }
{
    are_free(tokens, need_at(needs, task).locks.as_slice())
}
