//! How many tokens tasks speak of.

ghost use Rattle.std.specs.Prelude.{◌≡◌, ℕ, ◌<◌, ◌≤◌, ◌^◌, true, length};
ghost use Rattle.lk_task_runs.specs.Below.{has};
ghost use Rattle.lk_task_runs.specs.Phases.{need, is_token};

use crate::lookups::need_at;
use lk_task_runs::Needs;

/// The greater of a number and one more than a token that there may be.
fn past_token(token: Option<u32>, least: u64) -> u64
    requires { least ≤ 2 ^ 32 }
    ensures kept { least ≤ result }
    ensures few { result ≤ 2 ^ 32 }
    ensures past { (b : ℕ) → is_token b token ≡ true → b < result }
{
    match token {
        None => least,
        Some(token) => least.max(u64::from(token) + 1),
    }
}

/// The greater of a number and one more than each of these numbers.
pub fn past_all(numbers: &[u32], least: u64) -> u64
    requires { least ≤ 2 ^ 32 }
    ensures kept { least ≤ result }
    ensures few { result ≤ 2 ^ 32 }
    ensures past { (b : ℕ) → has b numbers.now ≡ true → b < result }
{
    let mut past = least;
    for number in numbers {
        past = past.max(u64::from(*number) + 1);
    }
    past
}

/// How many blockers the tasks speak of, which are numbered from 0.
pub fn blockers_of(needs: &[Needs]) -> u64
    requires { length needs.now < 2 ^ 32 }
    ensures few { result ≤ 2 ^ 32 }
    ensures waits { (t b : ℕ) → is_token b (need needs.now t).waits ≡ true → b < result }
    ensures releases { (t b : ℕ) → is_token b (need needs.now t).releases ≡ true → b < result }
{
    let mut past = 0;
    for task in 0..needs.len() as u32 {
        let one = need_at(needs, task);
        past = past_token(one.releases, past_token(one.waits, past));
    }
    past
}

/// How many locks the tasks speak of, which are numbered from 0.
pub fn locks_of(needs: &[Needs]) -> u64
    requires { length needs.now < 2 ^ 32 }
    ensures few { result ≤ 2 ^ 32 }
    ensures past { (t l : ℕ) → has l (need needs.now t).locks ≡ true → l < result }
{
    let mut past = 0;
    for task in 0..needs.len() as u32 {
        past = past_all(need_at(needs, task).locks.as_slice(), past);
    }
    past
}
