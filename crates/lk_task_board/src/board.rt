//! The board: what tasks need, how far each is, and which is the lowest runnable one.

ghost use Rattle.std.specs.Prelude.{◌≡◌, ℕ, ◌+◌, ◌<◌, ◌≤◌, ◌^◌, true, false, not, ◌&&◌, ◌||◌, length, IfOk};
ghost use Rattle.lk_task_runs.specs.Below.{has, first_below};
ghost use Rattle.lk_task_runs.specs.Phases as far;
ghost use Rattle.lk_task_runs.specs.Turns.{all_waiting};
ghost use Rattle.lk_task_board.specs.Trees.{mark};
ghost use Rattle.lk_task_board.specs.Tokens as say;
ghost use Rattle.lk_task_board.specs.Boards.{with_phase};

use crate::beginning::{count_releases, mark_ready};
use crate::locking::{is_free, lock_task, unlock_task};
use crate::lookups::{is_running, need_at};
use crate::releasing::release;
use crate::token_counts::{blockers_of, locks_of};
use crate::trees::MarkTree;
use crate::waiters::{Waiters, link_waiters};
use lk_report::NoMemory;
use lk_task_runs::{Needs, Phase};
use lk_token::Tokens;
use std::alloc::Global;
use std::marker::Model;

/// What tasks need, and how far each is. Contracts see it as these two lists.
#[derive(Drop)]
pub struct Board {
    needs: Vec<Needs>,
    phases: Vec<Phase>,
    tokens: Tokens,
    /// The tasks that nobody has taken and whose blocker's count is 0.
    ready: MarkTree,
    waiters: Waiters,
    /// How many tasks are not done.
    left: u32,
    /// Whether a task reported out of memory.
    stopped: bool,
}

impl Model for Board {
    ghost use Rattle.lk_task_board.specs.Boards.{BoardState, IsBoard};

    ghost Value = { BoardState };

    ghost view = { λ b. record { needs = b.needs.items; phases = b.phases.items } };

    ghost invariant = { λ b. IsBoard b.needs.items b.phases.items b.tokens b.ready b.waiters.first.items b.waiters.next.items b.left b.stopped };
}

/// The lowest task that is ready and whose locks are free.
fn lowest_free(needs: &[Needs], tokens: &Tokens, ready: &MarkTree) -> Option<u32>
    requires few { length needs.now < 2 ^ 32 }
    requires room { length needs.now ≤ length ready.now }
    requires past { (k : ℕ) → length needs.now ≤ k → mark ready.now k ≡ false }
    requires known { (t l : ℕ) → has l (far.need needs.now t).locks ≡ true → l < length tokens.now.locked }
    ensures { result ≡ first_below (λ k. mark ready.now k && say.are_free tokens.now (far.need needs.now k).locks) (length needs.now) }
{
    let mut from = 0;
    while let Some(task) = ready.first_from(from) {
        let number = task as u32;
        if is_free(needs, tokens, number) {
            return Some(number);
        }
        from = task + 1;
    }
    None
}

/// Whether a task reported out of memory, once one more is done.
fn has_stopped(before: bool, wrote: bool) -> bool
    ensures { result ≡ (before || not wrote) }
{
    before || !wrote
}

/// A number of tokens, where one this great can be had.
///
/// # Errors
/// Out of memory.
fn token_count(count: u64) -> Result<u32, NoMemory>
    ensures { IfOk result (λ n. n ≡ count) }
{
    match u32::try_from(count) {
        Ok(count) => Ok(count),
        Err(_) => Err(NoMemory),
    }
}

/// The tokens of tasks that speak of so many blockers, before any was taken.
fn tokens_of(alloc: Global, needs: &[Needs], blockers: u32) -> Result<Tokens, NoMemory>
    requires few { length needs.now < 2 ^ 32 }
    requires waits { (t b : ℕ) → far.is_token b (far.need needs.now t).waits ≡ true → b < blockers }
    requires releases { (t b : ℕ) → far.is_token b (far.need needs.now t).releases ≡ true → b < blockers }
    ensures { IfOk result (λ t. say.AreFirst needs.now blockers t) }
{
    let locks = token_count(locks_of(needs))?;
    let mut tokens = Tokens::new(alloc, blockers, locks)?;
    count_releases(needs, &mut tokens);
    Ok(tokens)
}

/// The phases of so many tasks, of which none was taken.
fn no_phases(alloc: Global, count: usize) -> Result<Vec<Phase>, NoMemory>
    ensures { IfOk result (λ p. p.items ≡ all_waiting count) }
{
    match Vec::from_elem(alloc, Phase::Waiting, count) {
        Ok(phases) => Ok(phases),
        Err(_) => Err(NoMemory),
    }
}

impl Board {
    /// The board of these tasks, of which none was taken. It takes memory for each token up to the greatest one.
    ///
    /// # Errors
    /// Out of memory.
    pub fn new(alloc: Global, needs: Vec<Needs>) -> Result<Self, NoMemory>
        requires { length needs.items < 2 ^ 32 }
        ensures { IfOk result (λ b. b ≡ record { needs = needs.items; phases = all_waiting (length needs.items) }) }
    {
        let blockers = token_count(blockers_of(&needs))?;
        let tokens = tokens_of(alloc, &needs, blockers)?;
        let waiters = link_waiters(alloc, &needs, blockers)?;
        let mut ready = MarkTree::new(alloc, needs.len())?;
        mark_ready(&needs, &tokens, &mut ready);
        let phases = no_phases(alloc, needs.len())?;
        let left = needs.len() as u32;
        Ok(Board {
            needs,
            phases,
            tokens,
            ready,
            waiters,
            left,
            stopped: false,
        })
    }

    /// Whether a task reported out of memory.
    pub fn is_stopped(&self) -> bool
        ensures { result ≡ far.is_stopped self.now.phases }
    {
        self.stopped
    }

    /// Whether every task is done.
    pub fn is_all_done(&self) -> bool
        ensures { result ≡ far.is_all_done self.now.phases }
    {
        self.left == 0
    }

    /// Whether a task runs. It goes over all tasks.
    pub fn is_one_running(&self) -> bool
        ensures { result ≡ far.is_one_running self.now.phases }
    {
        self.phases.iter().any(|p| is_running(*p))
    }

    /// The runnable task of lowest number.
    pub fn lowest(&self) -> Option<u32>
        ensures { result ≡ far.lowest_runnable self.now.needs self.now.phases }
    {
        lowest_free(&self.needs, &self.tokens, &self.ready)
    }

    /// What a task needs.
    pub fn needs(&self, task: u32) -> &Needs
        requires { task < length self.now.needs }
        ensures { result.now ≡ far.need self.now.needs task }
    {
        need_at(&self.needs, task)
    }

    /// Says that a worker runs a task.
    pub fn start(&mut self, worker: u32, task: u32)
        requires there { task < length self.old.needs }
        requires runnable { far.is_runnable self.old.needs self.old.phases task ≡ true }
        ensures { self.new ≡ with_phase self.old task (Phase.Running worker) }
    {
        lock_task(&self.needs, &mut self.tokens, task);
        self.phases[task as usize] = Phase::Running(worker);
        self.ready.set(task as usize, false);
    }

    /// Says that a running task is done, and whether it has written.
    pub fn end(&mut self, task: u32, wrote: bool)
        requires there { task < length self.old.needs }
        requires running { far.is_running (far.phase_of self.old.phases task) ≡ true }
        ensures { self.new ≡ with_phase self.old task (Phase.Done wrote) }
    {
        unlock_task(&self.needs, &mut self.tokens, task);
        self.phases[task as usize] = Phase::Done(wrote);
        release(
            &self.needs,
            &self.phases,
            &self.waiters,
            &mut self.tokens,
            &mut self.ready,
            task,
        );
        self.left -= 1;
        self.stopped = has_stopped(self.stopped, wrote);
    }
}
