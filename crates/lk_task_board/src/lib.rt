//! Which tasks are runnable, kept up to date as tasks are taken and finished.
//!
//! What the tasks need comes in (`Board::new`), then which task is taken and which is finished. Out comes the runnable
//! task of lowest number, whether every task is done, and whether one reported out of memory, each exactly as
//! lk_task_runs defines it (specs/Phases.antt there). Contracts see a board as what the tasks need and how far each is.
//!
//! Counts of blockers and locks are lk_token's. The tasks that nobody has taken and whose blocker's count is 0 are
//! marked in a binary tree (trees.rt), so that the lowest one is found in log time; one whose locks are locked is passed
//! over. The tasks that wait for a blocker are linked (waiters.rt), and woken once, when its count becomes 0. Once
//! `Board::new` has made a board, no call takes memory.
#![tactic(auto)]

mod beginning;
mod board;
mod locking;
mod lookups;
mod releasing;
mod token_counts;
mod trees;
mod waiters;

pub use board::Board;
pub use lk_task_runs::{Needs, Phase};
pub use lookups::need_at;
pub use token_counts::{blockers_of, past_all};
