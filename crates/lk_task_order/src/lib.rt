//! Which task of a batch is the first that is not ordered.
//!
//! What the tasks need comes in; out comes the first task that waits for a blocker that a task of equal or higher number
//! releases, or that shares a written slot with an earlier task and is not after it by blockers, exactly as
//! `first_not_ordered` of lk_task_runs defines it.
//!
//! The tasks are looked at by number. A task need only be after the last writer of each slot that it touches, and after
//! the readers since of each slot that it writes (seen.rt): these are after all earlier ones that matter. Mostly each
//! of them releases the very blocker that the task waits for. Where one does not, the tasks from it up to the task are
//! swept once, from the highest down, for the blockers by which the task waits (sweeping.rt).
#![tactic(auto)]

mod ordering;
mod seen;
mod sweeping;

pub use ordering::first_not_ordered;
