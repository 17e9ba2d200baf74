//! What a task does with slots.

ghost use Rattle.std.specs.Prelude.{◌≡◌, Bool, List, map};
ghost use Rattle.lk_queue.specs.Answers.{Shares, Answers};

use lk_report::List;
use std::alloc::Global;

/// A value that was shared, or why it was not.
#[derive(Drop)]
pub enum Share<S> {
    /// An equal value.
    Same(S),
    /// The value is an owned range, of which there is one.
    Owned,
    /// Out of memory.
    NoMemory,
}

/// What a task is given.
#[derive(Drop)]
pub struct Parcel<S> {
    /// What was in the slots that the task reads, in their order; none where sharing them ran out of memory.
    pub read: Option<List<S>>,
    /// What was in the slots that the task writes, in their order.
    pub write: List<S>,
}

/// A job, which makes of what it is given what it writes.
pub trait Work: Drop {
    /// What is in a slot.
    type Slot: Drop;

    /// What the job writes, given what was read and what was in the written slots.
    ghost outcome: { Self → List Self.Slot → List Self.Slot → List Self.Slot };

    /// Whether a value is an owned range.
    ghost is_owned: { Self.Slot → Bool };

    /// Shares what is in a slot.
    fn share(slot: &Self::Slot) -> Share<Self::Slot>
        ensures { Shares (is_owned slot.now) slot.now result };

    /// Runs the job.
    fn run(self, alloc: Global, parcel: Parcel<Self::Slot>) -> Finished<Self>
        ensures { Answers (outcome self) parcel result };

    /// Each value that is written is an owned range exactly where the one in its place was, and there are as many.
    ghost owns_as_before: { (job : Self) (read write : List Self.Slot) → map is_owned (outcome job read write) ≡ map is_owned write };
}

/// What a job hands back.
#[derive(Drop)]
pub enum Finished<W: Work> {
    /// What it writes.
    Wrote { slots: List<W::Slot> },
    /// Out of memory, with the written slots as they were given.
    NoMemory { slots: List<W::Slot> },
}

/// A task: a job with what it needs. Tokens and slots are numbered from 0.
#[derive(Drop)]
pub struct Task<W> {
    pub job: W,
    pub waits: Option<u32>,
    pub releases: Option<u32>,
    pub locks: List<u32>,
    pub reads: List<u32>,
    pub writes: List<u32>,
}

/// What a worker gets.
#[derive(Drop)]
pub enum Took<W: Work> {
    /// A task to run.
    Job {
        task: u32,
        job: W,
        parcel: Parcel<W::Slot>,
    },
    /// No task is runnable, and one is not done.
    NothingNow,
    /// A task reported out of memory.
    Stopped,
    /// Every task is done.
    AllDone,
}
