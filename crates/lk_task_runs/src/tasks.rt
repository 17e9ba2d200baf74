//! The plain types of the runs of tasks.

use lk_report::List;

/// What a task needs beside its job. Tokens and slots are numbered from 0.
#[derive(Drop, Debug)]
pub struct Needs {
    /// The blocker token that the task waits for: until every task that releases it is done.
    pub waits: Option<u32>,
    /// The blocker token that the task releases once it is done.
    pub releases: Option<u32>,
    /// The lock tokens that the task has while it runs.
    pub locks: List<u32>,
    /// The slots that the task reads.
    pub reads: List<u32>,
    /// The slots that the task writes.
    pub writes: List<u32>,
}

/// How far a task is.
#[derive(Clone, Copy, PartialEq, Eq, Debug)]
pub enum Phase {
    /// No worker has taken it.
    Waiting,
    /// The worker with this number runs it.
    Running(u32),
    /// It is done. False where it reported out of memory.
    Done(bool),
}

/// One step of a run of tasks.
#[derive(Clone, Copy, PartialEq, Eq, Debug)]
pub enum Event {
    /// A worker takes a task.
    Take { worker: u32, task: u32 },
    /// A worker is done with a task. `wrote` is false where the task reported out of memory.
    Finish { worker: u32, task: u32, wrote: bool },
}
