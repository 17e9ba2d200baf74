//! The gate that each task passes before its job is run.

/// A gate that is entered with a task's number, in each run of the queue, before that task's job is
/// run. A test's gate may keep a job waiting until another one has come.
pub trait Turnstile {
    /// Passes the gate. Always returns, and takes no memory.
    fn enter(&self, task: u32);
}

/// The gate that lets every task pass at once.
#[derive(Clone, Copy, PartialEq, Eq, Debug)]
pub struct FreeTurnstile;

impl Turnstile for FreeTurnstile {
    fn enter(&self, _task: u32) {}
}
