//! What a task needs and how far it is, by its number.

ghost use Rattle.std.specs.Prelude.{◌≡◌, ◌<◌, length};
ghost use Rattle.lk_task_runs.specs.Phases as far;

use lk_task_runs::{Needs, Phase};

/// What a task needs.
pub fn need_at(needs: &[Needs], task: u32) -> &Needs
    requires { task < length needs.now }
    ensures { result.now ≡ far.need needs.now task }
{
    &needs[task as usize]
}

/// Whether nobody has taken a task.
pub fn is_waiting(phases: &[Phase], task: u32) -> bool
    requires { task < length phases.now }
    ensures { result ≡ far.is_waiting (far.phase_of phases.now task) }
{
    match phases[task as usize] {
        Phase::Waiting => true,
        Phase::Running(_) => false,
        Phase::Done(_) => false,
    }
}

/// Whether a task that is so far runs.
pub fn is_running(phase: Phase) -> bool
    ensures { result ≡ far.is_running phase }
{
    match phase {
        Phase::Waiting => false,
        Phase::Running(_) => true,
        Phase::Done(_) => false,
    }
}
