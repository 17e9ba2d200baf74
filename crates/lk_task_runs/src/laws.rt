//! What is known of the runs of ordered tasks, as the contracts of functions that do nothing.

ghost use Rattle.lk_task_runs.specs.TaskLaws.{AnyInterleaving, NoSlotIsLost, SomeTaskIsRunnable};

/// Every complete run of ordered tasks, in any interleaving by any number of workers, leaves the store that the tasks
/// leave when they are run alone by number.
pub fn any_interleaving<S>()
    ensures { AnyInterleaving S }
{}

/// Where no task runs and one is not done, one is runnable.
pub fn some_task_is_runnable()
    ensures { SomeTaskIsRunnable }
{}

/// Where no task runs, every slot has a value, also after a task reported out of memory.
pub fn no_slot_is_lost<S>()
    ensures { NoSlotIsLost S }
{}
