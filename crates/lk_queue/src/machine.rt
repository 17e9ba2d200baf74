//! The machine, which hands out tasks to workers and takes them back.

ghost use Rattle.std.specs.Prelude.{◌≡◌, ◌+◌, ◌<◌, ◌≤◌, ◌++◌, ◌∷◌, [], true, false};
ghost use Rattle.std.specs.Vec.{vec_capacity, vec_len};
ghost use Rattle.lk_task_runs.specs.Phases as far;
ghost use Rattle.lk_queue.specs.Machines.{phases_of, with_event};
ghost use Rattle.lk_queue.specs.Calls.{Takes, HandsBack, IsAllowed, has_written, handed};

use crate::moves::{all_present, put_back};
use crate::ready::{Ready, give_out};
use crate::work::{Finished, Task, Took, Work};
use lk_report::List;
use lk_task_board::Board;
use lk_task_runs::Event;
use std::marker::Model;
use std::snapshot::Snapshot;

/// Events in order.
pub type EventList = Vec<Event>;

/// A machine. Contracts see it as its tasks, the slots that it began with, and what has happened.
#[derive(Drop)]
pub struct Machine<W: Work> {
    pub(crate) board: Board,
    /// The slots, with none where a running task has it.
    pub(crate) store: Vec<Option<W::Slot>>,
    /// The jobs that nobody has taken.
    pub(crate) jobs: Vec<Option<Ready<W>>>,
    pub(crate) history: EventList,
    /// An empty list with room for the values of all slots.
    pub(crate) room: Vec<W::Slot>,
    pub(crate) tasks: Snapshot<List<Task<W>>>,
    pub(crate) slots: Snapshot<List<W::Slot>>,
}

impl<W: Work> Model for Machine<W> {
    ghost use Rattle.std.specs.Vec.{vec_capacity};
    ghost use Rattle.lk_queue.specs.Machines.{MachineState};

    ghost Value = { MachineState W W.Slot };

    ghost use Rattle.lk_queue.specs.MachineParts.{IsMachine};

    ghost view = { λ m. record { tasks = m.tasks.value; slots = m.slots.value; history = m.history.items } };

    ghost invariant = { λ m. IsMachine W.outcome (record { tasks = m.tasks.value; slots = m.slots.value; history = m.history.items }) m.board m.store.items m.jobs.items (vec_capacity m.history) m.room.items (vec_capacity m.room) };
}

/// Puts an event at the end of a history that has room for it.
fn push_event(history: &mut Vec<Event>, event: Event)
    requires { vec_len history.old < vec_capacity history.old }
    ensures items { history.new.items ≡ history.old.items ++ event ∷ [] }
    ensures room { vec_capacity history.old ≤ vec_capacity history.new }
{
    let _done = history.push(event);
}

/// What a job hands back, and whether it has written.
fn parts_of<W: Work>(done: Finished<W>) -> (List<W::Slot>, bool)
    ensures slots { result.0 ≡ handed done }
    ensures wrote { result.1 ≡ has_written done }
{
    match done {
        Finished::Wrote { slots } => (slots, true),
        Finished::NoMemory { slots } => (slots, false),
    }
}

impl<W: Work> Machine<W> {
    /// What has happened.
    pub fn history(&self) -> &EventList
        ensures { result.now.items ≡ self.now.history }
    {
        &self.history
    }

    /// Takes the runnable task of lowest number for a worker that runs none, in log time and without memory.
    pub fn take(&mut self, worker: u32) -> Took<W>
        requires { far.is_busy (phases_of self.old) worker ≡ false }
        ensures { Takes W.outcome self.old worker result self.new }
    {
        if self.board.is_stopped() {
            return Took::Stopped;
        }
        if self.board.is_all_done() {
            return Took::AllDone;
        }
        let Some(task) = self.board.lowest() else {
            return Took::NothingNow;
        };
        let took = give_out(
            self.board.needs(task),
            &mut self.store,
            &mut self.jobs,
            task,
        );
        self.board.start(worker, task);
        push_event(&mut self.history, Event::Take { worker, task });
        took
    }

    /// Takes back what a worker's task hands back, without memory.
    pub fn finish(&mut self, worker: u32, task: u32, done: Finished<W>)
        requires runs { far.is_under worker (far.phase_of (phases_of self.old) task) ≡ true }
        requires allowed { IsAllowed W.outcome self.old task done }
        ensures { self.new ≡ with_event self.old (Event.Finish worker task (has_written done)) }
    {
        let (slots, wrote) = parts_of(done);
        put_back(
            &mut self.store,
            self.board.needs(task).writes.as_slice(),
            slots,
        );
        self.board.end(task, wrote);
        push_event(
            &mut self.history,
            Event::Finish {
                worker,
                task,
                wrote,
            },
        );
    }

    /// The values of all slots, or the machine where a task runs. It takes no memory.
    ///
    /// # Errors
    /// A task runs.
    pub fn into_slots(self) -> Result<List<W::Slot>, Machine<W>>
        ensures { HandsBack W.outcome self result }
    {
        if self.board.is_one_running() {
            return Err(self);
        }
        let Machine { store, room, .. } = self;
        Ok(all_present(store, room))
    }
}
