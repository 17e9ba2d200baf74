//! A job that nobody has taken, with the memory for what it will be given, so that giving it out takes none.

ghost use Rattle.std.specs.Prelude.{◌≡◌, nat_eq, slice_set, slice_index_or, None, Some, IfOk};
ghost use Rattle.std.specs.List.{IsDistinct};
ghost use Rattle.lk_task_runs.specs.Runs as runs;
ghost use Rattle.lk_queue.specs.Jobs.{HasRoom, IsReadyAt, GivesJob};

use crate::moves::{share_all, take_out};
use crate::work::{Parcel, Took, Work};
use lk_report::{List, NoMemory};
use lk_task_runs::Needs;
use std::alloc::Global;
use std::mem;

/// A job that nobody has taken, with empty lists that have room for what its task reads and writes.
#[derive(Drop)]
pub struct Ready<W: Work> {
    pub job: W,
    pub read: Vec<W::Slot>,
    pub write: Vec<W::Slot>,
}

/// A job with room for what a task reads and writes.
///
/// # Errors
/// Out of memory.
pub fn make_ready<W: Work>(alloc: Global, job: W, needs: &Needs) -> Result<Ready<W>, NoMemory>
    ensures room { IfOk result (λ r. HasRoom needs.now r) }
    ensures job { IfOk result (λ r. r.job ≡ job) }
{
    let Ok(read) = Vec::with_capacity(alloc, needs.reads.as_slice().len()) else {
        return Err(NoMemory);
    };
    let Ok(write) = Vec::with_capacity(alloc, needs.writes.as_slice().len()) else {
        return Err(NoMemory);
    };
    Ok(Ready { job, read, write })
}

/// Takes the job of a number.
fn take_job<W: Work>(jobs: &mut Vec<Option<Ready<W>>>, task: u32, needs: &Needs) -> Ready<W>
    requires { IsReadyAt needs.now jobs.old.items task }
    ensures was { Some result ≡ slice_index_or jobs.old.items task None }
    ensures room { HasRoom needs.now result }
    ensures left { jobs.new.items ≡ slice_set jobs.old.items task None }
{
    mem::replace(&mut jobs[task as usize], None).unwrap()
}

/// Gives out a task's job, with what is in the slots that it reads and writes.
pub fn give_out<W: Work>(
    needs: &Needs,
    store: &mut Vec<Option<W::Slot>>,
    jobs: &mut Vec<Option<Ready<W>>>,
    task: u32,
) -> Took<W>
    requires there { IsReadyAt needs.now jobs.old.items task }
    requires once { IsDistinct nat_eq needs.now.writes }
    ensures store { store.new.items ≡ runs.blank needs.now.writes store.old.items }
    ensures jobs { jobs.new.items ≡ slice_set jobs.old.items task None }
    ensures took { GivesJob (runs.given_of needs.now store.old.items) jobs.old.items task result }
{
    let Ready { job, read, write } = take_job(jobs, task, needs);
    let read = share_all::<W>(store, needs.reads.as_slice(), read);
    let mut write = write;
    take_out(store, needs.writes.as_slice(), &mut write);
    let parcel = Parcel {
        read,
        write: List::from_vec(write),
    };
    Took::Job { task, job, parcel }
}
