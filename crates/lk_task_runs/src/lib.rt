//! The runs of tasks that wait for one another, and the law that their order does not matter.
//!
//! There is no code here but the plain types of the definitions. A task waits for a blocker, releases one, takes
//! locks, reads slots and writes slots (`Needs`); any number of workers take tasks and finish them (`Event`). The
//! definitions say which tasks are runnable (specs/Phases.antt), which histories are runs (specs/Turns.antt), what
//! the tasks make of the slots (specs/Runs.antt), and when tasks are ordered (specs/Orders.antt): where two share a
//! written slot, one is after the other by blockers, and each waits for lower tasks alone.
//!
//! The law is the contract of `any_interleaving`: every complete run of ordered tasks, in any interleaving by any
//! number of workers, leaves the slots as the tasks leave them when they are run alone, one after another, by number.
//! `some_task_is_runnable` says that such tasks never wait for one another in a circle, and `no_slot_is_lost` that
//! every slot is there again where no task runs.
#![tactic(auto)]

mod laws;
mod tasks;

pub use laws::{any_interleaving, no_slot_is_lost, some_task_is_runnable};
pub use tasks::{Event, Needs, Phase};
