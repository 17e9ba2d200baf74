//! The machine that runs tasks by workers.
#![tactic(auto)]

mod machine;
mod moves;
mod ready;
mod work;

pub use lk_task_runs::{Event, Needs, Phase};
pub use machine::{EventList, Machine};
pub use ready::{Ready, make_ready};
pub use work::{Finished, Parcel, Share, Task, Took, Work};
