//! What a link records of itself, so that a later link can update its image.
//!
//! What was read of the inputs comes in (their names and their summaries), with what they were resolved to, and where
//! everything is. Out come the parts of the link's records that its image has today, the `RecordParts` of lk_incr:
//! `link_records`. They borrow all that came in: no path, option or summary is copied. Beside it `exec_stack` says
//! whether an added object asks for an executable stack.
//!
//! The contracts cite lk_model: `records_of` and `exec_stack_of` of what `resolve` finds of any inputs that
//! have these names and summaries. An input's record says how many inputs before it have its path, so these
//! inputs have to be counted in that way (`OccurrencesAreRight`). Callers rely on one law,
//! `inputs_of_commands_are_counted`: the inputs of every command are.
//!
//! Paths are counted in a map, and added inputs are marked, so that each input is looked at once.
#![tactic(auto)]

mod gathering;
mod input_records;
mod laws;
mod occurrences;
mod stack_requests;

pub use gathering::link_records;
pub use laws::inputs_of_commands_are_counted;
pub use stack_requests::exec_stack;
