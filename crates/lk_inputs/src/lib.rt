//! From the words of a link to the resolution of its inputs: the passes over all inputs that come before any
//! relocation is looked at.
//!
//! The words become a command (`command_of`, by lk_command). `read_command` reads its inputs: each is looked up
//! (`look_up_inputs`) and read once (`read_inputs`), up to the limits on their number and sizes; a shared object is
//! reported as not built yet (`first_shared`); each object is summarized, or all faults are reported
//! (`read_summaries`). `resolve_inputs` adds them in command order, lib groups by search (`add_inputs`), and
//! resolves their names.
//!
//! Contracts cite lk_model: `inputs_of` and `missing_of` of the command and the map of the files, where these
//! report it, and `added_inputs` of any inputs. Callers rely on one law: the resolution of files and summaries that
//! are those of some inputs is `found_of` exactly the added ones of these.
#![tactic(auto)]

mod adding;
mod input_files;
mod input_words;
mod inputs;
mod laws;
mod look_ups;
mod places;
mod reading;
mod resolving;
mod shared_inputs;
mod summaries;
mod unread;
mod word_look_ups;
mod words;

pub use adding::add_inputs;
pub use input_files::{InputFile, InputFileList};
pub use inputs::{Inputs, read_command};
pub use laws::answers_are_the_models;
pub use reading::read_inputs;
pub use resolving::resolve_inputs;
pub use shared_inputs::first_shared;
pub use summaries::read_summaries;
pub use word_look_ups::look_up_inputs;
pub use words::command_of;
