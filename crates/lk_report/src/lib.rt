//! What the linker answers, and how it says it.
//!
//! The bottom of all layers, beside the ELF records. Here are the small types that every layer
//! shares (names, bytes, lists, out of memory), the status of a link with every fault, limit and
//! cause that it can have, and the sink that takes its text.
//!
//! What comes in is a `Status`; what goes out is its text, put into a `Sink`. The definition that
//! the contract of `say` cites is `text_of` in specs/Texts.antt: each status has one text, with its
//! numbers in decimal or, where marked, in hexadecimal. Callers rely on one law: what was said is
//! the whole text, or a prefix of it with a count of faults that rose.
#![tactic(auto)]

mod cause_texts;
mod causes;
mod contents;
mod copies;
mod exits;
mod fault_texts;
mod faults;
mod lists;
mod memory;
mod names;
mod numbers;
mod saying;
mod sinks;
mod stamps;
mod status_texts;
mod statuses;

pub use causes::{Cause, OptionRecord};
pub use contents::Bytes;
pub use faults::{Fault, FaultList, InputFault, Site, UsageFault};
pub use lists::{List, NameList};
pub use memory::{NoMemory, TryCopy};
pub use names::Name;
pub use sinks::{Answer, Sink};
pub use stamps::Stamp;
pub use status_texts::say;
pub use statuses::{LimitFault, LimitKind, Outcome, Status, Waiting};
