//! The link itself: from the words of a command to the image on the output device.
//!
//! What comes in are the words, the input files, the output device and the sink of the texts, each
//! through its trait; what goes out is a `Status`, which is also said. The passes, in their order: the words
//! become a command, its inputs are read (lk_inputs), what they decide is resolved, their references are scanned
//! (lk_scan_inputs), everything is placed (lk_layout), the image is made (lk_image), and it is put on the device.
//!
//! The contract of `run_alone` cites the general definitions of lk_model: `static_answer` for the answer,
//! `IsFullLink` for the image; specs/Outer.antt says what may happen to the outside.
//!
//! Callers rely on one law: an answer other than Done and DeviceFault leaves the output device
//! untouched, whatever the files hold.
#![tactic(auto)]

mod link_needs;
mod run;
mod words;

pub use run::run_alone;
pub use words::output_of;
