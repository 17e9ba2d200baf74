//! The scan of a whole link: from the files of its inputs and what they decide to what their references need.
//!
//! The inputs of a link come in with their files and summaries, by number, and the `Resolution` of them. The files
//! of the added inputs become objects, which take the bytes over, and are scanned in adding order. Out comes,
//! by `scan_inputs`, what the references need and what an image records of them, with the objects by the
//! numbers of the inputs, for the passes that lay out and link; or all faults of the references. No file has a
//! fault and each summary is that of its file, as `read_command` gives them: so each file is checked and
//! summarized once in a link.
//!
//! The contract cites lk_model: the needs, the recorded references and `scan_faults` of what is resolved of any
//! inputs that these files are, where they are objects without a fault (`AreObjects`). Callers rely on one law
//! besides: the inputs of a command are such ones where they are not refused (`unrefused_are_objects`).
#![tactic(auto)]

mod laws;
mod link_scanning;
mod object_reading;
mod object_scans;

pub use laws::unrefused_are_objects;
pub use link_scanning::{ScannedInputs, scan_inputs};
pub use object_reading::{LinkObjects, ObjectList, read_objects};
