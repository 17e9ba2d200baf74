//! The outside of the linker: input files, the output file, text, and the gate of the tasks.
//!
//! The layers above meet all of these through traits. What comes in are paths and ranges of bytes;
//! what goes out are answers by cases. The contracts cite the state of an object: `FilesState` in
//! specs/FilesState.antt for the files, `Disk` in specs/Disk.antt for the output, and lk_report's
//! `Spoken` for text.
//!
//! Callers rely on one law: a call answers Failed only where the object's count of faults rose in
//! that call, and any other answer leaves the count as it was. So an answer that names a fault can be
//! compared with a count.
//!
//! Objects in memory report their whole state, and can be set to fail at a call (the Sure ones fail
//! by out of memory alone). The host's objects are a thin edge over std's files and standard output,
//! which is trusted: they report no state but the counts of their failures.
#![tactic(auto)]

mod calls;
mod devices;
mod file_changes;
mod file_entries;
mod files;
mod host_device;
mod host_files;
mod host_sink;
mod host_times;
mod memory_device;
mod memory_files;
mod memory_sink;
mod sure_device;
mod sure_files;
mod sure_sink;
mod turnstiles;

pub use calls::Calls;
pub use devices::{Device, LengthAnswer};
pub use file_changes::FileChange;
pub use file_entries::FileEntry;
pub use files::{Files, ReadAnswer, StatAnswer};
pub use host_device::HostDevice;
pub use host_files::HostFiles;
pub use host_sink::HostSink;
pub use lk_report::{Answer, Sink, Stamp};
pub use memory_device::MemoryDevice;
pub use memory_files::MemoryFiles;
pub use memory_sink::MemorySink;
pub use sure_device::SureDevice;
pub use sure_files::SureFiles;
pub use sure_sink::SureSink;
pub use turnstiles::{FreeTurnstile, Turnstile};
