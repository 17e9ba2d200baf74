//! What a file is, by its first bytes, and the types that say what an input has.
//!
//! Bytes of any file come in; out comes whether it is a relocatable or a shared object, or the first of
//! the faults of its identification (gABI "ELF Header", "ELF Identification"). `kind_of` is the
//! definition of that name in lk_model, both ways: readers of objects and of shared objects look at
//! nothing of a file before it, and both report `ReadFailure`, by `ReadGives` in specs/Readings.antt. The
//! summary types are lk_model's, given out again.
#![tactic(auto)]

mod failures;
mod kinds;

pub use failures::ReadFailure;
pub use kinds::kind_of;
pub use lk_model::layouts::{Class, SectionKey};
pub use lk_model::records::{
    InputRecord, InputRecordList, NameRow, NameRowList, Records, Reference, ReferenceList,
};
pub use lk_model::summaries::{
    Global, GlobalList, Group, GroupList, Home, InputSummary, Kind, Local, NumberList, PieceInfo,
    PieceInfoList, SummaryList,
};
