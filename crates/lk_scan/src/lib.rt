//! What the references of objects need of a link (psABI x86-64, "Relocation Types", "Global Offset Table",
//! "Procedure Linkage Table").
//!
//! An object comes in, the number of the input that it is, and what the added inputs decide (`Resolution`);
//! out comes what the relocations of its kept pieces need, slots, entries and copies, each once and in order
//! of the first reference that needs it, and the references that an image records; or all their faults in
//! order. `scan` answers by the definition `ScanGives` of specs/Scans.antt, over lk_model's `faults_in`,
//! `needs_of` and `recorded_of`. `LinkScan` does it for the objects of a link, one after another.
//!
//! Callers rely on two laws: a scan succeeds exactly where `reported_once` of the faults is empty, and the faults
//! that it reports are that list; and over the added inputs of a command, in adding order, the scans come to
//! what lk_model finds of the whole link (`scans_are_the_links`). Each of an object's symbols is looked at once,
//! before its references, and found by its number in a list, so each reference takes constant time; with
//! `NameMeanings` the symbols of a name are gone through once for a whole link.
#![tactic(auto)]

mod laws;
mod link_scans;
mod local_targets;
mod name_meanings;
mod name_targets;
mod need_sets;
mod noting;
mod referral_faults;
mod reported_faults;
mod scan_statuses;
mod scans;
mod slots;
mod symbol_targets;
mod target_lists;
mod targets;

pub use laws::scans_are_the_links;
pub use link_scans::LinkScan;
pub use name_meanings::NameMeanings;
pub use scans::{ScanFailure, Scanned, scan};
