//! Tests of the crates at the bottom: records, statuses and their texts, names, copies, kinds of files, and the
//! outside in memory and on the host.
//!
//! They are in a crate of their own above the crates that they call, since a crate with tests is proved
//! twice. `elf_records` shows the records (lk_elf), `said_texts` and `names_and_lists` what is said and kept
//! (lk_report), with the sink in `books`, `copied_items` the copies (lk_model), `kinds_of_files` what a file is
//! (lk_summary), `host_files`, `host_devices` and `in_memory` the outside (lk_outside). What is called here is
//! public, and each public call of these crates that takes memory is run by a test that succeeds.
#![tactic(auto)]

#[cfg(test)]
mod books;
#[cfg(test)]
mod copied_items;
#[cfg(test)]
mod elf_records;
#[cfg(test)]
mod host_devices;
#[cfg(test)]
mod host_files;
#[cfg(test)]
mod in_memory;
#[cfg(test)]
mod kinds_of_files;
#[cfg(test)]
mod names_and_lists;
#[cfg(test)]
mod said_texts;
