//! What a link is, without any code: the plain types that all layers share, each declared once, and the
//! definitions (specs/) in which every contract above speaks.
//!
//! The types are here as structs and enums with public fields: what the words say (`commands`), what
//! is known of an input (`summaries`), where everything is (`layouts`), what an image records
//! (`records`). The definitions read from the words to the image: Grammar, Inputs, Elf and Objects
//! (reading), Adding, Winners, References, NeedsOf, Resolving (resolution), SectionOrder, FullPlace,
//! Lawful (layout), SymbolValues, LinkedBytes, Images, Records* (the image), Links (what it means that an
//! image is a link), Answers (what a link answers). docs/DEFINITIONS.md lists them with their sources.
//!
//! They compute: the worked examples in proofs/ are checked by evaluation, whole images among them.
//! Callers rely on the laws in `laws`: what is laid out is at its places, and a patch keeps what is
//! apart from it.
#![tactic(auto)]

pub mod classes;
pub mod commands;
pub mod images;
pub mod input_names;
pub mod laws;
mod layout_statuses;
pub mod layouts;
pub mod limits;
pub mod records;
pub mod summaries;
