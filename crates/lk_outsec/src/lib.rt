//! Output sections: which one an input section goes to, what its name and class say of it, and the order
//! in which output sections are in the image (gABI "Sections", "Special Sections").
//!
//! The name, the type and the flags of an input section come in; out goes the key of its output section
//! (`key_for`), and whether it has one at all (`is_piece`, `may_be_piece`). Keys come in; out go
//! whether pieces are anywhere in the section (`is_patched`), what fills its holes (`fill_kind`), and all keys
//! in the order of the image (`in_order`).
//!
//! The contracts cite the definitions of those names in lk_model: `key_of` and `is_piece` of specs/Pieces,
//! `is_patched` and `fill_kind` of specs/SectionKeys, `in_order` of specs/SectionOrder.
//!
//! Callers rely on one law: keys are by rising rank, and those of one rank keep their order.
#![tactic(auto)]

mod input_sections;
mod kinds;
mod orders;
mod output_names;
mod ranks;
mod reserved_names;

pub use input_sections::{has_flag, is_piece, key_for, may_be_piece};
pub use kinds::{fill_kind, is_patched};
pub use orders::in_order;
pub use reserved_names::{is_table_name, is_tail_name};
