//! String tables (gABI "String Table"): `.dynstr`, `.shstrtab` and the texts that the records of an image name.
//!
//! Texts come in one after another, borrowed and not copied. Out come the offset of each text in the table, by
//! hash, and the table's bytes: each distinct text once in the order of first use, each with a closing zero byte.
//!
//! The contracts cite lk_model's `with_text`, `offset_in` and `table_bytes`. Callers rely on one law: a table that
//! notes texts one after another is the `fold` of `with_text` over them, so that `new` and the texts of a list
//! make `table_of` of the list.
#![tactic(auto)]

mod string_tables;

pub use string_tables::StringTable;
