//! The sizes of the tables of a link in bytes, before anything is placed.
//!
//! A `Resolution` comes in, with the summaries of the inputs, the needs of their
//! references and the options, and the output sections that kept pieces go to. Out comes `table_sizes`: each
//! table that the link makes with its size, two in a static link, ten in a dynamic one. Calls of their
//! own return the contents of these tables, for the writer of their bytes: `dynamic_names`, `copied_names`,
//! `slot_fills`, `needed_names`, `dynamic_texts`.
//!
//! The contracts cite lk_model's definitions of these names, over what it resolves of the inputs of a command,
//! wherever the arguments are given by the same inputs (`IsGiven` of lk_resolve). Callers rely on one law:
//! the sizes are `table_sizes_among` of the resolved inputs. Each name, need and input is looked at a fixed number
//! of times; names are looked up by number, texts by hash (lk_string_table).
#![tactic(auto)]

mod amounts;
mod dynamic_rows;
mod entry_counts;
mod fills;
mod link_texts;
mod name_sets;
mod putting;
mod size_rows;
mod sizing;
mod slot_rows;

pub use dynamic_rows::{copied_names, dynamic_names};
pub use fills::slot_fills;
pub use link_texts::{dynamic_texts, interpreter_path, needed_names};
pub use size_rows::{TableSize, TableSizeList};
pub use sizing::table_sizes;
pub use slot_rows::{SlotFill, SlotFillList};
