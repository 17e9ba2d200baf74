//! The words of a command become a command, or are refused with their first fault.
//!
//! In come the words as bytes, without the program's own name; out comes a `Command`: the output, how it
//! is made, the options that an image records, where libraries are searched, the inputs and lib groups in
//! their order, each with its mark, and the number of workers. Words that are no command are reported by the
//! number of the word at fault, from 1.
//!
//! `parse_words` answers by the definition `grammar` of lk_model (specs/Grammar.antt), as `ParseGives` of
//! specs/Parsing.antt says. Callers rely on one law: a command or a fault that is answered is the
//! grammar's. Out of memory may come at any words. The time and the memory taken grow as the bytes of
//! the words do: each text is copied once, into the command.
//!
//! The words are read as phrases (an option with its value is one), the faults are looked for, and then
//! each part of the command is found among the phrases.
#![tactic(auto)]

mod command_faults;
mod command_statuses;
mod faults;
mod inputs;
mod meanings;
mod numbers;
mod parsing;
mod paths;
mod phrases;
mod reading;
mod values;
mod word_tables;

pub use command_faults::CommandFault;
pub use lk_model::commands::{Command, Item, ItemList, Mark, Mode, Word, WordList};
pub use lk_report::{NameList, UsageFault};
pub use parsing::parse_words;
