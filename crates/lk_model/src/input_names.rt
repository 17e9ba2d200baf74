//! What is known of an input before its file is read.

use crate::commands::Mark;
use lk_report::{List, Name, Stamp};

/// An input whose file is there.
#[derive(Drop)]
pub struct InputName {
    /// The path of its file.
    pub path: Name,
    /// The number of its lib group, from 1; 0 outside one.
    pub lib: u32,
    /// What the command says of its changes.
    pub mark: Mark,
    /// The file's stamp, where it has one.
    pub stamp: Option<Stamp>,
}

/// Inputs in command order.
pub type InputNameList = List<InputName>;
