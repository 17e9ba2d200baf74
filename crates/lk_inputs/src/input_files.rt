//! An input as it was read.

use lk_model::input_names::InputName;
use lk_report::{Bytes, List};

/// An input and the bytes of its file.
#[derive(Drop)]
pub struct InputFile {
    pub name: InputName,
    pub bytes: Bytes,
}

/// Inputs in command order.
pub type InputFileList = List<InputFile>;
