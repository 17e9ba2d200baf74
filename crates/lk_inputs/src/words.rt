//! The command that the words of a link are.

ghost use Rattle.std.specs.Prelude.{◌<◌, ◌^◌, length, OnOk};
ghost use Rattle.lk_inputs.specs.CommandOfWords.{IsCommand};

use lk_command::{Command, parse_words};
use lk_report::{NameList, Status};
use std::alloc::Global;

/// So many words and more are answered as out of memory: an image has no room for their numbers.
const MOST_WORDS: usize = 0x4000_0000;

/// The command that words are.
///
/// # Errors
/// The first faulty word; out of memory, which also answers 2^30 words and more.
pub fn command_of(alloc: Global, words: &NameList) -> Result<Command, Status>
    ensures command { IsCommand words.now result }
    ensures few { OnOk result (length words.now < 2 ^ 30) }
{
    if words.as_slice().len() >= MOST_WORDS {
        return Err(Status::NoMemory);
    }
    let command = parse_words(alloc, words)?;
    Ok(command)
}
