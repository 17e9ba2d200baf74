//! The words of a command: the command that they are, whether it waits, and its output.

ghost use Rattle.std.specs.Prelude.{◌≡◌, IfOk};
ghost use Rattle.std.specs.List.{list_any};
ghost use Rattle.lk_model.specs.Answers.{is_full as full_mode, is_library, waits_words, words_in};
ghost use Rattle.lk_model.specs.Grammar.{output_of_words};
ghost use Rattle.lk_driver.specs.ImageGiven.{OutputBy, OutputUnless, WordsGive};

use lk_inputs::command_of;
use lk_model::commands::{Command, Item, Mode, Word};
use lk_report::{Name, NameList, NoMemory, Status, Waiting};
use std::alloc::Global;

/// Whether everything is to be made anew.
fn is_full(mode: Mode) -> bool
    ensures { result ≡ full_mode mode }
{
    matches!(mode, Mode::Full)
}

/// Whether one of these words is a library.
fn has_library(words: &[Word]) -> bool
    ensures { result ≡ list_any is_library words.now }
{
    words.iter().any(|word| word.library)
}

/// Whether an input, or a member of a lib group, is a library.
fn item_has_library(item: &Item) -> bool
    ensures { result ≡ list_any is_library (words_in item.now) }
{
    match item {
        Item::One(word) => word.library,
        Item::Lib(words) => has_library(words.as_slice()),
    }
}

/// Whether one of the inputs is a library.
fn any_library(items: &[Item]) -> bool
    ensures { result ≡ list_any (λ item. list_any is_library (words_in item)) items.now }
{
    items.iter().any(|item| item_has_library(item))
}

/// Whether a command waits: one that is to update an image, or that has a library among its inputs.
#[tactic(auto, using(crate::proofs::OuterWords::item_library))]
fn waits(command: &Command) -> bool
    ensures { result ≡ waits_words command.now }
{
    !is_full(command.mode) || any_library(command.items.as_slice())
}

/// The command that words are, where a link of it can be begun.
///
/// # Errors
/// The first faulty word; else a command that is not built yet; out of memory.
pub fn accepted_command(alloc: Global, words: &NameList) -> Result<Command, Status>
    ensures { WordsGive words.now result }
{
    let command = command_of(alloc, words)?;
    if waits(&command) {
        return Err(Status::NotYet(Waiting::Words));
    }
    Ok(command)
}

/// The path of the output of refused words; out of memory at any other status.
fn output_unless(alloc: Global, status: &Status) -> Result<Name, NoMemory>
    ensures { OutputUnless status.now result }
{
    match status {
        Status::Usage(_) => Name::from_slice(alloc, b"a.out"),
        _ => Err(NoMemory),
    }
}

/// The path of the output by what words are: the command's own, or that of refused words.
fn output_by(alloc: Global, read: &Result<Command, Status>) -> Result<Name, NoMemory>
    ensures { OutputBy read.now result }
{
    match read {
        Ok(command) => command.output.copy(alloc),
        Err(status) => output_unless(alloc, status),
    }
}

/// The path of the output that words name; `a.out` where they name none or are refused.
pub fn output_of(alloc: Global, words: &NameList) -> Result<Name, NoMemory>
    ensures { IfOk result (λ path. path ≡ output_of_words words.now) }
{
    let read = command_of(alloc, words);
    output_by(alloc, &read)
}
