//! A command is made of its words.

ghost use Rattle.std.specs.Prelude.{◌≡◌, ◌-◌, ◌^◌, ◌<◌, IfOk, fold, length, map, option_map};
ghost use Rattle.lk_model.specs.Grammar.{base_beside};
ghost use Rattle.lk_command.specs.Commands.{command_by, options_by};
ghost use Rattle.lk_command.specs.Parsing.{ParseGives};
ghost use Rattle.lk_command.specs.Seen.{phrase_seen};
ghost use Rattle.lk_command.specs.Values.{at_first, values_after, values_seen};

use crate::command_faults::CommandFault;
use crate::faults::usage_fault;
use crate::inputs::items_of;
use crate::paths::{dirs_of, run_path_of};
use crate::phrases::Phrase;
use crate::reading::phrases_of;
use crate::values::{Values, values_of};
use lk_model::commands::Command;
use lk_report::{Name, NameList, NoMemory, OptionRecord};
use std::alloc::Global;

/// The earlier image; none where it is the output itself.
fn base_of(alloc: Global, values: &Values<'_>) -> Result<Option<Name>, NoMemory>
    ensures { IfOk result (λ base. base ≡ base_beside (values_seen values.now).output (values_seen values.now).base) }
{
    match values.base {
        None => Ok(None),
        Some(base) => {
            if base == values.output {
                return Ok(None);
            }
            Ok(Some(Name::from_slice(alloc, base)?))
        }
    }
}

/// The options that an image records.
fn options_of(
    alloc: Global,
    values: &Values<'_>,
    phrases: &[Phrase<'_>],
) -> Result<OptionRecord, NoMemory>
    ensures { IfOk result (λ options. options ≡ options_by (values_seen values.now) (map phrase_seen phrases.now)) }
{
    Ok(OptionRecord {
        entry: Name::from_slice(alloc, values.entry)?,
        interp: Name::from_slice(alloc, values.interp)?,
        runpath: run_path_of(alloc, phrases)?,
        patch: values.patch,
        export_dynamic: values.export_dynamic,
        dynamic: false,
    })
}

/// The command of phrases without a fault.
fn command_of(alloc: Global, phrases: &[Phrase<'_>]) -> Result<Command, NoMemory>
    ensures { IfOk result (λ command. command ≡ command_by (fold values_after at_first (map phrase_seen phrases.now)) (map phrase_seen phrases.now)) }
{
    let values = values_of(phrases);
    Ok(Command {
        output: Name::from_slice(alloc, values.output)?,
        mode: values.mode,
        base: base_of(alloc, &values)?,
        options: options_of(alloc, &values, phrases)?,
        dirs: dirs_of(alloc, phrases)?,
        items: items_of(alloc, phrases)?,
        workers: values.workers,
    })
}

/// The command that words are (own). The words are the arguments of the program in their order, without its
/// name; they may have any bytes, and a command copies the texts that it keeps.
///
/// # Errors
/// `Usage`: the first fault of the words, with the number of the word that has it, from 1. A word or a
/// value with a zero byte is an unknown word. `NoMemory`: out of memory, which any words can meet.
pub fn parse_words(alloc: Global, words: &NameList) -> Result<Command, CommandFault>
    requires { length words.now < 2 ^ 32 - 1 }
    ensures { ParseGives words.now result }
{
    let phrases = phrases_of(alloc, words)?;
    if let Some(fault) = usage_fault(phrases.as_slice()) {
        return Err(CommandFault::Usage(fault));
    }
    Ok(command_of(alloc, phrases.as_slice())?)
}
