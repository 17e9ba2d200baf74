//! The resolution of the inputs that the words of a link name.

ghost use Rattle.std.specs.Prelude.{◌≡◌, IfOk, IsSome, Some};
ghost use Rattle.lk_report.specs.FileMap.{FileMap};
ghost use Rattle.lk_inputs.specs.FileAnswers.{StatusCounts, known_map, known_reads, reads_with};
ghost use Rattle.lk_inputs.specs.LookUps.{inputs_limit};
ghost use Rattle.lk_probe.specs.Resolving.{CommandGives, WordsFirst, WordsGive};

use lk_inputs::{command_of, read_command, resolve_inputs};
use lk_model::commands::Command;
use lk_outside::Files;
use lk_report::{NameList, Status};
use lk_resolve::Resolution;
use std::alloc::Global;

/// The resolution of the inputs of a command.
///
/// # Errors
/// Those of `read_command`; then more names than 2^20, else the faults of the names.
fn resolve_command<F: Files>(
    alloc: Global,
    command: &Command,
    files: &mut F,
) -> Result<Resolution, Status>
    ensures reported { (there : FileMap) → known_map (F.state files.old) ≡ Some there → CommandGives command.now there result }
    ensures faults { StatusCounts (F.state files.old) result (F.state files.new) }
    ensures limit { IsSome (inputs_limit command.now) → F.state files.new ≡ F.state files.old }
    ensures reads { IfOk result (λ resolution. known_reads (F.state files.new) ≡ reads_with resolution.paths (known_reads (F.state files.old))) }
{
    let inputs = read_command(alloc, command, files)?;
    let resolution = resolve_inputs(alloc, &command.options.entry, &inputs)?;
    Ok(resolution)
}

/// The resolution of the inputs of the command that words are.
///
/// # Errors
/// The first faulty word, before anything is asked of the files; else those of `resolve_command`.
pub fn resolve_words<F: Files>(
    alloc: Global,
    words: &NameList,
    files: &mut F,
) -> Result<Resolution, Status>
    ensures reported { (there : FileMap) → known_map (F.state files.old) ≡ Some there → WordsGive words.now there result }
    ensures faults { StatusCounts (F.state files.old) result (F.state files.new) }
    ensures words_first { WordsFirst words.now (F.state files.old) (F.state files.new) }
    ensures reads { IfOk result (λ resolution. known_reads (F.state files.new) ≡ reads_with resolution.paths (known_reads (F.state files.old))) }
{
    let command = command_of(alloc, words)?;
    resolve_command(alloc, &command, files)
}
