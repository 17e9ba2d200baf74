//! Where a link of these words, made anew, puts everything.

ghost use Rattle.std.specs.Prelude.{◌≡◌, IsSome, Some};
ghost use Rattle.lk_report.specs.FileMap.{FileMap};
ghost use Rattle.lk_inputs.specs.LookUps.{inputs_limit};
ghost use Rattle.lk_inputs.specs.FileAnswers.{StatusCounts, known_map};
ghost use Rattle.lk_probe.specs.Laying.{CommandLaid, WordsLaid};
ghost use Rattle.lk_probe.specs.Resolving.{WordsFirst};

use crate::placing::place_inputs;
use lk_inputs::{command_of, read_command};
use lk_model::commands::Command;
use lk_model::layouts::Placement;
use lk_outside::Files;
use lk_report::{NameList, Status};
use std::alloc::Global;

/// Where a link of a command, made anew, puts everything.
fn lay_out_command<F: Files>(
    alloc: Global,
    command: &Command,
    files: &mut F,
) -> Result<Placement, Status>
    ensures reported { (there : FileMap) → known_map (F.state files.old) ≡ Some there → CommandLaid command.now there result }
    ensures faults { StatusCounts (F.state files.old) result (F.state files.new) }
    ensures limit { IsSome (inputs_limit command.now) → F.state files.new ≡ F.state files.old }
{
    let inputs = read_command(alloc, command, files)?;
    place_inputs(alloc, command, inputs)
}

/// Where a link of the command that words are, made anew, puts everything.
///
/// # Errors
/// The first faulty word, before anything is asked of the files; the first reason why the inputs are refused;
/// those of `place_inputs`.
pub fn lay_out<F: Files>(
    alloc: Global,
    words: &NameList,
    files: &mut F,
) -> Result<Placement, Status>
    ensures reported { (there : FileMap) → known_map (F.state files.old) ≡ Some there → WordsLaid words.now there result }
    ensures faults { StatusCounts (F.state files.old) result (F.state files.new) }
    ensures words_first { WordsFirst words.now (F.state files.old) (F.state files.new) }
{
    let command = command_of(alloc, words)?;
    lay_out_command(alloc, &command, files)
}
