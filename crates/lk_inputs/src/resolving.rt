//! The resolution of the inputs of a link.

ghost use Rattle.std.specs.Prelude.{◌≡◌, ℕ, List, [], length, map, Some, IfOk};
ghost use Rattle.lk_model.specs.Views.{Input};
ghost use Rattle.lk_model.specs.Adding.{added_inputs};
ghost use Rattle.lk_model.specs.InputNames.{input_summary};
ghost use Rattle.lk_resolve.specs.Given.{found_in};
ghost use Rattle.lk_resolve.specs.Settling.{SettleGives};
ghost use Rattle.lk_resolve.specs.States.{state_of};
ghost use Rattle.lk_inputs.specs.Named.{files_of, file_path};
ghost use Rattle.lk_inputs.specs.Refusals.{AreInputs};

use crate::adding::add_inputs;
use crate::input_files::InputFile;
use crate::inputs::Inputs;
use lk_model::summaries::InputSummary;
use lk_report::{List, Name, NameList, NoMemory};
use lk_resolve::{Resolution, Resolver, SettleFault};
use std::alloc::Global;

/// The paths of inputs, by their numbers.
fn paths_of(alloc: Global, files: &[InputFile]) -> Result<NameList, NoMemory>
    ensures { IfOk result (λ paths. paths ≡ map file_path files.now) }
{
    let mut paths = List::new(alloc);
    for file in files {
        paths.push(file.name.path.copy(alloc)?)?;
    }
    Ok(paths)
}

/// A resolver to which the inputs that a link adds were added.
fn resolver_of(
    alloc: Global,
    entry: &Name,
    files: &[InputFile],
    summaries: &[InputSummary],
) -> Result<Resolver, NoMemory>
    requires { length files.now ≡ length summaries.now }
    ensures { (xs : List Input) → files.now ≡ files_of xs → summaries.now ≡ map input_summary xs → IfOk result (λ resolver. resolver ≡ Some (state_of entry.now (map file_path files.now) (added_inputs entry.now xs))) }
{
    let paths = paths_of(alloc, files)?;
    let mut resolver = Resolver::new(alloc, entry)?;
    resolver.with_paths(&paths)?;
    add_inputs(&mut resolver, files, summaries)?;
    Ok(resolver)
}

/// The resolution of the inputs of a link: those that are added, names and their definitions, kept sections.
///
/// # Errors
/// More names than 2^20; else the faults of the names; out of memory.
pub fn resolve_inputs(
    alloc: Global,
    entry: &Name,
    inputs: &Inputs,
) -> Result<Resolution, SettleFault>
    requires { length inputs.now.files ≡ length inputs.now.summaries }
    ensures resolution { (xs : List Input) → AreInputs xs inputs.now → SettleGives (found_in entry.now xs) result }
    ensures paths { IfOk result (λ resolution. resolution.paths ≡ map file_path inputs.now.files) }
{
    let files = inputs.files.as_slice();
    let summaries = inputs.summaries.as_slice();
    match resolver_of(alloc, entry, files, summaries) {
        Ok(resolver) => resolver.settle(),
        Err(NoMemory) => Err(SettleFault::NoMemory),
    }
}
