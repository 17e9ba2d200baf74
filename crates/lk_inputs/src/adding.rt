//! The inputs of a link are added to a resolver in command order, item by item: each input outside a lib
//! group by itself, the members of a lib group together, which are in a row.

ghost use Rattle.std.specs.Prelude.{◌≡◌, ◌+◌, ◌<◌, ◌≤◌, ◌^◌, ℕ, List, [], length, map, Some, IfOk, OnOk};
ghost use Rattle.lk_model.specs.Adding.{added_inputs};
ghost use Rattle.lk_model.specs.Numbered.{Numbered};
ghost use Rattle.lk_model.specs.Views.{Input};
ghost use Rattle.lk_model.specs.InputNames.{input_summary};
ghost use Rattle.lk_inputs.specs.Adding.{IsItemAdded, lib_length, rows_from};
ghost use Rattle.lk_inputs.specs.Named.{files_of};
ghost use Rattle.lk_resolve.specs.States.{state_of};

use crate::input_files::InputFile;
use lk_model::summaries::InputSummary;
use lk_report::NoMemory;
use lk_resolve::Resolver;

/// How many files in front are members of a lib group.
fn lib_length(lib: u32, files: &[InputFile]) -> usize
    ensures counted { result ≡ lib_length lib files.now }
    ensures within { result ≤ length files.now }
{
    files.iter().take_while(|file| file.name.lib == lib).count()
}

/// Adds the first item of inputs, which are numbered from `first`, and returns how many inputs it has.
fn add_item(
    resolver: &mut Resolver,
    first: u32,
    files: &[InputFile],
    summaries: &[InputSummary],
) -> Result<usize, NoMemory>
    requires some { 0 < length files.now }
    requires alike { length files.now ≡ length summaries.now }
    ensures added { (entry : List ℕ) (paths : List (List ℕ)) (added : List Numbered) → resolver.old ≡ Some (state_of entry paths added) → IfOk result (λ count. IsItemAdded entry paths added (rows_from first files.now summaries.now) count resolver.new) }
    ensures some { IfOk result (λ count. 0 < count) }
    ensures within { IfOk result (λ count. count ≤ length files.now) }
{
    let lib = files[0].name.lib;
    if lib == 0 {
        resolver.add_input(first, &summaries[0])?;
        return Ok(1);
    }
    let count = lib_length(lib, files);
    let (members, _) = summaries.split_at(count);
    resolver.add_members(first, members)?;
    Ok(count)
}

/// Adds inputs to a resolver to which none was added: it then has the state of exactly the inputs that the link
/// adds, in adding order.
///
/// # Errors
/// Out of memory, which also answers more inputs than have numbers of 32 bits.
pub fn add_inputs(
    resolver: &mut Resolver,
    files: &[InputFile],
    summaries: &[InputSummary],
) -> Result<(), NoMemory>
    requires { length files.now ≡ length summaries.now }
    ensures { (entry : List ℕ) (paths : List (List ℕ)) (xs : List Input) → files.now ≡ files_of xs → summaries.now ≡ map input_summary xs → resolver.old ≡ Some (state_of entry paths []) → OnOk result (resolver.new ≡ Some (state_of entry paths (added_inputs entry xs))) }
{
    if files.len() > u32::MAX as usize {
        return Err(NoMemory);
    }
    let mut done = 0;
    'items: while done < files.len() {
        let (_, files) = files.split_at(done);
        let (_, summaries) = summaries.split_at(done);
        done += add_item(resolver, done as u32, files, summaries)?;
    }
    Ok(())
}
