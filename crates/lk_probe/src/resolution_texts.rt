//! The text of what the inputs of a link decide.

ghost use Rattle.std.specs.Prelude.{◌≡◌, [], ◌++◌, get_or, length, IfOk, OnOk, Some};
ghost use Rattle.lk_report.specs.FileMap.{FileMap};
ghost use Rattle.lk_inputs.specs.FileAnswers.{StatusCounts, known_map};
ghost use Rattle.lk_probe.specs.ResolutionTexts.{Reports, added_line, added_lines, resolution_text};

use crate::resolving::resolve_words;
use crate::writing::{put, put_number};
use lk_outside::Files;
use lk_report::{Bytes, NameList, NoMemory, Status};
use lk_resolve::Resolution;
use std::alloc::Global;

/// Puts the path of an input at the end, which is empty for an input without one.
fn put_path(text: &mut Vec<u8>, resolution: &Resolution, input: u32) -> Result<(), NoMemory>
    ensures { OnOk result (text.new.items ≡ text.old.items ++ get_or resolution.now.paths input []) }
{
    if input < resolution.inputs() {
        return put(text, resolution.path(input).as_slice());
    }
    Ok(())
}

/// Puts the line of an input that is added.
fn put_added(
    alloc: Global,
    text: &mut Vec<u8>,
    resolution: &Resolution,
    input: u32,
) -> Result<(), NoMemory>
    ensures { OnOk result (text.new.items ≡ text.old.items ++ added_line resolution.now.paths input) }
{
    put(text, b"added ")?;
    put_number(alloc, text, input as usize)?;
    put(text, b" ")?;
    put_path(text, resolution, input)?;
    put(text, b"\n")
}

/// Puts the lines of the inputs that are added, in adding order.
fn put_all_added(alloc: Global, text: &mut Vec<u8>, resolution: &Resolution) -> Result<(), NoMemory>
    ensures { OnOk result (text.new.items ≡ text.old.items ++ added_lines resolution.now) }
{
    for input in resolution.added().as_slice() {
        put_added(alloc, text, resolution, *input)?;
    }
    Ok(())
}

/// What is said of what the inputs decide: a line for each input that is added, in adding order, with its
/// number and path, then the numbers of added inputs, inputs and names.
fn text_of(alloc: Global, resolution: &Resolution) -> Result<Bytes, NoMemory>
    ensures { IfOk result (λ text. text ≡ resolution_text resolution.now) }
{
    let mut text = Vec::new(alloc);
    put_all_added(alloc, &mut text, resolution)?;
    put_number(alloc, &mut text, resolution.added().as_slice().len())?;
    put(&mut text, b" of ")?;
    put_number(alloc, &mut text, resolution.inputs() as usize)?;
    put(&mut text, b" inputs, ")?;
    put_number(alloc, &mut text, resolution.names().len() as usize)?;
    put(&mut text, b" names\n")?;
    Bytes::from_vec(text)
}

/// What is said of the words of a link, or the status that is reported in its place.
///
/// # Errors
/// Those of `resolve_words`.
pub fn reported<F: Files>(alloc: Global, words: &NameList, files: &mut F) -> Result<Bytes, Status>
    ensures reported { (there : FileMap) → known_map (F.state files.old) ≡ Some there → Reports words.now there result }
    ensures faults { StatusCounts (F.state files.old) result (F.state files.new) }
{
    let resolution = resolve_words(alloc, words, files)?;
    match text_of(alloc, &resolution) {
        Ok(text) => Ok(text),
        Err(NoMemory) => Err(Status::NoMemory),
    }
}
