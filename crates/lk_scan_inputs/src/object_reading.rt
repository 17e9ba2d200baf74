//! The files of the added inputs become objects, by the numbers of the inputs.
//!
//! Each file was checked and summarized as it was read, and that is not done again: an object takes the bytes of
//! its file, and a copy of its summary, which later passes ask for by input. What is read here is what a summary
//! does not hold, the section headers and the relocations, and of the added inputs alone.

ghost use Rattle.std.specs.Prelude.{◌≡◌, ◌∷◌, ◌++◌, [], cond, filter_map, map, Some, None, length, IfOk, OnOk};
ghost use Rattle.lk_model.specs.Elf.{elf_of};
ghost use Rattle.lk_model.specs.ObjectChecks.{object_fault};
ghost use Rattle.lk_model.specs.Objects.{summary_in};
ghost use Rattle.lk_inputs.specs.FilesRead.{fault_in, summary_of};
ghost use Rattle.lk_scan_inputs.specs.Objects.{HasObjects, marked_objects, objects_of, with_input};

use lk_inputs::{InputFile, InputFileList};
use lk_marks::Marks;
use lk_model::input_names::{InputName, InputNameList};
use lk_model::summaries::InputSummary;
use lk_obj_read::{Object, copy_summary, object_of};
use lk_report::{Bytes, List, NoMemory};
use lk_resolve::Resolution;
use std::alloc::Global;

/// Objects by the numbers of the inputs that they are; none for an input that is not added.
pub type ObjectList = List<Option<Object>>;

/// The inputs of a link, of which those that are added are objects. An object owns the bytes of its file; the
/// bytes of the other files are dropped.
#[derive(Drop)]
pub struct LinkObjects {
    /// What is known of each input, by its number.
    pub names: InputNameList,
    /// The object of each input that is added, by its number.
    pub objects: ObjectList,
}

/// The object of a file, where its input is added.
fn object_where(
    alloc: Global,
    is_added: bool,
    bytes: Bytes,
    summary: &InputSummary,
) -> Result<Option<Object>, NoMemory>
    requires sound { object_fault bytes ≡ None }
    requires summary { summary.now ≡ summary_in (elf_of bytes) }
    ensures { IfOk result (λ object. object ≡ cond is_added (Some bytes) None) }
{
    if !is_added {
        return Ok(None);
    }
    let summary = copy_summary(alloc, summary)?;
    Ok(Some(object_of(alloc, bytes, summary)?))
}

/// Puts one more input at the end.
fn put_input(
    read: &mut LinkObjects,
    name: InputName,
    object: Option<Object>,
) -> Result<(), NoMemory>
    ensures { OnOk result (read.new ≡ record { names = read.old.names ++ name ∷ []; objects = read.old.objects ++ object ∷ [] }) }
{
    read.names.push(name)?;
    read.objects.push(object)?;
    Ok(())
}

/// Puts one more input at the end, with its object, where it is added.
fn read_input(
    alloc: Global,
    is_added: bool,
    file: InputFile,
    summary: &InputSummary,
    read: &mut LinkObjects,
) -> Result<(), NoMemory>
    requires sound { object_fault file.bytes ≡ None }
    requires summary { summary.now ≡ summary_of file }
    ensures { OnOk result (read.new ≡ with_input read.old is_added file) }
{
    let InputFile { name, bytes } = file;
    let object = object_where(alloc, is_added, bytes, summary)?;
    put_input(read, name, object)
}

/// The inputs of these files, with the objects of those that are marked.
#[tactic(auto, using(crate::proofs::ObjectsRead::file_sound, crate::proofs::ObjectsRead::summary_there, crate::proofs::ObjectsRead::summary_here))]
fn read_marked(
    alloc: Global,
    marks: &[bool],
    files: InputFileList,
    summaries: &[InputSummary],
) -> Result<LinkObjects, NoMemory>
    requires alike { length marks.now ≡ length files }
    requires sound { filter_map fault_in files ≡ [] }
    requires summaries { summaries.now ≡ map summary_of files }
    ensures { IfOk result (HasObjects (marked_objects marks.now files) files) }
{
    let mut read = LinkObjects {
        names: List::new(alloc),
        objects: List::new(alloc),
    };
    let mut number = 0;
    for file in files.into_vec() {
        read_input(alloc, marks[number], file, &summaries[number], &mut read)?;
        number += 1;
    }
    Ok(read)
}

/// The inputs of a link, with the objects of those that are added (gABI "Object Files"). The objects take the
/// bytes of the files over. No file has a fault, and these are the summaries of the files, by number.
///
/// # Errors
/// Out of memory alone.
pub fn read_objects(
    alloc: Global,
    files: InputFileList,
    summaries: &[InputSummary],
    resolution: &Resolution,
) -> Result<LinkObjects, NoMemory>
    requires sound { filter_map fault_in files ≡ [] }
    requires summaries { summaries.now ≡ map summary_of files }
    ensures read { IfOk result (HasObjects (objects_of resolution.now.added files) files) }
    ensures count { IfOk result (λ read. length read.objects ≡ length files) }
{
    let count = files.as_slice().len();
    let marks = Marks::of(alloc, count, resolution.added().as_slice())?;
    read_marked(alloc, marks.as_slice(), files, summaries)
}
