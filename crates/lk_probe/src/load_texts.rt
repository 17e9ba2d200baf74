//! The text of what a loader makes of the file of a path (gABI "Program Loading").

ghost use Rattle.std.specs.Prelude.{◌≡◌, ◌++◌, flat_map, IfOk, OnOk, Some};
ghost use Rattle.lk_report.specs.FileMap.{FileMap};
ghost use Rattle.lk_model.specs.Loads.{load_refusal};
ghost use Rattle.lk_inputs.specs.FileAnswers.{StatusCounts, known_map};
ghost use Rattle.lk_probe.specs.FileTexts.{IsText};
ghost use Rattle.lk_probe.specs.LoadTexts.{ReportsLoad, image_text, loaded_text, need_line, numbered_text, run_line, tls_line};

use crate::file_texts::one_fault;
use crate::rows::put_field;
use crate::writing::{put, put_number};
use lk_loader::{LoadFault, Loaded, Run, TlsSegment, load};
use lk_outside::{Files, ReadAnswer};
use lk_report::{Bytes, Fault, Name, NoMemory, Status};
use std::alloc::Global;

/// Puts the line of a run: its address, its size in bytes and its rights.
fn put_run(alloc: Global, text: &mut Vec<u8>, run: &Run) -> Result<(), NoMemory>
    ensures { OnOk result (text.new.items ≡ text.old.items ++ run_line run.now) }
{
    put(text, b"run")?;
    put_field(alloc, text, run.addr)?;
    put_field(alloc, text, run.bytes.as_slice().len() as u64)?;
    put_field(alloc, text, u64::from(run.flags))?;
    put(text, b"\n")
}

/// Puts the lines of runs, in order.
fn put_runs(alloc: Global, text: &mut Vec<u8>, runs: &[Run]) -> Result<(), NoMemory>
    ensures { OnOk result (text.new.items ≡ text.old.items ++ flat_map run_line runs.now) }
{
    for run in runs {
        put_run(alloc, text, run)?;
    }
    Ok(())
}

/// Puts the line of the thread-local segment, where there is one.
fn put_tls(alloc: Global, text: &mut Vec<u8>, tls: Option<TlsSegment>) -> Result<(), NoMemory>
    ensures { OnOk result (text.new.items ≡ text.old.items ++ tls_line tls) }
{
    let Some(tls) = tls else {
        return Ok(());
    };
    put(text, b"tls")?;
    put_field(alloc, text, tls.addr)?;
    put_field(alloc, text, tls.file)?;
    put_field(alloc, text, tls.memory)?;
    put_field(alloc, text, tls.align)?;
    put(text, b"\n")
}

/// Puts the line of a shared object that is needed.
fn put_need(text: &mut Vec<u8>, name: &Name) -> Result<(), NoMemory>
    ensures { OnOk result (text.new.items ≡ text.old.items ++ need_line name.now) }
{
    put(text, b"needs ")?;
    put(text, name.as_slice())?;
    put(text, b"\n")
}

/// Puts the lines of shared objects that are needed, in order.
fn put_needs(text: &mut Vec<u8>, names: &[Name]) -> Result<(), NoMemory>
    ensures { OnOk result (text.new.items ≡ text.old.items ++ flat_map need_line names.now) }
{
    for name in names {
        put_need(text, name)?;
    }
    Ok(())
}

/// What is said of what is loaded.
fn loaded_text(alloc: Global, loaded: &Loaded) -> Result<Bytes, NoMemory>
    ensures { IfOk result (λ text. text ≡ loaded_text loaded.now) }
{
    let mut text = Vec::new(alloc);
    put_runs(alloc, &mut text, loaded.runs.as_slice())?;
    put(&mut text, b"entry")?;
    put_field(alloc, &mut text, loaded.entry)?;
    put(&mut text, b"\n")?;
    put_tls(alloc, &mut text, loaded.tls)?;
    put_needs(&mut text, loaded.needs.as_slice())?;
    put_number(alloc, &mut text, loaded.symbols.as_slice().len())?;
    put(&mut text, b" symbols, ")?;
    put_number(alloc, &mut text, loaded.relocations.as_slice().len())?;
    put(&mut text, b" relocations\n")?;
    Bytes::from_vec(text)
}

/// A text.
fn text_of(alloc: Global, bytes: &[u8]) -> Result<Bytes, NoMemory>
    ensures { IfOk result (λ text. text ≡ bytes.now) }
{
    let mut text = Vec::new(alloc);
    put(&mut text, bytes)?;
    Bytes::from_vec(text)
}

/// What is said of a program header that is refused, by its number.
fn numbered_text(alloc: Global, header: u32, why: &[u8]) -> Result<Bytes, NoMemory>
    ensures { IfOk result (λ text. text ≡ numbered_text header why.now) }
{
    let mut text = Vec::new(alloc);
    put(&mut text, b"refused: program header ")?;
    put_number(alloc, &mut text, header as usize)?;
    put(&mut text, why)?;
    Bytes::from_vec(text)
}

/// What is said of what a loader makes of an image, or why it takes none.
fn image_text(alloc: Global, image: &[u8]) -> Result<Bytes, NoMemory>
    ensures { IfOk result (λ text. text ≡ image_text (load_refusal image.now) image.now) }
{
    match load(alloc, image) {
        Ok(loaded) => loaded_text(alloc, &loaded),
        Err(LoadFault::NotElf) => text_of(
            alloc,
            b"refused: no ELF64 executable in little-endian byte order\n",
        ),
        Err(LoadFault::BadTable(n)) => {
            numbered_text(alloc, n, b" or its range is not in the file\n")
        }
        Err(LoadFault::Overlap(n)) => {
            numbered_text(alloc, n, b" begins below the end of an earlier segment\n")
        }
        Err(LoadFault::BadDynamic) => text_of(
            alloc,
            b"refused: what the dynamic section names is not loaded\n",
        ),
        Err(LoadFault::NoMemory) => Err(NoMemory),
    }
}

/// The same, or out of memory as a status.
fn image_reported(alloc: Global, image: &[u8]) -> Result<Bytes, Status>
    ensures { IsText (image_text (load_refusal image.now) image.now) result }
{
    match image_text(alloc, image) {
        Ok(text) => Ok(text),
        Err(NoMemory) => Err(Status::NoMemory),
    }
}

/// What is said of what a loader makes of the file of a path, or the status that is reported in its place.
///
/// # Errors
/// A file that is not there; a read that failed; out of memory.
#[tactic(auto, using(lk_inputs::proofs::CallsReported::read_reports, lk_inputs::proofs::CallsReported::read_counts))]
pub fn load_reported<F: Files>(alloc: Global, path: Name, files: &mut F) -> Result<Bytes, Status>
    ensures reported { (there : FileMap) → known_map (F.state files.old) ≡ Some there → ReportsLoad path there result }
    ensures faults { StatusCounts (F.state files.old) result (F.state files.new) }
{
    match files.read(&path) {
        ReadAnswer::Got(image) => image_reported(alloc, image.as_slice()),
        ReadAnswer::Absent => Err(one_fault(alloc, Fault::Missing { path })),
        ReadAnswer::Failed => Err(Status::ReadFault(path)),
        ReadAnswer::NoMemory => Err(Status::NoMemory),
    }
}
