//! Whether an input is a shared object, which links do not read yet.

ghost use Rattle.std.specs.Prelude.{◌≡◌, find, IfOk};
ghost use Rattle.std.specs.Option.{option_copied};
ghost use Rattle.lk_model.specs.Answers.{is_shared_kind};
ghost use Rattle.lk_model.specs.Kinds.{kind_of};
ghost use Rattle.lk_inputs.specs.FilesRead.{first_shared, is_shared_file};

use crate::input_files::InputFile;
use lk_model::summaries::Kind;
use lk_report::{Name, NoMemory};
use lk_summary::kind_of;
use std::alloc::Global;

/// Whether bytes begin as a shared object does (gABI "ELF Header": `e_type` is ET_DYN).
fn is_shared(bytes: &[u8]) -> bool
    ensures { result ≡ is_shared_kind (kind_of bytes.now) }
{
    match kind_of(bytes) {
        Ok(Kind::Shared) => true,
        Ok(Kind::Object) | Err(_) => false,
    }
}

/// Whether an input is a shared object; a member of a lib group is always read as an object.
fn is_shared_file(file: &InputFile) -> bool
    ensures { result ≡ is_shared_file file.now }
{
    if file.name.lib == 0 {
        is_shared(file.bytes.as_slice())
    } else {
        false
    }
}

/// The first input that is a shared object.
fn find_shared(files: &[InputFile]) -> Option<&InputFile>
    ensures { option_copied result ≡ find is_shared_file files.now }
{
    files.iter().find(|file| is_shared_file(file))
}

/// The path of the first input that is a shared object, where there is one.
///
/// # Errors
/// Out of memory alone.
pub fn first_shared(alloc: Global, files: &[InputFile]) -> Result<Option<Name>, NoMemory>
    ensures { IfOk result (λ path. path ≡ first_shared files.now) }
{
    match find_shared(files) {
        Some(file) => Ok(Some(file.name.path.copy(alloc)?)),
        None => Ok(None),
    }
}
