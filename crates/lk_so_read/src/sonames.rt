//! The name by which an image needs a shared object (gABI "Dynamic Section", DT_SONAME).

ghost use Rattle.std.specs.Prelude.{◌≡◌, ◌<◌, ◌^◌, Some, length, unwrap_or};
ghost use Rattle.lk_model.specs.Checks.{first_fault};
ghost use Rattle.lk_model.specs.Elf.{elf_of};
ghost use Rattle.lk_model.specs.SharedChecks.{soname_checks};
ghost use Rattle.lk_model.specs.SharedObjects.{last_part, soname_under};
ghost use Rattle.lk_summary.specs.Readings.{ReadGives};

use crate::dynamic_entries::soname_offset;
use crate::string_texts::text_at;
use lk_elf::Shdr;
use lk_report::{InputFault, Name};
use lk_summary::ReadFailure;
use std::alloc::Global;

/// The last part of a path, which is after its last slash; all of it where it has none.
fn last_part(path: &[u8]) -> &[u8]
    ensures { result.now ≡ last_part path.now }
{
    let mut start = path.len();
    while start > 0 && path[start - 1] != b'/' {
        start -= 1;
    }
    &path[start..]
}

/// The name of the file of this dynamic section: the text of its first SONAME, also an empty one, else the
/// last part of its path.
///
/// # Errors
/// A SONAME without a text; out of memory.
#[tactic(auto, unfolding(lk_model::specs::SharedChecks::soname_checks))]
pub(crate) fn soname(
    alloc: Global,
    bytes: &[u8],
    sections: &[Shdr],
    dynamic: &(u32, Shdr),
    path: &Name,
) -> Result<Name, ReadFailure>
    requires read { sections.now ≡ (elf_of bytes.now).sections }
    ensures { ReadGives (first_fault (soname_checks (elf_of bytes.now) (Some dynamic.now))) (λ name. name ≡ unwrap_or (soname_under (elf_of bytes.now) dynamic.now) (last_part path.now)) result }
{
    let Some(offset) = soname_offset(bytes, &dynamic.1) else {
        return Ok(Name::from_slice(alloc, last_part(path.as_slice()))?);
    };
    match text_at(bytes, sections, dynamic.1.sh_link, offset) {
        None => Err(ReadFailure::Input(InputFault::BadName(dynamic.0))),
        Some(text) => Ok(Name::from_slice(alloc, text)?),
    }
}
