//! The texts that records name, in `.gnu_incremental_strtab` (gABI "String Table").

ghost use Rattle.std.specs.Prelude.{◌≡◌, ◌<◌, length, IfOk};
ghost use Rattle.lk_model.specs.Texts.{begins_text, text_at};

use crate::cursors::{rest_from, zero_in};
use lk_report::{Bytes, Name, NoMemory};

/// Whether a text begins at an offset: at 0, or behind a zero.
fn begins_text(bytes: &[u8], offset: usize) -> bool
    requires { offset < length bytes.now }
    ensures { result ≡ begins_text bytes.now offset }
{
    if offset == 0 {
        return true;
    }
    bytes[offset - 1] == 0
}

/// The text at an offset, without its closing zero, which shares the bytes of the section; none where no text
/// begins there, or its zero is not in the section.
///
/// # Errors
/// Out of memory.
#[tactic(auto, using(crate::proofs::TextsFound::text_past, crate::proofs::TextsFound::text_inside, crate::proofs::TextsFound::text_unended, crate::proofs::TextsFound::text_lies, crate::proofs::TextsFound::text_found))]
pub(crate) fn text_at(strtab: &Bytes, offset: u32) -> Result<Option<Name>, NoMemory>
    ensures { IfOk result (λ text. text ≡ text_at strtab.now offset) }
{
    let bytes = strtab.as_slice();
    let start = offset as usize;
    if start >= bytes.len() {
        return Ok(None);
    }
    if !begins_text(bytes, start) {
        return Ok(None);
    }
    match zero_in(rest_from(bytes, start)) {
        None => Ok(None),
        Some(size) => Ok(Some(strtab.name(start, start + size)?)),
    }
}
