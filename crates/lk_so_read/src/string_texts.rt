//! Texts in string sections (gABI "String Table"), at offsets of 64 bits.

ghost use Rattle.std.specs.Prelude.{◌≡◌, IfOk};
ghost use Rattle.std.specs.Option.{option_copied};
ghost use Rattle.lk_model.specs.Elf.{elf_of, name_at};
ghost use Rattle.lk_obj_parts.specs.SymbolParts.{name_in};

use lk_elf::Shdr;
use lk_obj_parts::{header_at, name_at, rest_from, section_bytes, shared_name, text_in};
use lk_report::{Bytes, Name, NoMemory};

/// The text at an offset of a string section, without its closing zero; none where there is no such section,
/// or where the zero is not in the section and in the file.
#[tactic(auto, using(lk_obj_parts::proofs::Headers::section_reported, crate::proofs::FileParts::bytes_of_file), unfolding(lk_model::specs::Elf::name_at))]
pub(crate) fn text_at<'a>(
    bytes: &'a [u8],
    sections: &[Shdr],
    strings: u32,
    offset: u64,
) -> Option<&'a [u8]>
    requires read { sections.now ≡ (elf_of bytes.now).sections }
    ensures { option_copied result ≡ name_at (elf_of bytes.now) strings offset }
{
    match header_at(sections, strings) {
        None => None,
        Some(found) => text_in(rest_from(section_bytes(bytes, found), offset as usize)),
    }
}

/// The names of the symbols of a table: the file, its section headers, and the number of the string section that the
/// table names (gABI "Symbol Table").
#[derive(Clone, Copy)]
pub(crate) struct SymbolNames<'a> {
    pub(crate) file: &'a Bytes,
    pub(crate) sections: &'a [Shdr],
    pub(crate) strings: u32,
}

impl<'a> SymbolNames<'a> {
    /// The text of a name by its offset, without its closing zero; none where there is no such section, or where the
    /// zero is not in the section and in the file.
    pub(crate) fn text(&self, offset: u32) -> Option<&'a [u8]>
        ensures { option_copied result ≡ name_in self.now.file.now self.now.sections.now self.now.strings offset }
    {
        name_at(self.file.as_slice(), self.sections, self.strings, offset)
    }

    /// A name by its offset, as `text`, which shares the bytes of the file.
    ///
    /// # Errors
    /// Out of memory.
    pub(crate) fn name(&self, offset: u32) -> Result<Option<Name>, NoMemory>
        ensures { IfOk result (λ name. name ≡ name_in self.now.file.now self.now.sections.now self.now.strings offset) }
    {
        shared_name(self.file, self.sections, self.strings, offset)
    }
}
