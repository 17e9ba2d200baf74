//! Names in string sections (gABI "String Table"): slices of the file, or names that share its bytes. Nothing is
//! copied.

ghost use Rattle.std.specs.Prelude.{◌≡◌, ◌==◌, [], take, drop, position, IfOk};
ghost use Rattle.std.specs.Option.{option_copied};
ghost use Rattle.lk_model.specs.Elf.{name_at, section_name, text_in};
ghost use Rattle.lk_obj_parts.specs.ElfViews.{elf_from, header_at};
ghost use Rattle.lk_obj_parts.specs.SymbolParts.{name_in};

use lk_elf::{Ehdr, Shdr};
use lk_report::{Bytes, Name, NoMemory};

/// What is from `at` on; nothing past the end.
pub fn rest_from(bytes: &[u8], at: usize) -> &[u8]
    ensures { result.now ≡ drop at bytes.now }
{
    if at < bytes.len() { &bytes[at..] } else { &[] }
}

/// At most the first `size` bytes.
fn front_of(bytes: &[u8], size: usize) -> &[u8]
    ensures { result.now ≡ take size bytes.now }
{
    if size < bytes.len() {
        &bytes[..size]
    } else {
        bytes
    }
}

/// The bytes of a section, as far as the file has them.
pub fn section_bytes<'a>(bytes: &'a [u8], header: &Shdr) -> &'a [u8]
    ensures { result.now ≡ take header.now.sh_size (drop header.now.sh_offset bytes.now) }
{
    front_of(
        rest_from(bytes, header.sh_offset as usize),
        header.sh_size as usize,
    )
}

fn zero_in(bytes: &[u8]) -> Option<usize>
    ensures { result ≡ position (λ b. b == 0) bytes.now }
{
    bytes.iter().position(|b| *b == 0)
}

/// A text up to its closing zero; none where no zero follows.
#[tactic(auto, using(lk_model::proofs::ClosedTexts::text_none, lk_model::proofs::ClosedTexts::text_some))]
pub fn text_in(bytes: &[u8]) -> Option<&[u8]>
    ensures { option_copied result ≡ text_in bytes.now }
{
    match zero_in(bytes) {
        None => None,
        Some(end) => Some(front_of(bytes, end)),
    }
}

/// The header of a section by its number; none for number 0, which names no section.
pub fn header_at(sections: &[Shdr], n: u32) -> Option<&Shdr>
    ensures { option_copied result ≡ header_at sections.now n }
{
    if n == 0 {
        return None;
    }
    sections.get(n as usize)
}

/// The name at an offset of a string section, without its closing zero; none where there is no such
/// section, or where the zero is not in the section and in the file.
#[tactic(auto, using(crate::proofs::Headers::section_reported), unfolding(lk_model::specs::Elf::name_at))]
pub fn name_at<'a>(
    bytes: &'a [u8],
    sections: &[Shdr],
    strings: u32,
    offset: u32,
) -> Option<&'a [u8]>
    ensures { (header : Ehdr) → option_copied result ≡ name_at (elf_from bytes.now header sections.now []) strings offset }
{
    match header_at(sections, strings) {
        None => None,
        Some(found) => text_in(rest_from(section_bytes(bytes, found), offset as usize)),
    }
}

/// The name of a section; none where there is no such section, or no name of it.
#[tactic(auto, using(crate::proofs::Headers::section_reported), unfolding(lk_model::specs::Elf::section_name))]
pub fn section_name<'a>(
    bytes: &'a [u8],
    header: &Ehdr,
    sections: &[Shdr],
    n: u32,
) -> Option<&'a [u8]>
    ensures { option_copied result ≡ section_name (elf_from bytes.now header.now sections.now []) n }
{
    match header_at(sections, n) {
        None => None,
        Some(found) => name_at(bytes, sections, u32::from(header.e_shstrndx), found.sh_name),
    }
}

/// The name at an offset of a string section, as `name_at`, which shares the bytes of the file.
///
/// # Errors
/// Out of memory.
#[tactic(auto, using(lk_model::proofs::ClosedTexts::text_none, lk_model::proofs::ClosedTexts::text_some, crate::proofs::SharedTexts::text_lies, crate::proofs::SharedTexts::text_shared), unfolding(crate::specs::SymbolParts::name_in))]
pub fn shared_name(
    file: &Bytes,
    sections: &[Shdr],
    strings: u32,
    offset: u32,
) -> Result<Option<Name>, NoMemory>
    ensures { IfOk result (λ name. name ≡ name_in file.now sections.now strings offset) }
{
    let Some(header) = header_at(sections, strings) else {
        return Ok(None);
    };
    let rest = rest_from(section_bytes(file.as_slice(), header), offset as usize);
    match zero_in(rest) {
        None => Ok(None),
        Some(length) => {
            let start = header.sh_offset as usize + offset as usize;
            Ok(Some(file.name(start, start + length)?))
        }
    }
}

/// The name of a section, as `section_name`, which shares the bytes of the file.
///
/// # Errors
/// Out of memory.
#[tactic(auto, using(crate::proofs::Headers::section_reported, crate::proofs::SymbolRows::name_reported), unfolding(lk_model::specs::Elf::section_name))]
pub fn shared_section_name(
    file: &Bytes,
    header: &Ehdr,
    sections: &[Shdr],
    n: u32,
) -> Result<Option<Name>, NoMemory>
    ensures { IfOk result (λ name. name ≡ section_name (elf_from file.now header.now sections.now []) n) }
{
    match header_at(sections, n) {
        None => Ok(None),
        Some(found) => shared_name(file, sections, u32::from(header.e_shstrndx), found.sh_name),
    }
}
