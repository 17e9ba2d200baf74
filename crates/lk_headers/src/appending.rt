//! Headers put at the end of bytes.

ghost use Rattle.std.specs.Prelude.{◌≡◌, ◌≤◌, ◌-◌, ◌++◌, length, replicate, OnOk};
ghost use Rattle.std.specs.List.{flat_map};
ghost use Rattle.lk_elf.specs.Records.{ehdr_bytes, phdr_bytes, shdr_bytes};
ghost use Rattle.lk_headers.specs.Shown.{shown_headers};

use crate::shown::{Shown, header_of, is_shown};
use lk_elf::{Ehdr, Phdr, Shdr};
use lk_model::layouts::SectionRow;
use lk_report::NoMemory;

/// Puts bytes at the end.
pub(crate) fn put_bytes(out: &mut Vec<u8>, bytes: &[u8]) -> Result<(), NoMemory>
    ensures { OnOk result (out.new.items ≡ out.old.items ++ bytes.now) }
{
    match out.extend_from_slice(bytes) {
        Ok(()) => Ok(()),
        Err(_) => Err(NoMemory),
    }
}

/// Puts zeros at the end, up to a place that is not before it.
pub(crate) fn put_zeros_to(out: &mut Vec<u8>, at: usize) -> Result<(), NoMemory>
    requires { length out.old.items ≤ at }
    ensures { OnOk result (out.new.items ≡ out.old.items ++ replicate (at - length out.old.items) 0) }
{
    match out.resize(at, 0) {
        Ok(()) => Ok(()),
        Err(_) => Err(NoMemory),
    }
}

/// Puts a program header at the end.
pub(crate) fn put_header(out: &mut Vec<u8>, header: &Phdr) -> Result<(), NoMemory>
    ensures { OnOk result (out.new.items ≡ out.old.items ++ phdr_bytes header.now) }
{
    let mut bytes = [0u8; 56];
    header.write_at(&mut bytes, 0);
    put_bytes(out, &bytes)
}

/// Puts a file header at the end.
pub(crate) fn put_file_header(out: &mut Vec<u8>, header: &Ehdr) -> Result<(), NoMemory>
    ensures { OnOk result (out.new.items ≡ out.old.items ++ ehdr_bytes header.now) }
{
    let mut bytes = [0u8; 64];
    header.write_at(&mut bytes, 0);
    put_bytes(out, &bytes)
}

/// Puts a section header at the end.
pub(crate) fn put_section_header(out: &mut Vec<u8>, header: &Shdr) -> Result<(), NoMemory>
    ensures { OnOk result (out.new.items ≡ out.old.items ++ shdr_bytes header.now) }
{
    let mut bytes = [0u8; 64];
    header.write_at(&mut bytes, 0);
    put_bytes(out, &bytes)
}

/// Puts the headers of the sections of a kind at the end.
pub(crate) fn put_shown(out: &mut Vec<u8>, kind: Shown, rows: &[SectionRow]) -> Result<(), NoMemory>
    ensures { OnOk result (out.new.items ≡ out.old.items ++ flat_map phdr_bytes (shown_headers kind rows.now)) }
{
    for row in rows {
        if is_shown(kind, row) {
            put_header(out, &header_of(kind, row))?;
        }
    }
    Ok(())
}
