//! The header of each section (gABI "Sections", "Section Header").

ghost use Rattle.std.specs.Prelude.{◌≡◌, ◌++◌, map, OnOk};
ghost use Rattle.std.specs.List.{flat_map};
ghost use Rattle.lk_elf.specs.Records.{shdr_bytes};
ghost use Rattle.lk_model.specs.Tail.{null_header};
ghost use Rattle.lk_headers.specs.SectionTable.{header_of_part, header_of_row};

use crate::appending::put_section_header;
use crate::links::{Links, linked, linked_part};
use crate::low_bits::low_32;
use crate::section_kinds::{
    entry_size_of, header_flags, header_type, info_of, part_entry_size, part_info, part_type,
};
use lk_elf::Shdr;
use lk_elf::numbers::SHT_NULL;
use lk_model::layouts::SectionRow;
use lk_report::NoMemory;
use lk_string_table::StringTable;

/// The null section header, which comes first.
pub(crate) fn null_header() -> Shdr
    ensures { result ≡ null_header }
{
    Shdr {
        sh_name: 0,
        sh_type: SHT_NULL,
        sh_flags: 0,
        sh_addr: 0,
        sh_offset: 0,
        sh_size: 0,
        sh_link: 0,
        sh_info: 0,
        sh_addralign: 0,
        sh_entsize: 0,
    }
}

/// The header of an output section.
#[tactic(auto, using(crate::proofs::FieldBytes::shdr_reported), unfolding(crate::specs::SectionTable::header_of_row))]
fn header_of_row(names: &StringTable, links: &Links, row: &SectionRow) -> Shdr
    ensures { shdr_bytes result ≡ shdr_bytes (header_of_row names.now links.now row.now) }
{
    Shdr {
        sh_name: low_32(names.offset(row.key.name.as_slice())),
        sh_type: header_type(&row.key),
        sh_flags: header_flags(row.key.class),
        sh_addr: row.addr,
        sh_offset: row.offset,
        sh_size: row.size,
        sh_link: low_32(linked(links, &row.key) as u64),
        sh_info: info_of(&row.key),
        sh_addralign: row.align,
        sh_entsize: entry_size_of(&row.key),
    }
}

/// The header of a part of the tail.
#[tactic(auto, using(crate::proofs::FieldBytes::shdr_reported), unfolding(crate::specs::SectionTable::header_of_part))]
fn header_of_part(names: &StringTable, links: &Links, row: &SectionRow) -> Shdr
    ensures { shdr_bytes result ≡ shdr_bytes (header_of_part names.now links.now row.now) }
{
    let name = row.key.name.as_slice();
    Shdr {
        sh_name: low_32(names.offset(name)),
        sh_type: part_type(name),
        sh_flags: 0,
        sh_addr: 0,
        sh_offset: row.offset,
        sh_size: row.size,
        sh_link: low_32(linked_part(links, name) as u64),
        sh_info: part_info(name),
        sh_addralign: 8,
        sh_entsize: part_entry_size(name),
    }
}

/// Puts the headers of output sections at the end.
pub(crate) fn put_rows(
    out: &mut Vec<u8>,
    names: &StringTable,
    links: &Links,
    rows: &[SectionRow],
) -> Result<(), NoMemory>
    ensures { OnOk result (out.new.items ≡ out.old.items ++ flat_map shdr_bytes (map (header_of_row names.now links.now) rows.now)) }
{
    for row in rows {
        put_section_header(out, &header_of_row(names, links, row))?;
    }
    Ok(())
}

/// Puts the headers of the tail's parts at the end.
pub(crate) fn put_parts(
    out: &mut Vec<u8>,
    names: &StringTable,
    links: &Links,
    tail: &[SectionRow],
) -> Result<(), NoMemory>
    ensures { OnOk result (out.new.items ≡ out.old.items ++ flat_map shdr_bytes (map (header_of_part names.now links.now) tail.now)) }
{
    for row in tail {
        put_section_header(out, &header_of_part(names, links, row))?;
    }
    Ok(())
}
