//! A section of an object is linked: its bytes are copied to their place in the file, and its fields are filled
//! (gABI "Relocation").

ghost use Rattle.std.specs.Prelude.{◌≡◌, ◌+◌, ◌++◌, ◌≤◌, All, length, OnOk};
ghost use Rattle.lk_model.specs.LinkedBytes.{patch};
ghost use Rattle.lk_model.specs.RelocationTypes.{width_of};
ghost use Rattle.lk_model.specs.Views.{Resolved};
ghost use Rattle.lk_elf.specs.RelocationInfo.{r_type_of};
ghost use Rattle.lk_relocate.specs.Faults.{overflows};
ghost use Rattle.lk_relocate.specs.Fields.{all_filled};
ghost use Rattle.lk_relocate.specs.ObjectSections.{IsReady, IsSectionOf, references_among, section_relocations, with_section};

use crate::field_filling::{check_fields, fill_fields};
use crate::object_sections::ObjectSection;
use crate::piece_places::place_in;
use lk_model::layouts::PieceRow;
use lk_obj_read::RelaList;
use lk_report::{FaultList, NoMemory};
use std::alloc::Global;

/// Copies the bytes of a section to the place `at` in the file, and fills the fields of its relocations there.
fn fill_at(
    alloc: Global,
    section: &ObjectSection<'_>,
    image: &mut [u8],
    at: usize,
    bytes: &[u8],
    relas: &RelaList,
    faults: &mut FaultList,
) -> Result<(), NoMemory>
    requires ready { IsReady section.now }
    requires within { All (λ rela. rela.r_offset + width_of (r_type_of rela) ≤ length bytes.now) relas.now }
    requires inside { at + length bytes.now ≤ length image.old }
    ensures filled { (r : Resolved) → IsSectionOf section.now r → OnOk result (image.new ≡ patch image.old at (all_filled r section.now.values.now.place bytes.now (references_among r section.now relas.now))) }
    ensures reported { (r : Resolved) → IsSectionOf section.now r → OnOk result (faults.new ≡ faults.old ++ overflows r section.now.values.now.place (references_among r section.now relas.now)) }
{
    let part = &mut image[at..at + bytes.len()];
    part.copy_from_slice(bytes);
    fill_fields(alloc, section, part, relas, faults)?;
    Ok(())
}

/// Links a section of an object, which is this placed piece, into the file `image`. Without a place in the file its
/// relocations are checked all the same. A section that is no piece of its object is left out.
pub(crate) fn link_section(
    alloc: Global,
    section: &ObjectSection<'_>,
    piece: &PieceRow,
    image: &mut [u8],
    faults: &mut FaultList,
) -> Result<(), NoMemory>
    requires { IsReady section.now }
    ensures linked { (r : Resolved) → IsSectionOf section.now r → OnOk result (image.new ≡ with_section r section.now piece.now image.old) }
    ensures reported { (r : Resolved) → IsSectionOf section.now r → OnOk result (faults.new ≡ faults.old ++ overflows r section.now.values.now.place (references_among r section.now (section_relocations section.now))) }
{
    if section.tables.marks.is_marked(section.section) {
        let bytes = section.object.piece_bytes(section.section);
        let relas = section.object.relocations(section.section);
        match place_in(section.values.placement(), image.len(), piece, bytes.len()) {
            None => check_fields(alloc, section, relas, faults),
            Some(at) => {
                fill_at(alloc, section, image, at, bytes, relas, faults)?;
                Ok(())
            }
        }
    } else {
        Ok(())
    }
}
