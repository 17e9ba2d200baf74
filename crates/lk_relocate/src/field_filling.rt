//! The fields of the relocations of a section are filled with their values, and a value that does not fit its field is
//! reported (gABI "Relocation"; psABI x86-64 "Relocation Types").

ghost use Rattle.std.specs.Prelude.{◌≡◌, ◌∷◌, ◌+◌, ◌++◌, ◌≤◌, [], All, length, OnOk};
ghost use Rattle.std.specs.Option.{option_to_list};
ghost use Rattle.lk_model.specs.Overflows.{overflow_of, path_of_input};
ghost use Rattle.lk_model.specs.RelocationTypes.{width_of};
ghost use Rattle.lk_model.specs.Views.{Resolved};
ghost use Rattle.lk_elf.specs.RelocationInfo.{r_type_of};
ghost use Rattle.lk_relocate.specs.Faults.{overflow_at, overflows};
ghost use Rattle.lk_relocate.specs.Fields.{all_filled, filled_at};
ghost use Rattle.lk_relocate.specs.ObjectSections.{IsReady, IsSectionOf, references_among, section_reference};

use crate::object_sections::ObjectSection;
use lk_elf::Rela;
use lk_model::layouts::Numbers;
use lk_obj_read::RelaList;
use lk_reloc::{apply, value};
use lk_report::{FaultList, NoMemory};
use std::alloc::Global;

/// The width of the widest field, in bytes.
const WIDEST: usize = 8;

/// Reports that the value of a relocation with these numbers does not fit its field.
fn report_overflow(
    alloc: Global,
    section: &ObjectSection<'_>,
    rela: &Rela,
    numbers: Numbers,
    value: u64,
    faults: &mut FaultList,
) -> Result<(), NoMemory>
    ensures { (r : Resolved) → IsSectionOf section.now r → OnOk result (faults.new ≡ faults.old ++ overflow_at (path_of_input r section.now.input) section.now.section rela.now.r_offset numbers.p numbers.s numbers.a value ∷ []) }
{
    let fault = section.overflow(alloc, rela, numbers, value)?;
    faults.push(fault)?;
    Ok(())
}

/// Fills the field of a relocation of a section, which begins at `at` in these bytes, or reports a value that does not
/// fit.
fn fill_field(
    alloc: Global,
    section: &ObjectSection<'_>,
    bytes: &mut [u8],
    at: usize,
    rela: &Rela,
    faults: &mut FaultList,
) -> Result<(), NoMemory>
    requires ready { IsReady section.now }
    requires within { at + width_of (r_type_of rela.now) ≤ length bytes.old }
    ensures filled { (r : Resolved) → IsSectionOf section.now r → OnOk result (bytes.new ≡ filled_at r section.now.values.now.place at bytes.old (section_reference r section.now rela.now)) }
    ensures reported { (r : Resolved) → IsSectionOf section.now r → OnOk result (faults.new ≡ faults.old ++ option_to_list (overflow_of r section.now.values.now.place (section_reference r section.now rela.now))) }
{
    let numbers = section.relocation_numbers(rela);
    let code = rela.r_type();
    let value = value(code, &numbers);
    match apply(bytes, at, code, value) {
        Ok(()) => Ok(()),
        Err(refused) => {
            report_overflow(alloc, section, rela, numbers, refused.value, faults)?;
            Ok(())
        }
    }
}

/// Fills the fields of relocations in the bytes of their section, and reports the values that do not fit.
#[tactic(auto, using(crate::proofs::FieldsByNumber::next_filled, crate::proofs::FieldsByNumber::all_filled_in, crate::proofs::FieldsByNumber::next_reported, crate::proofs::FieldsByNumber::all_reported))]
pub(crate) fn fill_fields(
    alloc: Global,
    section: &ObjectSection<'_>,
    bytes: &mut [u8],
    relas: &RelaList,
    faults: &mut FaultList,
) -> Result<(), NoMemory>
    requires ready { IsReady section.now }
    requires within { All (λ rela. rela.r_offset + width_of (r_type_of rela) ≤ length bytes.old) relas.now }
    ensures filled { (r : Resolved) → IsSectionOf section.now r → OnOk result (bytes.new ≡ all_filled r section.now.values.now.place bytes.old (references_among r section.now relas.now)) }
    ensures reported { (r : Resolved) → IsSectionOf section.now r → OnOk result (faults.new ≡ faults.old ++ overflows r section.now.values.now.place (references_among r section.now relas.now)) }
{
    for k in 0..relas.len() {
        let rela = relas.at(k);
        fill_field(alloc, section, bytes, rela.r_offset as usize, &rela, faults)?;
    }
    Ok(())
}

/// Reports the values of relocations of a section that do not fit their fields, and fills none.
#[tactic(auto, using(crate::proofs::Widths::width_short, crate::proofs::FieldsByNumber::next_reported, crate::proofs::FieldsByNumber::all_reported))]
pub(crate) fn check_fields(
    alloc: Global,
    section: &ObjectSection<'_>,
    relas: &RelaList,
    faults: &mut FaultList,
) -> Result<(), NoMemory>
    requires { IsReady section.now }
    ensures { (r : Resolved) → IsSectionOf section.now r → OnOk result (faults.new ≡ faults.old ++ overflows r section.now.values.now.place (references_among r section.now relas.now)) }
{
    for k in 0..relas.len() {
        let rela = relas.at(k);
        let mut field = [0; WIDEST];
        fill_field(alloc, section, &mut field, 0, &rela, faults)?;
    }
    Ok(())
}
