//! The faults of a reference, each kind once, in their order: an undefined name, a LOCAL symbol that is not
//! linked, a type that is not supported, an empty copy, a thread-local import that is reached directly.

ghost use Rattle.std.specs.Prelude.{◌≡◌, [], cond, false, fold, OnOk};
ghost use Rattle.lk_model.specs.Forms.{is_thread_offset};
ghost use Rattle.lk_model.specs.ScanFaults.{with_fault};
ghost use Rattle.lk_scan.specs.ReferralFaults.{direct_tls_of, dropped_on, empty_copy_of, faults_on, import_faults_on, is_empty_copy, is_refused, of_import, site_in, undefined_name_at, undefined_on, unsupported_on};

use crate::name_targets::import_at;
use crate::reported_faults::ReportedNames;
use crate::targets::{Import, Referral, Setting, Target, Way};
use lk_elf::numbers::STT_OBJECT;
use lk_reloc::{
    is_address_form, is_block_offset, is_got_form, is_known, is_none, is_size_form, is_thread_form,
    is_thread_offset, is_thread_slot_form,
};
use lk_report::{Fault, Name, NoMemory};
use lk_symtab::SymTab;

/// Reports that the name of a number is undefined.
#[tactic(auto, using(crate::proofs::NamesSeen::named_at, crate::proofs::NamesSeen::unnamed))]
fn report_name(
    reported: &mut ReportedNames,
    names: &SymTab,
    path: &Name,
    number: u32,
    referral: &Referral,
) -> Result<(), NoMemory>
    ensures { OnOk result (reported.new ≡ fold with_fault reported.old (undefined_name_at names.now (Way.Name number false) (site_in path.now referral.now))) }
{
    if number >= names.len() {
        return Ok(());
    }
    let name = &names.at(number).name;
    reported.report_undefined(name, path, referral)
}

/// Notes that a reference goes to a name that nothing defines.
fn note_undefined(
    reported: &mut ReportedNames,
    names: &SymTab,
    path: &Name,
    referral: &Referral,
) -> Result<(), NoMemory>
    ensures { OnOk result (reported.new ≡ fold with_fault reported.old (undefined_on names.now path.now referral.now)) }
{
    if !referral.target.is_undefined {
        return Ok(());
    }
    match referral.target.way {
        Way::Name { number, .. } => report_name(reported, names, path, number, referral),
        Way::Local(_) => Ok(()),
    }
}

/// Notes that a reference goes to a LOCAL symbol of a section that is not linked.
fn note_dropped(
    reported: &mut ReportedNames,
    path: &Name,
    setting: Setting,
    referral: &Referral,
) -> Result<(), NoMemory>
    ensures { OnOk result (reported.new ≡ fold with_fault reported.old (dropped_on path.now setting referral.now)) }
{
    if setting.wants_sections && referral.target.is_dropped {
        let site = reported.site(path, referral)?;
        return reported.report(Fault::DroppedLocal { site });
    }
    Ok(())
}

/// Whether a type on what it goes to is one that the linker does not take.
fn is_refused(loaded: bool, target: Target, code: u32) -> bool
    ensures { result ≡ is_refused loaded target code }
{
    let is_thread_form = is_thread_form(code);
    let is_free = is_none(code) || (is_size_form(code) || is_thread_form);
    !is_known(code)
        || ((!loaded && (is_got_form(code) || is_thread_slot_form(code)))
            || ((loaded && is_block_offset(code))
                || ((is_thread_form && target.is_no_tls) || (target.is_tls && !is_free))))
}

/// Notes that a type is not supported.
fn note_unsupported(
    reported: &mut ReportedNames,
    path: &Name,
    setting: Setting,
    referral: &Referral,
) -> Result<(), NoMemory>
    ensures { OnOk result (reported.new ≡ fold with_fault reported.old (unsupported_on path.now setting referral.now)) }
{
    let code = referral.code;
    if is_refused(setting.is_loaded, referral.target, code) {
        let site = reported.site(path, referral)?;
        return reported.report(Fault::Unsupported { code, site });
    }
    Ok(())
}

/// Whether a reference of this type to an import needs the copy of an object of size 0.
fn is_empty_copy(code: u32, import: Import) -> bool
    ensures { result ≡ is_empty_copy code import }
{
    is_address_form(code) && (import.code == STT_OBJECT as u32 && import.size == 0)
}

/// Reports that the copy of an import is empty.
fn report_empty_copy(
    reported: &mut ReportedNames,
    names: &SymTab,
    path: &Name,
    number: u32,
    referral: &Referral,
) -> Result<(), NoMemory>
    ensures { OnOk result (reported.new ≡ fold with_fault reported.old (empty_copy_of names.now number (site_in path.now referral.now))) }
{
    match import_at(names, number) {
        Some(symbol) => reported.report_empty_copy(&symbol.name, path, referral),
        None => Ok(()),
    }
}

/// Reports that a thread-local import is reached directly.
fn report_direct_tls(
    reported: &mut ReportedNames,
    names: &SymTab,
    path: &Name,
    number: u32,
    referral: &Referral,
) -> Result<(), NoMemory>
    ensures { OnOk result (reported.new ≡ fold with_fault reported.old (direct_tls_of names.now number (site_in path.now referral.now))) }
{
    match import_at(names, number) {
        Some(symbol) => {
            let name = reported.name(&symbol.name)?;
            let site = reported.site(path, referral)?;
            reported.report(Fault::ImportedTlsDirect { name, site })
        }
        None => Ok(()),
    }
}

/// Notes that a reference to an import needs an empty copy.
fn note_empty_copy(
    reported: &mut ReportedNames,
    names: &SymTab,
    path: &Name,
    referral: &Referral,
    import: Import,
) -> Result<(), NoMemory>
    ensures { OnOk result (reported.new ≡ fold with_fault reported.old (cond (is_empty_copy referral.now.code import) (empty_copy_of names.now import.name (site_in path.now referral.now)) [])) }
{
    if is_empty_copy(referral.code, import) {
        return report_empty_copy(reported, names, path, import.name, referral);
    }
    Ok(())
}

/// Notes that a reference reaches a thread-local import directly.
fn note_direct_tls(
    reported: &mut ReportedNames,
    names: &SymTab,
    path: &Name,
    referral: &Referral,
    import: Import,
) -> Result<(), NoMemory>
    ensures { OnOk result (reported.new ≡ fold with_fault reported.old (cond (is_thread_offset referral.now.code) (direct_tls_of names.now import.name (site_in path.now referral.now)) [])) }
{
    if is_thread_offset(referral.code) {
        return report_direct_tls(reported, names, path, import.name, referral);
    }
    Ok(())
}

/// Notes the faults of a reference to an import.
#[tactic(auto, using(crate::proofs::Folds::folded_twice))]
fn note_import(
    reported: &mut ReportedNames,
    names: &SymTab,
    path: &Name,
    referral: &Referral,
    import: Import,
) -> Result<(), NoMemory>
    ensures { OnOk result (reported.new ≡ fold with_fault reported.old (of_import names.now path.now referral.now import)) }
{
    note_empty_copy(reported, names, path, referral, import)?;
    note_direct_tls(reported, names, path, referral, import)?;
    Ok(())
}

/// Notes the faults of a reference in a loaded piece to an import, where it goes to one.
fn note_imported(
    reported: &mut ReportedNames,
    names: &SymTab,
    path: &Name,
    setting: Setting,
    referral: &Referral,
) -> Result<(), NoMemory>
    ensures { OnOk result (reported.new ≡ fold with_fault reported.old (import_faults_on names.now path.now setting referral.now)) }
{
    if !setting.is_loaded {
        return Ok(());
    }
    match referral.target.import {
        Some(import) => note_import(reported, names, path, referral, import),
        None => Ok(()),
    }
}

/// Notes the faults of a reference in the file with this path.
#[tactic(auto, using(crate::proofs::Folds::folded_four))]
pub fn note_faults(
    reported: &mut ReportedNames,
    names: &SymTab,
    path: &Name,
    setting: Setting,
    referral: &Referral,
) -> Result<(), NoMemory>
    ensures { OnOk result (reported.new ≡ fold with_fault reported.old (faults_on names.now path.now setting referral.now)) }
{
    note_undefined(reported, names, path, referral)?;
    note_dropped(reported, path, setting, referral)?;
    note_unsupported(reported, path, setting, referral)?;
    note_imported(reported, names, path, setting, referral)?;
    Ok(())
}
