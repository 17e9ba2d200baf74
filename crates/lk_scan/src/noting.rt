//! One pass over the kept pieces of an object and their relocations: each reference is looked at once, and
//! what it needs, its faults and what is recorded of it are noted.

ghost use Rattle.std.specs.Prelude.{◌≡◌, ◌<◌, ◌++◌, [], true, false, IsTrue, OnOk, get_or, length};
ghost use Rattle.lk_model.specs.Elf.{elf_of};
ghost use Rattle.lk_model.specs.Objects.{is_piece_in, relocations_in, summary_in};
ghost use Rattle.lk_model.specs.ScanFaults.{is_eh_frame};
ghost use Rattle.lk_scan.specs.Noted.{nothing_noted, with_pieces, with_referral, with_relas};
ghost use Rattle.lk_scan.specs.ReferralNeeds.{recorded_on};
ghost use Rattle.lk_scan.specs.SymbolTargets.{targets_of};
ghost use Rattle.lk_scan.specs.Targets.{referral_of, setting_of};

use crate::need_sets::NeedSets;
use crate::referral_faults::note_faults;
use crate::reported_faults::ReportedNames;
use crate::symbol_targets::symbol_target;
use crate::targets::{Referral, Setting, Target, Way};
use lk_elf::Rela;
use lk_model::classes::is_alloc;
use lk_model::layouts::{Class, SectionKey};
use lk_model::records::{Reference, ReferenceList};
use lk_model::summaries::PieceInfo;
use lk_obj_read::Object;
use lk_report::{List, Name, NoMemory};
use lk_resolve::Resolution;
use lk_symtab::SymTab;
use std::alloc::Global;

/// What is noted of the references so far.
#[derive(Drop)]
pub struct Scan {
    pub needs: NeedSets,
    pub reported: ReportedNames,
    pub references: ReferenceList,
}

/// Nothing is noted.
pub fn new_scan(alloc: Global) -> Scan
    ensures { result ≡ nothing_noted }
{
    Scan {
        needs: NeedSets::new(alloc),
        reported: ReportedNames::new(alloc),
        references: List::new(alloc),
    }
}

/// Whether a class is that of read-only sections.
fn is_read_only(class: Class) -> bool
    ensures { result ≡ elim class [ Class.R ↦ true | Class.X ↦ false | Class.W ↦ false | Class.WX ↦ false | Class.Tdata ↦ false | Class.Tbss ↦ false | Class.Bss ↦ false | Class.N ↦ false ] }
{
    match class {
        Class::R => true,
        Class::X | Class::W | Class::WX | Class::Tdata | Class::Tbss | Class::Bss | Class::N =>
            false,
    }
}

/// Whether an output section is the read-only `.eh_frame`.
fn is_eh_frame(key: &SectionKey) -> bool
    ensures { result ≡ is_eh_frame key.now }
{
    key.name.as_slice() == b".eh_frame".as_slice() && is_read_only(key.class)
}

/// What an output section says of the references in it.
fn setting_of(key: &SectionKey) -> Setting
    ensures { result ≡ setting_of key.now }
{
    let is_loaded = is_alloc(key.class);
    Setting {
        is_loaded,
        wants_sections: is_loaded && !is_eh_frame(key),
    }
}

/// Notes what an image records of a reference.
fn note_recorded(references: &mut ReferenceList, referral: &Referral) -> Result<(), NoMemory>
    ensures { OnOk result (references.new ≡ references.old ++ recorded_on referral.now) }
{
    match referral.target.way {
        Way::Name { number, weak } => references.push(Reference {
            input: referral.input,
            section: referral.section,
            offset: referral.offset,
            code: referral.code,
            name: number,
            addend: referral.addend,
            weak,
        }),
        Way::Local(_) => Ok(()),
    }
}

/// Looks at a reference.
fn note(
    scan: &mut Scan,
    names: &SymTab,
    path: &Name,
    setting: Setting,
    referral: &Referral,
) -> Result<(), NoMemory>
    ensures { OnOk result (scan.new ≡ with_referral names.now path.now setting scan.old referral.now) }
{
    note_faults(&mut scan.reported, names, path, setting, referral)?;
    if setting.is_loaded {
        scan.needs.note(referral)?;
    }
    note_recorded(&mut scan.references, referral)?;
    Ok(())
}

/// A relocation of a section as a reference.
fn referral_of(
    targets: &[Target],
    resolution: &Resolution,
    object: &Object,
    input: u32,
    section: u32,
    rela: &Rela,
) -> Referral
    requires { targets.now ≡ targets_of resolution.now (elf_of object.now) (summary_in (elf_of object.now)) input }
    ensures { result ≡ referral_of resolution.now (elf_of object.now) (summary_in (elf_of object.now)) input section rela.now }
{
    Referral {
        input,
        section,
        offset: rela.r_offset,
        code: rela.r_type(),
        addend: rela.r_addend,
        target: symbol_target(targets, resolution, object, input, rela.r_symbol()),
    }
}

/// Looks at the relocations of a piece.
#[tactic(auto, using(crate::proofs::RelasNoted::next_noted, crate::proofs::RelasNoted::all_noted))]
fn note_piece(
    scan: &mut Scan,
    targets: &[Target],
    resolution: &Resolution,
    object: &Object,
    input: u32,
    piece: &PieceInfo,
) -> Result<(), NoMemory>
    requires targets { targets.now ≡ targets_of resolution.now (elf_of object.now) (summary_in (elf_of object.now)) input }
    requires input { input < length resolution.now.paths }
    requires piece { IsTrue (is_piece_in (elf_of object.now) piece.now.section) }
    ensures { OnOk result (scan.new ≡ with_relas resolution.now (elf_of object.now) (summary_in (elf_of object.now)) input piece.now scan.old (relocations_in (elf_of object.now) piece.now.section)) }
{
    let setting = setting_of(&piece.key);
    let path = resolution.path(input);
    let section = piece.section;
    let relas = object.relocations(section);
    for k in 0..relas.len() {
        let rela = relas.at(k);
        let referral = referral_of(targets, resolution, object, input, section, &rela);
        note(scan, resolution.names(), path, setting, &referral)?;
    }
    Ok(())
}

/// Looks at the references of the kept pieces of an object, whose symbols mean this.
pub fn note_pieces(
    scan: &mut Scan,
    targets: &[Target],
    resolution: &Resolution,
    object: &Object,
    input: u32,
) -> Result<(), NoMemory>
    requires targets { targets.now ≡ targets_of resolution.now (elf_of object.now) (summary_in (elf_of object.now)) input }
    requires input { input < length resolution.now.paths }
    ensures { OnOk result (scan.new ≡ with_pieces resolution.now (elf_of object.now) (summary_in (elf_of object.now)) input scan.old (summary_in (elf_of object.now)).pieces) }
{
    let pieces = object.summary().pieces.as_slice();
    for piece in pieces {
        if resolution.is_kept(input, piece.section) {
            note_piece(scan, targets, resolution, object, input, piece)?;
        }
    }
    Ok(())
}
