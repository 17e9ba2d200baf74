//! The dynamic section (gABI "Dynamic Section"; psABI x86-64 "Dynamic Section": DT_PLTGOT, DT_JMPREL).

ghost use Rattle.std.specs.Prelude.{◌≡◌, ◌++◌, List, IfOk, OnOk, flat_map};
ghost use Rattle.lk_elf.specs.Records.{dyn_bytes};
ghost use Rattle.lk_report.specs.declared.causes.OptionRecord.{OptionRecord};
ghost use Rattle.lk_model.specs.DynamicSection.{array_entries, dynamic_bytes, function_entries, runpath_entries, tagged, usual_dynamic_entries};
ghost use Rattle.lk_model.specs.DynamicSizes.{name_in_object};
ghost use Rattle.lk_model.specs.DynamicTexts.{dynamic_texts, needed_names};
ghost use Rattle.lk_model.specs.Keys.{row_of};
ghost use Rattle.lk_model.specs.Lawful.{Lawful};
ghost use Rattle.lk_model.specs.Resolving.{resolve};
ghost use Rattle.lk_model.specs.SectionKeys.{named};
ghost use Rattle.lk_model.specs.Views.{Input};
ghost use Rattle.lk_model.specs.declared.layouts.Class.TheVariants.{W};
ghost use Rattle.lk_model.specs.declared.layouts.Needs.{Needs};
ghost use Rattle.lk_resolve.specs.Given.{IsGiven};
ghost use Rattle.lk_dyn.specs.DynamicEntries.{needed_bytes, section_entries};

use crate::appending::put_dyn;
use crate::defined_names::defined_name;
use crate::sections::{row_of, section_size, section_start};
use lk_elf::Dyn;
use lk_elf::numbers::{
    DT_DEBUG, DT_FINI, DT_FINI_ARRAY, DT_FINI_ARRAYSZ, DT_HASH, DT_INIT, DT_INIT_ARRAY,
    DT_INIT_ARRAYSZ, DT_JMPREL, DT_NEEDED, DT_NULL, DT_PLTGOT, DT_PLTREL, DT_PLTRELSZ,
    DT_PREINIT_ARRAY, DT_PREINIT_ARRAYSZ, DT_RELA, DT_RELAENT, DT_RELASZ, DT_RUNPATH, DT_STRSZ,
    DT_STRTAB, DT_SYMENT, DT_SYMTAB, RELA_SIZE, SYM_SIZE,
};
use lk_model::layouts::{Class, Placement};
use lk_report::{Bytes, Name, NoMemory};
use lk_string_table::StringTable;
use lk_symbol_values::Values;
use std::alloc::Global;

/// An entry with its tag and its number or address.
fn tagged(tag: u32, value: u64) -> Dyn
    ensures { result ≡ tagged tag value }
{
    Dyn {
        d_tag: i64::from(tag),
        d_un: value,
    }
}

/// Puts entries at the end.
fn put_entries(out: &mut Vec<u8>, entries: &[Dyn]) -> Result<(), NoMemory>
    ensures { OnOk result (out.new.items ≡ out.old.items ++ flat_map dyn_bytes entries.now) }
{
    for entry in entries {
        put_dyn(out, entry)?;
    }
    Ok(())
}

/// Puts the entries of the names that are needed at the end, by their places in the string table.
fn put_needed(
    out: &mut Vec<u8>,
    texts: &StringTable<'_>,
    needed: &StringTable<'_>,
) -> Result<(), NoMemory>
    ensures { OnOk result (out.new.items ≡ out.old.items ++ flat_map (needed_bytes texts.now) needed.now) }
{
    for number in 0..needed.count() {
        let offset = texts.offset(needed.text(number));
        put_dyn(out, &tagged(DT_NEEDED as u32, offset))?;
    }
    Ok(())
}

/// Puts the entry of the run path at the end, where it is not empty.
fn put_runpath(out: &mut Vec<u8>, texts: &StringTable<'_>, runpath: &[u8]) -> Result<(), NoMemory>
    ensures { OnOk result (out.new.items ≡ out.old.items ++ flat_map dyn_bytes (runpath_entries texts.now runpath.now)) }
{
    if runpath.is_empty() {
        return Ok(());
    }
    put_dyn(out, &tagged(DT_RUNPATH as u32, texts.offset(runpath)))
}

/// Puts the entry of a function that the dynamic linker calls at the end, where an object defines it.
fn put_function(
    out: &mut Vec<u8>,
    values: &Values<'_>,
    tag: u32,
    name: &Name,
) -> Result<(), NoMemory>
    ensures { OnOk result ((needs : Needs) (options : OptionRecord) (xs : List Input) → IsGiven values.now.resolution values.now.summaries needs options xs → Lawful (resolve options xs) values.now.place → out.new.items ≡ out.old.items ++ flat_map dyn_bytes (function_entries (resolve options xs) values.now.place tag (name_in_object (resolve options xs) name.now))) }
{
    match defined_name(values.resolution().names(), name) {
        None => Ok(()),
        Some(number) => put_dyn(out, &tagged(tag, values.name_numbers(number).value)),
    }
}

/// Puts the entries of an array of functions at the end, where the output section exists: its address and its size
/// in bytes.
fn put_array(
    out: &mut Vec<u8>,
    place: &Placement,
    name: &[u8],
    address_tag: u32,
    size_tag: u32,
) -> Result<(), NoMemory>
    ensures { OnOk result (out.new.items ≡ out.old.items ++ flat_map dyn_bytes (array_entries address_tag size_tag (row_of place.now (named name.now W)))) }
{
    match row_of(place, name, Class::W) {
        None => Ok(()),
        Some(row) => {
            put_dyn(out, &tagged(address_tag, row.addr))?;
            put_dyn(out, &tagged(size_tag, row.size))
        }
    }
}

/// The entries that every dynamic section ends with.
#[tactic(auto, unfolding(lk_model::specs::DynamicSection::usual_dynamic_entries))]
fn usual_entries(place: &Placement) -> [Dyn; 14]
    ensures { result ≡ usual_dynamic_entries place.now }
{
    [
        tagged(DT_HASH as u32, section_start(place, b".hash", Class::R)),
        tagged(DT_STRTAB as u32, section_start(place, b".dynstr", Class::R)),
        tagged(DT_SYMTAB as u32, section_start(place, b".dynsym", Class::R)),
        tagged(DT_STRSZ as u32, section_size(place, b".dynstr", Class::R)),
        tagged(DT_SYMENT as u32, SYM_SIZE as u64),
        tagged(DT_DEBUG as u32, 0),
        tagged(
            DT_PLTGOT as u32,
            section_start(place, b".got.plt", Class::W),
        ),
        tagged(
            DT_PLTRELSZ as u32,
            section_size(place, b".rela.plt", Class::R),
        ),
        tagged(DT_PLTREL as u32, DT_RELA as u64),
        tagged(
            DT_JMPREL as u32,
            section_start(place, b".rela.plt", Class::R),
        ),
        tagged(DT_RELA as u32, section_start(place, b".rela.dyn", Class::R)),
        tagged(
            DT_RELASZ as u32,
            section_size(place, b".rela.dyn", Class::R),
        ),
        tagged(DT_RELAENT as u32, RELA_SIZE as u64),
        tagged(DT_NULL as u32, 0),
    ]
}

/// Puts the entries that name output sections at the end, and those of numbers that every dynamic section has.
fn put_sections(out: &mut Vec<u8>, place: &Placement) -> Result<(), NoMemory>
    ensures { OnOk result (out.new.items ≡ out.old.items ++ flat_map dyn_bytes (section_entries place.now)) }
{
    put_array(
        out,
        place,
        b".preinit_array",
        DT_PREINIT_ARRAY as u32,
        DT_PREINIT_ARRAYSZ as u32,
    )?;
    put_array(
        out,
        place,
        b".init_array",
        DT_INIT_ARRAY as u32,
        DT_INIT_ARRAYSZ as u32,
    )?;
    put_array(
        out,
        place,
        b".fini_array",
        DT_FINI_ARRAY as u32,
        DT_FINI_ARRAYSZ as u32,
    )?;
    put_entries(out, &usual_entries(place))
}

/// The bytes of `.dynamic` (gABI "Dynamic Section"): the names that are needed, the run path, the functions `_init`
/// and `_fini` where an object defines them, the arrays of functions that exist, and where the other tables are.
/// `texts` has the texts of `dynamic_texts`, `needed` those of `needed_names`.
///
/// # Errors
/// Out of memory.
pub fn dynamic_table(
    alloc: Global,
    values: &Values<'_>,
    texts: &StringTable<'_>,
    needed: &StringTable<'_>,
    runpath: &Name,
) -> Result<Bytes, NoMemory>
    ensures { (needs : Needs) (options : OptionRecord) (xs : List Input) → IsGiven values.now.resolution values.now.summaries needs options xs → Lawful (resolve options xs) values.now.place → texts.now ≡ dynamic_texts (resolve options xs) → needed.now ≡ needed_names (resolve options xs) → runpath.now ≡ options.runpath → IfOk result (λ table. table ≡ dynamic_bytes (resolve options xs) values.now.place) }
{
    let init = Name::from_static(b"_init");
    let fini = Name::from_static(b"_fini");
    let mut out = Vec::new(alloc);
    put_needed(&mut out, texts, needed)?;
    put_runpath(&mut out, texts, runpath.as_slice())?;
    put_function(&mut out, values, DT_INIT as u32, &init)?;
    put_function(&mut out, values, DT_FINI as u32, &fini)?;
    put_sections(&mut out, values.placement())?;
    Bytes::from_vec(out)
}
