//! How many entries the dynamic section has (gABI "Dynamic Section").

ghost use Rattle.std.specs.Prelude.{◌≡◌, ◌<◌, ◌∷◌, length, slice_get, option_and_then, IfOk};
ghost use Rattle.std.specs.List.{list_any};
ghost use Rattle.lk_model.specs.declared.layouts.Class.TheVariants.{W};
ghost use Rattle.lk_model.specs.DynamicSizes.{array_count, count_of_text};
ghost use Rattle.lk_model.specs.SectionKeys.{named, same_key};
ghost use Rattle.lk_model.specs.Winners.{is_in_object};
ghost use Rattle.lk_resolve.specs.RowFaults.{is_some_in_object};
ghost use Rattle.lk_dyn_sizes.specs.EntryCounts.{count_where, entry_count_in, is_defined_in};

use crate::amounts::plus;
use lk_model::layouts::{Class, SectionKey};
use lk_model::summaries::Winner;
use lk_report::{Name, NoMemory};
use lk_symtab::SymTab;
use std::alloc::Global;

/// The entries that every dynamic section has: HASH, STRTAB, SYMTAB, STRSZ, SYMENT, DEBUG, PLTGOT, PLTRELSZ,
/// PLTREL, JMPREL, RELA, RELASZ, RELAENT and NULL.
const USUAL_ENTRIES: u64 = 14;

/// Whether a winner is in an object.
fn is_in_object(winner: Winner) -> bool
    ensures { result ≡ is_in_object winner }
{
    match winner {
        Winner::Strong { .. } | Winner::Common { .. } | Winner::Weak { .. } => true,
        Winner::Nothing | Winner::Made | Winner::Import { .. } => false,
    }
}

/// Whether an object defines the name with a number.
#[tactic(auto, using(crate::proofs::EntriesCounted::in_object_reported))]
fn is_number_defined(names: &SymTab, number: u32) -> bool
    requires { number < length names.now }
    ensures { result ≡ is_some_in_object (slice_get names.now number) }
{
    is_in_object(names.winner(number))
}

/// Whether an object defines a name.
fn is_name_defined(names: &SymTab, name: &Name) -> bool
    ensures { result ≡ is_defined_in names.now name.now }
{
    match names.find(name) {
        None => false,
        Some(number) => is_number_defined(names, number),
    }
}

fn is_defined(alloc: Global, names: &SymTab, name: &[u8]) -> Result<bool, NoMemory>
    ensures { IfOk result (λ defined. defined ≡ is_defined_in names.now name.now) }
{
    let name = Name::from_slice(alloc, name)?;
    Ok(is_name_defined(names, &name))
}

/// 1 where a test is true, else 0.
fn count_where(holds: bool) -> u64
    ensures { result ≡ count_where holds }
{
    if holds { 1 } else { 0 }
}

/// 1 where a text is not empty, else 0.
fn count_of_text(text: &[u8]) -> u64
    ensures { result ≡ count_of_text text.now }
{
    if text.is_empty() { 0 } else { 1 }
}

/// Whether a key is that of a writable section with this name.
fn is_writable_named(key: &SectionKey, name: &[u8]) -> bool
    ensures { result ≡ same_key (named name.now W) key.now }
{
    key.class == Class::W && name == key.name.as_slice()
}

/// Whether there is a writable section with this name.
fn has_writable(keys: &[SectionKey], name: &[u8]) -> bool
    ensures { result ≡ list_any (same_key (named name.now W)) keys.now }
{
    keys.iter().any(|key| is_writable_named(key, name))
}

/// How many arrays of functions that the dynamic linker calls are among these sections.
#[tactic(auto, using(crate::proofs::EntriesCounted::arrays_reported))]
fn array_count(keys: &[SectionKey]) -> u64
    ensures { result ≡ array_count keys.now }
{
    let preinit = count_where(has_writable(keys, b".preinit_array"));
    let init = count_where(has_writable(keys, b".init_array"));
    let fini = count_where(has_writable(keys, b".fini_array"));
    preinit + init + fini
}

/// How many entries the dynamic section has, where the image needs so many names and output sections of these
/// keys exist: one for each of these names, for the run path and for the functions `_init` and `_fini` where
/// an object defines them, two for each array of functions, and those that every dynamic section has.
pub(crate) fn entry_count(
    alloc: Global,
    names: &SymTab,
    needed: usize,
    runpath: &Name,
    keys: &[SectionKey],
) -> Result<u64, NoMemory>
    ensures { IfOk result (λ count. count ≡ entry_count_in needed runpath.now names.now keys.now) }
{
    let init = count_where(is_defined(alloc, names, b"_init")?);
    let fini = count_where(is_defined(alloc, names, b"_fini")?);
    let path = count_of_text(runpath.as_slice());
    plus(
        needed as u64,
        path + init + fini + 2 * array_count(keys) + USUAL_ENTRIES,
    )
}
