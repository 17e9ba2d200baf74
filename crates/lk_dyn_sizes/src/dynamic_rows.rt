//! The dynamic names of a link: the imports that it needs, and the definitions that others may refer to (gABI
//! "Symbol Table", "Dynamic Section", DT_SYMTAB); and the imports that are copied.

ghost use Rattle.std.specs.Prelude.{◌≡◌, ◌++◌, ◌<◌, List, length, slice_get, IfOk, OnOk};
ghost use Rattle.lk_report.specs.declared.causes.OptionRecord.{OptionRecord};
ghost use Rattle.lk_model.specs.declared.summaries.InputSummary.{InputSummary};
ghost use Rattle.lk_model.specs.DynamicNames.{is_exported, is_named_by_shared, is_seen_outside};
ghost use Rattle.lk_model.specs.DynamicNames as names;
ghost use Rattle.lk_model.specs.DynamicSlots as slots;
ghost use Rattle.lk_model.specs.Resolving.{resolve};
ghost use Rattle.lk_model.specs.Views.{Input};
ghost use Rattle.lk_resolve.specs.Given.{IsGiven};
ghost use Rattle.lk_dyn_sizes.specs.DynamicRows.{chosen_at, copied_in, dynamic_in, is_copied_row, is_dynamic_as, is_dynamic_row, numbers_where, test_at};

use crate::name_sets::{NameSet, copied_set, needed_set};
use lk_elf::numbers::{STV_DEFAULT, STV_PROTECTED};
use lk_model::layouts::Needs;
use lk_model::summaries::{Contributions, NumberList, Winner};
use lk_report::{List, NoMemory, OptionRecord};
use lk_resolve::Resolution;
use lk_symtab::{SymTab, is_of_object};
use std::alloc::Global;

/// Whether a definition of this visibility can be seen from outside its image (gABI "Symbol Table", st_other).
fn is_seen_outside(visibility: u32) -> bool
    ensures { result ≡ is_seen_outside visibility }
{
    visibility == STV_DEFAULT as u32 || visibility == STV_PROTECTED as u32
}

/// Whether a shared input defines a name or refers to it.
fn is_named_by_shared(symbols: &Contributions) -> bool
    ensures { result ≡ is_named_by_shared symbols.now }
{
    symbols
        .list
        .as_slice()
        .iter()
        .any(|symbol| !is_of_object(symbol))
}

/// Whether a definition in an object is exported, where all are asked for or only those that a shared input
/// names.
fn is_exported(all: bool, symbols: &Contributions, visibility: u32) -> bool
    ensures { result ≡ is_exported all symbols.now visibility }
{
    is_seen_outside(visibility) && (all || is_named_by_shared(symbols))
}

/// Whether a name with these symbols, this winner and this visibility is a dynamic one.
fn is_dynamic_as(
    needed: &NameSet,
    all: bool,
    number: u32,
    symbols: &Contributions,
    winner: Winner,
    visibility: u32,
) -> bool
    ensures { result ≡ is_dynamic_as needed.now.keys all number symbols.now winner visibility }
{
    match winner {
        Winner::Import { .. } => needed.contains(&number),
        Winner::Strong { .. } | Winner::Common { .. } | Winner::Weak { .. } => is_exported(
            all, symbols, visibility,
        ),
        Winner::Made | Winner::Nothing => false,
    }
}

/// Whether the name with a number is a dynamic one.
#[tactic(auto, using(crate::proofs::RowsChosen::dynamic_reported))]
fn is_dynamic(names: &SymTab, needed: &NameSet, all: bool, number: u32) -> bool
    requires { number < length names.now }
    ensures { result ≡ test_at (is_dynamic_row needed.now.keys all) number (slice_get names.now number) }
{
    let symbols = names.at(number);
    let winner = names.winner(number);
    let visibility = names.visibility(number);
    is_dynamic_as(needed, all, number, symbols, winner, visibility)
}

/// Notes a name, where it is a dynamic one.
fn note_dynamic(
    names: &SymTab,
    needed: &NameSet,
    all: bool,
    number: u32,
    numbers: &mut NumberList,
) -> Result<(), NoMemory>
    requires { number < length names.now }
    ensures { OnOk result (numbers.new ≡ numbers.old ++ chosen_at (is_dynamic_row needed.now.keys all) number (slice_get names.now number)) }
{
    if is_dynamic(names, needed, all, number) {
        numbers.push(number)?;
    }
    Ok(())
}

/// The dynamic names among these, where these imports are needed.
fn dynamic_among(
    alloc: Global,
    names: &SymTab,
    needed: &NameSet,
    all: bool,
) -> Result<NumberList, NoMemory>
    ensures { IfOk result (λ numbers. numbers ≡ numbers_where (is_dynamic_row needed.now.keys all) 0 names.now) }
{
    let mut numbers = List::new(alloc);
    for number in 0..names.len() {
        note_dynamic(names, needed, all, number, &mut numbers)?;
    }
    Ok(numbers)
}

/// The dynamic names of a link, over the rows of its `Resolution`.
fn dynamic_of(
    alloc: Global,
    resolution: &Resolution,
    needs: &Needs,
    options: &OptionRecord,
) -> Result<NumberList, NoMemory>
    ensures { IfOk result (λ numbers. numbers ≡ dynamic_in resolution.now needs.now options.now) }
{
    if !resolution.dynamic() {
        return Ok(List::new(alloc));
    }
    let needed = needed_set(alloc, needs)?;
    dynamic_among(alloc, resolution.names(), &needed, options.export_dynamic)
}

/// The names of the dynamic symbol table by their numbers, in order of names: the imports with a PLT entry, a
/// GOT slot or a copy, and the definitions in objects that are exported. A static link has none.
///
/// # Errors
/// Out of memory.
pub fn dynamic_names(
    alloc: Global,
    resolution: &Resolution,
    needs: &Needs,
    options: &OptionRecord,
) -> Result<NumberList, NoMemory>
    ensures numbers { IfOk result (λ numbers. numbers ≡ dynamic_in resolution.now needs.now options.now) }
    ensures given { (summaries : List InputSummary) (xs : List Input) → IsGiven resolution.now summaries needs.now options.now xs → IfOk result (λ numbers. numbers ≡ names.dynamic_names (resolve options.now xs)) }
{
    dynamic_of(alloc, resolution, needs, options)
}

/// Notes a name, where it is copied.
#[tactic(auto, using(crate::proofs::RowsChosen::copied_reported))]
fn note_copied(
    names: &SymTab,
    copied: &NameSet,
    number: u32,
    numbers: &mut NumberList,
) -> Result<(), NoMemory>
    requires { number < length names.now }
    ensures { OnOk result (numbers.new ≡ numbers.old ++ chosen_at (is_copied_row copied.now.keys) number (slice_get names.now number)) }
{
    if copied.contains(&number) {
        numbers.push(number)?;
    }
    Ok(())
}

/// The names among these that are copied.
pub(crate) fn copied_among(
    alloc: Global,
    names: &SymTab,
    copied: &NameSet,
) -> Result<NumberList, NoMemory>
    ensures { IfOk result (λ numbers. numbers ≡ numbers_where (is_copied_row copied.now.keys) 0 names.now) }
{
    let mut numbers = List::new(alloc);
    for number in 0..names.len() {
        note_copied(names, copied, number, &mut numbers)?;
    }
    Ok(numbers)
}

/// The imports that are copied, over the rows of a `Resolution`.
fn copied_of(alloc: Global, resolution: &Resolution, needs: &Needs) -> Result<NumberList, NoMemory>
    ensures { IfOk result (λ numbers. numbers ≡ copied_in resolution.now needs.now) }
{
    let copied = copied_set(alloc, needs)?;
    copied_among(alloc, resolution.names(), &copied)
}

/// The imports that are copied into the image (psABI x86-64, R_X86_64_COPY) by their numbers, in order of names.
///
/// # Errors
/// Out of memory.
pub fn copied_names(
    alloc: Global,
    resolution: &Resolution,
    needs: &Needs,
) -> Result<NumberList, NoMemory>
    ensures numbers { IfOk result (λ numbers. numbers ≡ copied_in resolution.now needs.now) }
    ensures given { (summaries : List InputSummary) (options : OptionRecord) (xs : List Input) → IsGiven resolution.now summaries needs.now options xs → IfOk result (λ numbers. numbers ≡ slots.copied_names (resolve options xs)) }
{
    copied_of(alloc, resolution, needs)
}
