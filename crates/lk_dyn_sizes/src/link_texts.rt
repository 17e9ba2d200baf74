//! The texts of a dynamic link (gABI "String Table", "Dynamic Section": DT_NEEDED, DT_RUNPATH; "Program
//! Interpreter"): the table `.dynstr`, and the path in `.interp`.

ghost use Rattle.std.specs.Prelude.{◌≡◌, [], ◌∷◌, ◌++◌, List, ℕ, drop, fold, slice_get, IfOk, OnOk};
ghost use Rattle.lk_report.specs.declared.causes.OptionRecord.{OptionRecord};
ghost use Rattle.lk_model.specs.declared.layouts.Needs.{Needs};
ghost use Rattle.lk_model.specs.declared.summaries.InputSummary.{InputSummary};
ghost use Rattle.lk_model.specs.DynamicNames as names;
ghost use Rattle.lk_model.specs.DynamicTexts as model;
ghost use Rattle.lk_model.specs.Resolving.{resolve};
ghost use Rattle.lk_model.specs.Texts.{with_text};
ghost use Rattle.lk_model.specs.Views.{Input};
ghost use Rattle.lk_resolve.specs.Given.{IsGiven};
ghost use Rattle.lk_dyn_sizes.specs.DynamicStrings.{needed_in, number_sonames, number_texts, sonames_at, strings_of, summary_sonames, texts_at};

use lk_model::summaries::{InputSummary, Kind, SummaryList};
use lk_report::{Name, NoMemory};
use lk_resolve::Resolution;
use lk_string_table::StringTable;
use lk_symtab::SymTab;
use std::alloc::Global;

/// The path of the dynamic linker (gABI "Program Interpreter"); the usual one where none is given.
pub fn interpreter_path(given: &[u8]) -> &[u8]
    ensures { result.now ≡ model.interpreter_path given.now }
{
    if given.is_empty() {
        return b"/lib64/ld-linux-x86-64.so.2";
    }
    given
}

/// Notes the name of a shared input.
fn note_summary<'a>(needed: &mut StringTable<'a>, input: &'a InputSummary) -> Result<(), NoMemory>
    ensures { OnOk result (needed.new ≡ fold with_text needed.old (summary_sonames input.now)) }
{
    match input.kind {
        Kind::Object => Ok(()),
        Kind::Shared => needed.note(input.soname.as_slice()),
    }
}

/// Notes the name of the input with a number, where it is a shared one.
fn note_input<'a>(
    needed: &mut StringTable<'a>,
    inputs: &'a [InputSummary],
    number: u32,
) -> Result<(), NoMemory>
    ensures { OnOk result (needed.new ≡ fold with_text needed.old (number_sonames inputs.now number)) }
{
    match inputs.get(number as usize) {
        Some(input) => note_summary(needed, input),
        None => Ok(()),
    }
}

/// The names of the shared ones among these inputs, each once.
fn sonames_of<'a>(
    alloc: Global,
    inputs: &'a [InputSummary],
    numbers: &[u32],
) -> Result<StringTable<'a>, NoMemory>
    ensures { IfOk result (λ needed. needed ≡ fold with_text [] (sonames_at inputs.now numbers.now)) }
{
    let mut needed = StringTable::without_texts(alloc, 0)?;
    for number in numbers {
        note_input(&mut needed, inputs, *number)?;
    }
    Ok(needed)
}

/// The names that the image needs, by a `Resolution` and the summaries of the inputs.
fn needed_of<'a>(
    alloc: Global,
    resolution: &Resolution,
    inputs: &'a SummaryList,
) -> Result<StringTable<'a>, NoMemory>
    ensures { IfOk result (λ needed. needed ≡ needed_in resolution.now inputs.now) }
{
    sonames_of(alloc, inputs.as_slice(), resolution.added().as_slice())
}

/// The names by which the image needs its shared inputs (gABI "Dynamic Section", DT_NEEDED), each once in adding
/// order. `inputs` has the summary of each input.
///
/// # Errors
/// Out of memory.
pub fn needed_names<'a>(
    alloc: Global,
    resolution: &Resolution,
    inputs: &'a SummaryList,
) -> Result<StringTable<'a>, NoMemory>
    ensures texts { IfOk result (λ needed. needed ≡ needed_in resolution.now inputs.now) }
    ensures given { (needs : Needs) (options : OptionRecord) (xs : List Input) → IsGiven resolution.now inputs.now needs options xs → IfOk result (λ needed. needed ≡ model.needed_names (resolve options xs)) }
{
    needed_of(alloc, resolution, inputs)
}

/// Notes the name with a number, where there is one.
#[tactic(auto, using(crate::proofs::StringsNoted::name_reported))]
fn note_name<'a>(
    strings: &mut StringTable<'a>,
    names: &'a SymTab,
    number: u32,
) -> Result<(), NoMemory>
    ensures { OnOk result (strings.new ≡ fold with_text strings.old (number_texts names.now number)) }
{
    if number >= names.len() {
        return Ok(());
    }
    strings.note(names.at(number).name.as_slice())
}

/// Notes the names with these numbers.
fn note_names<'a>(
    strings: &mut StringTable<'a>,
    names: &'a SymTab,
    numbers: &[u32],
) -> Result<(), NoMemory>
    ensures { OnOk result (strings.new ≡ fold with_text strings.old (texts_at names.now numbers.now)) }
{
    for number in numbers {
        note_name(strings, names, *number)?;
    }
    Ok(())
}

/// Notes the texts of another table.
fn note_texts<'a>(strings: &mut StringTable<'a>, texts: &StringTable<'a>) -> Result<(), NoMemory>
    ensures { OnOk result (strings.new ≡ fold with_text strings.old texts.now) }
{
    for number in 0..texts.count() {
        strings.note(texts.text(number))?;
    }
    Ok(())
}

/// The string table of the names with these numbers, the needed names and the run path.
#[tactic(auto, using(crate::proofs::StringsNoted::strings_reported))]
fn strings_of<'a>(
    alloc: Global,
    names: &'a SymTab,
    numbers: &[u32],
    needed: &StringTable<'a>,
    runpath: &'a Name,
) -> Result<StringTable<'a>, NoMemory>
    ensures { IfOk result (λ strings. strings ≡ strings_of names.now numbers.now needed.now runpath.now) }
{
    let count = needed.count().saturating_add(numbers.len());
    let mut strings = StringTable::new(alloc, count.saturating_add(1))?;
    note_names(&mut strings, names, numbers)?;
    note_texts(&mut strings, needed)?;
    strings.note(runpath.as_slice())?;
    Ok(strings)
}

/// The string table of a dynamic link, `.dynstr` (gABI "String Table"): the empty text, then each once the names
/// with these numbers, the names that the image needs and the run path. `numbers` has those of `dynamic_names`,
/// `needed` the texts of `needed_names`.
///
/// # Errors
/// Out of memory.
pub fn dynamic_texts<'a>(
    alloc: Global,
    resolution: &'a Resolution,
    numbers: &[u32],
    needed: &StringTable<'a>,
    runpath: &'a Name,
) -> Result<StringTable<'a>, NoMemory>
    ensures texts { IfOk result (λ texts. texts ≡ strings_of resolution.now.rows numbers.now needed.now runpath.now) }
    ensures given { (summaries : List InputSummary) (needs : Needs) (options : OptionRecord) (xs : List Input) → IsGiven resolution.now summaries needs options xs → numbers.now ≡ names.dynamic_names (resolve options xs) → needed.now ≡ model.needed_names (resolve options xs) → runpath.now ≡ options.runpath → IfOk result (λ texts. texts ≡ model.dynamic_texts (resolve options xs)) }
{
    strings_of(alloc, resolution.names(), numbers, needed, runpath)
}
