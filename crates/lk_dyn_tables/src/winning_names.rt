//! The names that `.symtab` has, with the texts of `.strtab` (gABI "Symbol Table", "String Table").

ghost use Rattle.std.specs.Prelude.{◌≡◌, ◌<◌, ◌++◌, List, IfOk, OnOk, fold, length, not, slice_get};
ghost use Rattle.lk_report.specs.declared.causes.OptionRecord.{OptionRecord};
ghost use Rattle.lk_model.specs.Resolving.{resolve};
ghost use Rattle.lk_model.specs.SymbolTable.{names_with_winner, symbol_texts};
ghost use Rattle.lk_model.specs.Texts.{table_of, with_text};
ghost use Rattle.lk_model.specs.Views.{Input};
ghost use Rattle.lk_model.specs.Winners.{is_nothing};
ghost use Rattle.lk_model.specs.declared.layouts.Needs.{Needs};
ghost use Rattle.lk_model.specs.declared.summaries.InputSummary.{InputSummary};
ghost use Rattle.lk_resolve.specs.Given.{IsGiven};
ghost use Rattle.lk_dyn_sizes.specs.DynamicRows.{chosen_at, numbers_where, test_at};
ghost use Rattle.lk_dyn_sizes.specs.DynamicStrings.{number_texts, texts_at};
ghost use Rattle.lk_dyn_tables.specs.WinnerNames.{has_winner};

use lk_model::summaries::{NumberList, Winner};
use lk_report::{List, NoMemory};
use lk_resolve::Resolution;
use lk_string_table::StringTable;
use lk_symtab::SymTab;
use std::alloc::Global;

/// Whether a winner is one.
fn is_winner(winner: Winner) -> bool
    ensures { result ≡ not (is_nothing winner) }
{
    match winner {
        Winner::Nothing => false,
        _ => true,
    }
}

/// Whether the name with a number has a winner.
#[tactic(auto, using(crate::proofs::WinnersGiven::winner_reported))]
fn has_winner(names: &SymTab, number: u32) -> bool
    requires { number < length names.now }
    ensures { result ≡ test_at has_winner number (slice_get names.now number) }
{
    is_winner(names.winner(number))
}

/// Notes a name, where it has a winner.
fn note_number(names: &SymTab, number: u32, numbers: &mut NumberList) -> Result<(), NoMemory>
    requires { number < length names.now }
    ensures { OnOk result (numbers.new ≡ numbers.old ++ chosen_at has_winner number (slice_get names.now number)) }
{
    if has_winner(names, number) {
        numbers.push(number)?;
    }
    Ok(())
}

/// The names among these that have a winner.
fn winners_among(alloc: Global, names: &SymTab) -> Result<NumberList, NoMemory>
    ensures { IfOk result (λ numbers. numbers ≡ numbers_where has_winner 0 names.now) }
{
    let mut numbers = List::new(alloc);
    for number in 0..names.len() {
        note_number(names, number, &mut numbers)?;
    }
    Ok(numbers)
}

/// The names that have a winner, by their numbers, in order of names.
///
/// # Errors
/// Out of memory.
pub fn winner_names(alloc: Global, resolution: &Resolution) -> Result<NumberList, NoMemory>
    ensures { (summaries : List InputSummary) (needs : Needs) (options : OptionRecord) (xs : List Input) → IsGiven resolution.now summaries needs options xs → IfOk result (λ numbers. numbers ≡ names_with_winner (resolve options xs)) }
{
    winners_among(alloc, resolution.names())
}

/// Notes the name with a number, where there is one.
#[tactic(auto, using(lk_dyn_sizes::proofs::StringsNoted::name_reported))]
fn note_text<'a>(
    texts: &mut StringTable<'a>,
    names: &'a SymTab,
    number: u32,
) -> Result<(), NoMemory>
    ensures { OnOk result (texts.new ≡ fold with_text texts.old (number_texts names.now number)) }
{
    if number >= names.len() {
        return Ok(());
    }
    texts.note(names.at(number).name.as_slice())
}

/// The table of the names with these numbers.
fn texts_of<'a>(
    alloc: Global,
    names: &'a SymTab,
    numbers: &[u32],
) -> Result<StringTable<'a>, NoMemory>
    ensures { IfOk result (λ texts. texts ≡ table_of (texts_at names.now numbers.now)) }
{
    let mut texts = StringTable::new(alloc, numbers.len())?;
    for number in numbers {
        note_text(&mut texts, names, *number)?;
    }
    Ok(texts)
}

/// The texts of `.strtab` (gABI "String Table"): the empty text, then each once the names that have a winner. `numbers`
/// has those of `winner_names`.
///
/// # Errors
/// Out of memory.
pub fn symbol_texts<'a>(
    alloc: Global,
    resolution: &'a Resolution,
    numbers: &[u32],
) -> Result<StringTable<'a>, NoMemory>
    ensures { (summaries : List InputSummary) (needs : Needs) (options : OptionRecord) (xs : List Input) → IsGiven resolution.now summaries needs options xs → numbers.now ≡ names_with_winner (resolve options xs) → IfOk result (λ texts. texts ≡ symbol_texts (resolve options xs)) }
{
    texts_of(alloc, resolution.names(), numbers)
}
