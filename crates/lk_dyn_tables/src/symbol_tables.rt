//! The bytes of the two symbol tables (gABI "Symbol Table"): `.dynsym` and `.symtab`.

ghost use Rattle.std.specs.Prelude.{◌≡◌, ◌++◌, List, IfOk, OnOk, flat_map};
ghost use Rattle.lk_elf.specs.Records.{sym_bytes};
ghost use Rattle.lk_report.specs.declared.causes.OptionRecord.{OptionRecord};
ghost use Rattle.lk_model.specs.DynamicNames.{dynamic_names};
ghost use Rattle.lk_model.specs.DynamicSymbols.{dynsym_bytes};
ghost use Rattle.lk_model.specs.DynamicTexts.{dynamic_texts};
ghost use Rattle.lk_model.specs.Lawful.{Lawful};
ghost use Rattle.lk_model.specs.Resolving.{resolve};
ghost use Rattle.lk_model.specs.SymbolEntries.{null_entry};
ghost use Rattle.lk_model.specs.SymbolTable.{names_with_winner, symbol_table_bytes, symbol_texts};
ghost use Rattle.lk_model.specs.Views.{Input};
ghost use Rattle.lk_resolve.specs.Given.{IsGiven};
ghost use Rattle.lk_dyn_tables.specs.SymbolTables.{entry_bytes};
ghost use Rattle.lk_dyn_tables.specs.declared.symbols.SymbolTable.TheVariants as table;

use crate::symbol_entries::{NULL_ENTRY, put_entry};
use crate::symbols::{SymbolTable, Symbols};
use lk_report::{Bytes, NoMemory};
use lk_string_table::StringTable;
use std::alloc::Global;

/// Puts the entries of the names with these numbers at the end.
fn put_entries(
    out: &mut Vec<u8>,
    symbols: &Symbols<'_>,
    table: SymbolTable,
    texts: &StringTable<'_>,
    numbers: &[u32],
) -> Result<(), NoMemory>
    ensures { OnOk result ((options : OptionRecord) (xs : List Input) → IsGiven symbols.now.resolution symbols.now.summaries symbols.now.needs options xs → Lawful (resolve options xs) symbols.now.place → out.new.items ≡ out.old.items ++ flat_map (entry_bytes table (resolve options xs) symbols.now.place texts.now) numbers.now) }
{
    for number in numbers {
        put_entry(out, &symbols.entry(table, texts, *number))?;
    }
    Ok(())
}

/// The bytes of a symbol table: the null symbol, then the names with these numbers.
fn table_of(
    alloc: Global,
    symbols: &Symbols<'_>,
    table: SymbolTable,
    texts: &StringTable<'_>,
    numbers: &[u32],
) -> Result<Bytes, NoMemory>
    ensures { (options : OptionRecord) (xs : List Input) → IsGiven symbols.now.resolution symbols.now.summaries symbols.now.needs options xs → Lawful (resolve options xs) symbols.now.place → IfOk result (λ bytes. bytes ≡ sym_bytes null_entry ++ flat_map (entry_bytes table (resolve options xs) symbols.now.place texts.now) numbers.now) }
{
    let mut out = Vec::new(alloc);
    put_entry(&mut out, &NULL_ENTRY)?;
    put_entries(&mut out, symbols, table, texts, numbers)?;
    Bytes::from_vec(out)
}

/// The bytes of `.dynsym` (gABI "Symbol Table"): the null symbol, then the dynamic names in order of names. `numbers`
/// has those of `dynamic_names`, `texts` the texts of `dynamic_texts`.
///
/// # Errors
/// Out of memory.
pub fn dynsym_table(
    alloc: Global,
    symbols: &Symbols<'_>,
    texts: &StringTable<'_>,
    numbers: &[u32],
) -> Result<Bytes, NoMemory>
    ensures { (options : OptionRecord) (xs : List Input) → IsGiven symbols.now.resolution symbols.now.summaries symbols.now.needs options xs → Lawful (resolve options xs) symbols.now.place → numbers.now ≡ dynamic_names (resolve options xs) → texts.now ≡ dynamic_texts (resolve options xs) → IfOk result (λ table. table ≡ dynsym_bytes (resolve options xs) symbols.now.place) }
{
    table_of(alloc, symbols, SymbolTable::Dynsym, texts, numbers)
}

/// The bytes of `.symtab` (gABI "Symbol Table"): the null symbol, then each name that has a winner, in order of names.
/// `numbers` has those of `winner_names`, `texts` the texts of `symbol_texts`.
///
/// # Errors
/// Out of memory.
pub fn symtab_table(
    alloc: Global,
    symbols: &Symbols<'_>,
    texts: &StringTable<'_>,
    numbers: &[u32],
) -> Result<Bytes, NoMemory>
    ensures { (options : OptionRecord) (xs : List Input) → IsGiven symbols.now.resolution symbols.now.summaries symbols.now.needs options xs → Lawful (resolve options xs) symbols.now.place → numbers.now ≡ names_with_winner (resolve options xs) → texts.now ≡ symbol_texts (resolve options xs) → IfOk result (λ table. table ≡ symbol_table_bytes (resolve options xs) symbols.now.place) }
{
    table_of(alloc, symbols, SymbolTable::Symtab, texts, numbers)
}
