//! The numbers that the symbols of an object give to its relocations, by symbol table index (gABI "Symbol Table";
//! psABI x86-64 "Relocation Types"): those of a symbol are found once, on its first use, however many relocations go
//! through it.

ghost use Rattle.std.specs.Prelude.{◌≡◌, ℕ, ◌==◌, cond, Some, OnOk};
ghost use Rattle.lk_model.specs.References.{number_of_name};
ghost use Rattle.lk_symtab.specs.NameRows.{all_symbols};
ghost use Rattle.lk_symtab.specs.NamesOfSymbols.{name_of_symbol};
ghost use Rattle.lk_relocate.specs.NumbersOfSymbols.{AreNumbersOf, AreNumbersAt, symbol_numbers_at};

use lk_marks::make_room;
use lk_obj_read::{Object, RelaList};
use lk_report::{Name, NoMemory};
use lk_symbol_values::{SymbolNumbers, Values};

/// The numbers of symbols, by symbol table index, as far as they were asked for.
pub(crate) type NumbersOfSymbols = Vec<Option<SymbolNumbers>>;

/// The noted numbers of a symbol.
pub(crate) fn symbol_numbers_at(
    numbers_by_symbol: &NumbersOfSymbols,
    symbol: u32,
) -> Option<SymbolNumbers>
    ensures { result ≡ symbol_numbers_at numbers_by_symbol.now.items symbol }
{
    numbers_by_symbol
        .get(symbol as usize)
        .copied()
        .unwrap_or(None)
}

/// Notes the numbers of a symbol.
fn note_numbers(
    numbers_by_symbol: &mut NumbersOfSymbols,
    symbol: u32,
    symbol_numbers: SymbolNumbers,
) -> Result<(), NoMemory>
    ensures { OnOk result ((k : ℕ) → symbol_numbers_at numbers_by_symbol.new.items k ≡ cond (k == symbol) (Some symbol_numbers) (symbol_numbers_at numbers_by_symbol.old.items k)) }
{
    make_room(numbers_by_symbol, symbol, None)?;
    numbers_by_symbol[symbol as usize] = Some(symbol_numbers);
    Ok(())
}

/// The number of a name in the symbol table of the link.
fn name_number(values: &Values<'_>, name: &Name) -> u32
    ensures { result ≡ number_of_name (all_symbols values.now.resolution.rows) name.now }
{
    values.resolution().names().number_of(name)
}

/// The number of the name of a symbol of an input that was added, by the symbol's number.
fn added_name(values: &Values<'_>, input: u32, symbol: u32) -> Option<u32>
    ensures { result ≡ name_of_symbol (all_symbols values.now.resolution.rows) input symbol }
{
    values.resolution().names().name_of_symbol(input, symbol)
}

/// The numbers of a symbol of the object of an input: the name of a symbol that was added is found by the symbol's
/// number.
pub(crate) fn find_numbers(
    values: &Values<'_>,
    object: &Object,
    input: u32,
    symbol: u32,
) -> SymbolNumbers
    ensures { AreNumbersAt values.now input object.now symbol result }
{
    match added_name(values, input, symbol) {
        Some(name) => values.name_numbers(name),
        None => unadded_numbers(values, object, input, symbol),
    }
}

/// The numbers of a symbol that was not added: a LOCAL symbol is read from the object, and the name of one in an input
/// that is not added is looked up by its text.
fn unadded_numbers(values: &Values<'_>, object: &Object, input: u32, symbol: u32) -> SymbolNumbers
    ensures { AreNumbersAt values.now input object.now symbol result }
{
    match values.global(input, symbol) {
        Some(global) => {
            let name = name_number(values, &global.name);
            values.name_numbers(name)
        }
        None => {
            let local = object.local(symbol);
            values.local_numbers(input, symbol, &local)
        }
    }
}

/// Notes the numbers of a symbol, unless they are noted already.
fn learn_symbol(
    numbers_by_symbol: &mut NumbersOfSymbols,
    values: &Values<'_>,
    object: &Object,
    input: u32,
    symbol: u32,
) -> Result<(), NoMemory>
    requires { AreNumbersOf values.now input object.now numbers_by_symbol.old.items }
    ensures { OnOk result (AreNumbersOf values.now input object.now numbers_by_symbol.new.items) }
{
    if symbol_numbers_at(numbers_by_symbol, symbol).is_some() {
        return Ok(());
    }
    let symbol_numbers = find_numbers(values, object, input, symbol);
    note_numbers(numbers_by_symbol, symbol, symbol_numbers)?;
    Ok(())
}

/// Notes the numbers of the symbols of these relocations.
pub(crate) fn learn_symbols(
    numbers_by_symbol: &mut NumbersOfSymbols,
    values: &Values<'_>,
    object: &Object,
    input: u32,
    relas: &RelaList,
) -> Result<(), NoMemory>
    requires { AreNumbersOf values.now input object.now numbers_by_symbol.old.items }
    ensures { OnOk result (AreNumbersOf values.now input object.now numbers_by_symbol.new.items) }
{
    for k in 0..relas.len() {
        let rela = relas.at(k);
        learn_symbol(numbers_by_symbol, values, object, input, rela.r_symbol())?;
    }
    Ok(())
}
