//! The value of each name at a placement (gABI "Symbol Table"; psABI x86-64 "Relocation Types").

ghost use Rattle.std.specs.Prelude.{◌≡◌, ℕ, ◌++◌, ◌<◌, ◌^◌, length, slice_get, IfOk, OnOk};
ghost use Rattle.lk_model.specs.SymbolValues.{home_value, is_placed_winner};
ghost use Rattle.lk_symbol_values.specs.NameValues.{call_in, definition_in, given_at, given_in, slot_content_by, local_value_of, made_by, size_in, symbol_size_in, value_by, value_of_winner, values_at, values_from};
ghost use Rattle.lk_symbol_values.specs.Sections.{low_64};

use crate::addresses::Addresses;
use crate::input_symbols::InputSymbols;
use crate::made_values::MadeValues;
use crate::piece_addresses::PieceKey;
use crate::sections::exact;
use lk_model::summaries::{Local, Winner};
use lk_report::{List, Name, NoMemory};
use lk_symtab::SymTab;
use std::alloc::Global;

/// The value of a name or a LOCAL symbol, by the low bits.
#[derive(Clone, Copy)]
pub(crate) struct SymbolValue {
    /// The symbol's value, S.
    pub(crate) value: u64,
    /// The address of its PLT entry, where it is an import with one, and S otherwise: L.
    pub(crate) call: u64,
    /// Its size in bytes, Z.
    pub(crate) size: u64,
    /// Whether it has a place in the image.
    pub(crate) placed: bool,
    /// The content of its GOT slot.
    pub(crate) got_content: u64,
}

/// The values of names, by number.
pub(crate) type SymbolValueList = List<SymbolValue>;

/// The value of a definition in an object.
fn definition_value(
    addresses: &Addresses<'_>,
    inputs: &InputSymbols<'_>,
    input: u32,
    symbol: u32,
) -> u64
    ensures { result ≡ definition_in inputs.now addresses.now input symbol }
{
    match inputs.symbol(input, symbol) {
        None => 0,
        Some(global) => addresses.home_value(input, global.home, global.value),
    }
}

/// The size of a symbol of an input.
fn symbol_size(inputs: &InputSymbols<'_>, input: u32, symbol: u32) -> u64
    ensures { result ≡ symbol_size_in inputs.now input symbol }
{
    match inputs.symbol(input, symbol) {
        None => 0,
        Some(global) => global.size,
    }
}

/// What an input or a placed piece gives of the name with a number and a winner: the value of its definition, the
/// address of its common block or of its copy; 0 without any of these.
fn given_value(
    addresses: &Addresses<'_>,
    inputs: &InputSymbols<'_>,
    number: u32,
    winner: Winner,
) -> u64
    ensures { result ≡ given_in inputs.now addresses.now number winner }
{
    match winner {
        Winner::Nothing | Winner::Made => 0,
        Winner::Strong { input, symbol } | Winner::Weak { input, symbol } => {
            definition_value(addresses, inputs, input, symbol)
        }
        Winner::Common { .. } => addresses.placed_address(PieceKey::Common { name: number }),
        Winner::Import { .. } => addresses.placed_address(PieceKey::Copy { name: number }),
    }
}

/// The low bits of the value of a name with a number and a winner: `given` by inputs and placed pieces, or `made` by
/// the linker.
fn value_of(addresses: &Addresses<'_>, given: u64, made: u64, number: u32, winner: Winner) -> u64
    ensures { result ≡ low_64 (value_by addresses.now given made number winner) }
{
    match winner {
        Winner::Nothing => 0,
        Winner::Strong { .. } | Winner::Weak { .. } | Winner::Common { .. } => exact(given),
        Winner::Made => exact(made),
        Winner::Import { .. } => addresses.import_value(number),
    }
}

/// The low bits of the address of the PLT entry of an import that has one, and else the value of the name.
fn call_of(addresses: &Addresses<'_>, number: u32, winner: Winner, value: u64) -> u64
    ensures { result ≡ call_in addresses.now winner number value }
{
    match winner {
        Winner::Import { .. } => addresses.plt_address(number).unwrap_or(value),
        _ => value,
    }
}

/// The size of what a name means.
fn size_of(inputs: &InputSymbols<'_>, winner: Winner) -> u64
    ensures { result ≡ size_in inputs.now winner }
{
    match winner {
        Winner::Nothing | Winner::Made => 0,
        Winner::Common { size, .. } => size,
        Winner::Strong { input, symbol }
        | Winner::Weak { input, symbol }
        | Winner::Import { input, symbol } => symbol_size(inputs, input, symbol),
    }
}

/// Whether a name has a place in the image.
fn is_placed(winner: Winner) -> bool
    ensures { result ≡ is_placed_winner winner }
{
    match winner {
        Winner::Nothing | Winner::Import { .. } => false,
        _ => true,
    }
}

/// The content of the GOT slot of a name: the address of the copy of an import, which is `given`, 0 without one; else
/// the value of the name.
fn slot_content_of(given: u64, winner: Winner, value: u64) -> u64
    ensures { result ≡ slot_content_by given winner value }
{
    match winner {
        Winner::Import { .. } => exact(given),
        _ => value,
    }
}

/// The value of a name with a number and a winner, of which the linker makes `made`. What inputs and placed pieces give
/// of the name fits 64 bits.
fn value_of_winner(
    addresses: &Addresses<'_>,
    inputs: &InputSymbols<'_>,
    made: u64,
    number: u32,
    winner: Winner,
) -> SymbolValue
    ensures value { result ≡ value_of_winner inputs.now addresses.now made number winner }
    ensures fits { given_in inputs.now addresses.now number winner < 2 ^ 64 }
{
    let given = given_value(addresses, inputs, number, winner);
    let value = value_of(addresses, given, made, number, winner);
    SymbolValue {
        value,
        call: call_of(addresses, number, winner, value),
        size: size_of(inputs, winner),
        placed: is_placed(winner),
        got_content: slot_content_of(given, winner, value),
    }
}

/// What the linker makes of a name; 0 where it does not make it.
fn made_value(
    alloc: Global,
    made: &MadeValues<'_>,
    name: &Name,
    winner: Winner,
) -> Result<u64, NoMemory>
    ensures { IfOk result (λ value. value ≡ made_by made.now name.now winner) }
{
    match winner {
        Winner::Made => made.value(alloc, name.as_slice()),
        _ => Ok(0),
    }
}

/// Puts the value of the name with a number at the end of the list.
#[tactic(auto, using(crate::proofs::NamesValued::value_reported, crate::proofs::NamesValued::given_reported))]
fn put_value(
    alloc: Global,
    addresses: &Addresses<'_>,
    made: &MadeValues<'_>,
    inputs: &InputSymbols<'_>,
    names: &SymTab,
    number: u32,
    values: &mut SymbolValueList,
) -> Result<(), NoMemory>
    requires { number < length names.now }
    ensures added { OnOk result (values.new ≡ values.old ++ values_at inputs.now addresses.now made.now number (slice_get names.now number)) }
    ensures fits { OnOk result (given_at inputs.now addresses.now number (slice_get names.now number) < 2 ^ 64) }
{
    let winner = names.winner(number);
    let name = &names.at(number).name;
    let made = made_value(alloc, made, name, winner)?;
    values.push(value_of_winner(addresses, inputs, made, number, winner))
}

/// The value of each name, by number.
///
/// # Errors
/// Out of memory.
pub(crate) fn name_values(
    alloc: Global,
    addresses: &Addresses<'_>,
    made: &MadeValues<'_>,
    inputs: &InputSymbols<'_>,
    names: &SymTab,
) -> Result<SymbolValueList, NoMemory>
    ensures values { IfOk result (λ values. values ≡ values_from inputs.now addresses.now made.now 0 names.now) }
    ensures fit { IfOk result (λ values. (n : ℕ) → given_at inputs.now addresses.now n (slice_get names.now n) < 2 ^ 64) }
{
    let mut values = List::new(alloc);
    for number in 0..names.len() {
        put_value(alloc, addresses, made, inputs, names, number, &mut values)?;
    }
    Ok(values)
}

/// The value of a LOCAL symbol of an input; it fits 64 bits.
pub(crate) fn local_value(addresses: &Addresses<'_>, input: u32, local: &Local) -> SymbolValue
    ensures value { result ≡ local_value_of addresses.now input local.now }
    ensures exact { result.value ≡ home_value addresses.now input local.now.home local.now.value }
{
    let value = exact(addresses.home_value(input, local.home, local.value));
    SymbolValue {
        value,
        call: value,
        size: local.size,
        placed: addresses.is_placed_home(input, local.home),
        got_content: value,
    }
}
