//! The symbols of an input (`.gnu_incremental_inputs`; gABI "Symbol Table").

ghost use Rattle.std.specs.Prelude.{◌≡◌, ◌≤◌, Some, length, IfOk};
ghost use Rattle.lk_model.specs.InputsReading.{home_of_number};
ghost use Rattle.lk_model.specs.RecordForms.{read_many};
ghost use Rattle.lk_model.specs.RecordReaders.{passing};
ghost use Rattle.lk_model.specs.RecordRefusals.{is_good_global, value_is_good};
ghost use Rattle.lk_records_read.specs.InputParts.{global_in, global_named, read_global};
ghost use Rattle.lk_records_read.specs.ReadAnswers.{ReadGives};

use crate::counts::PIECE_SIZE;
use crate::cursors::Cursor;
use crate::fields::{u32_at, u64_at};
use crate::lists::with_room;
use crate::powers::is_field_power;
use crate::refusals::Refusal;
use crate::texts::text_at;
use lk_model::summaries::{Global as Symbol, GlobalList, Home};
use lk_report::{Bytes, Name, NoMemory};
use std::alloc::Global;

/// STB_GLOBAL.
const GLOBAL: u32 = 1;
/// STB_WEAK.
const WEAK: u32 = 2;
/// STV_PROTECTED, the greatest visibility.
const PROTECTED: u32 = 3;

/// Where a symbol is defined, by its two words; none where these are refused.
#[tactic(auto, using(std::proofs::lemmas::Option::slice_get_past))]
fn home_of_number(home: u32, section: u32) -> Option<Home>
    ensures { result ≡ home_of_number home section }
{
    if home == 1 {
        return Some(Home::Section(section));
    }
    if section != 0 {
        return None;
    }
    match home {
        0 => Some(Home::Undefined),
        2 => Some(Home::Absolute),
        3 => Some(Home::Common),
        4 => Some(Home::Shared),
        _ => None,
    }
}

/// Whether a symbol may have this value: that of a common is an alignment.
fn value_is_good(home: Home, value: u64) -> bool
    ensures { result ≡ value_is_good home value }
{
    match home {
        Home::Common => is_field_power(value),
        Home::Undefined | Home::Section(_) | Home::Absolute | Home::Shared => true,
    }
}

/// Whether a file can have a symbol: GLOBAL or WEAK, a type of four bits, one of the four visibilities.
#[tactic(auto, unfolding(lk_model::specs::RecordRefusals::is_good_global))]
fn is_good_global(symbol: &Symbol) -> bool
    ensures { result ≡ is_good_global symbol.now }
{
    (symbol.binding == GLOBAL || symbol.binding == WEAK)
        && symbol.code < 16
        && symbol.visibility <= PROTECTED
        && value_is_good(symbol.home, symbol.value)
}

/// A symbol by its name and its record; none where it is refused.
fn global_named(name: Name, bytes: &[u8]) -> Option<Symbol>
    requires { 40 ≤ length bytes.now }
    ensures { result ≡ global_named name bytes.now }
{
    if u32_at(bytes, 36) != 0 {
        return None;
    }
    let packed = u32_at(bytes, 4);
    match home_of_number(u32_at(bytes, 8), u32_at(bytes, 12)) {
        None => None,
        Some(home) => good_global(Symbol {
            symbol: u32_at(bytes, 32),
            name,
            binding: packed % 256,
            code: packed / 256 % 256,
            visibility: packed / 65536,
            home,
            value: u64_at(bytes, 16),
            size: u64_at(bytes, 24),
        }),
    }
}

/// A symbol that a file can have; none for any other.
#[tactic(auto, unfolding(lk_model::specs::RecordRefusals::is_good_global))]
fn good_global(symbol: Symbol) -> Option<Symbol>
    ensures { result ≡ passing is_good_global (Some symbol) }
{
    if is_good_global(&symbol) {
        Some(symbol)
    } else {
        None
    }
}

/// A symbol by its record; none where it is refused.
///
/// # Errors
/// Out of memory.
#[tactic(auto, using(crate::proofs::InputParts::global_unnamed, crate::proofs::InputParts::global_with_name))]
fn global_in(strtab: &Bytes, bytes: &[u8]) -> Result<Option<Symbol>, NoMemory>
    requires { 40 ≤ length bytes.now }
    ensures { IfOk result (λ symbol. symbol ≡ global_in strtab.now bytes.now) }
{
    let found = text_at(strtab, u32_at(bytes, 0))?;
    match found {
        None => Ok(None),
        Some(name) => Ok(global_named(name, bytes)),
    }
}

/// The next symbol.
///
/// # Errors
/// A refused record; out of memory.
#[tactic(auto, using(crate::proofs::InputParts::global_short, crate::proofs::InputParts::global_bad, crate::proofs::InputParts::global_good))]
fn read_global(strtab: &Bytes, cursor: &mut Cursor<'_>) -> Result<Symbol, Refusal>
    ensures { ReadGives (read_global strtab.now cursor.old) result cursor.new }
{
    let bytes = cursor.take(PIECE_SIZE)?;
    let found = global_in(strtab, bytes)?;
    match found {
        None => Err(Refusal::Bad { left: bytes.len() }),
        Some(symbol) => Ok(symbol),
    }
}

/// So many symbols.
///
/// # Errors
/// The first that is refused; out of memory.
pub(crate) fn globals_of(
    alloc: Global,
    strtab: &Bytes,
    cursor: &mut Cursor<'_>,
    count: usize,
) -> Result<GlobalList, Refusal>
    ensures { ReadGives (read_many (read_global strtab.now) count cursor.old) result cursor.new }
{
    let mut globals = with_room(alloc, count)?;
    for k in 0..count {
        let symbol = read_global(strtab, cursor)?;
        globals.push(symbol)?;
    }
    Ok(globals)
}
