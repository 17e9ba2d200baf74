//! The common blocks (gABI "Symbol Table", SHN_COMMON) and the copies of imported objects (psABI,
//! R_X86_64_COPY), in order of names.

ghost use Rattle.std.specs.Prelude.{◌≡◌, ◌==◌, ◌<◌, [], find, fold, length, nat_eq, OnOk, IfOk};
ghost use Rattle.std.specs.List.{cons_option};
ghost use Rattle.std.specs.Option.{option_copied};
ghost use Rattle.lk_model.specs.KeptPieces.{bss_key, copy_align};
ghost use Rattle.lk_model.specs.Numbered.{distinct, is_number_in, with_new};
ghost use Rattle.lk_model.specs.Winners.{is_symbol_of, symbol_among};
ghost use Rattle.lk_layout.specs.Grouping.{with_piece};
ghost use Rattle.lk_layout.specs.KeptIn.{names_in, piece_at, piece_by};
ghost use Rattle.lk_symtab.specs.NameRows.{NameRow, row_winner};

use crate::grouping::Grouped;
use crate::kept::{Kept, Nameless};
use indexmap::IndexSet;
use lk_model::layouts::PieceId;
use lk_model::summaries::{Contribution, Global as Symbol, Winner};
use lk_report::NoMemory;
use lk_symtab::SymTab;
use std::alloc::Global;

/// The numbers of names that are copied.
type CopiedNames = IndexSet<u32>;

/// Puts a number into a set.
fn insert_number(set: &mut CopiedNames, number: u32) -> Result<(), NoMemory>
    ensures { OnOk result (set.new.keys ≡ with_new nat_eq set.old.keys number) }
{
    if set.insert(number).is_err() {
        return Err(NoMemory);
    }
    Ok(())
}

/// A set of numbers.
fn set_of(alloc: Global, numbers: &[u32]) -> Result<CopiedNames, NoMemory>
    ensures { IfOk result (λ set. set.keys ≡ distinct nat_eq numbers.now) }
{
    let mut set = IndexSet::new(alloc);
    for number in numbers {
        insert_number(&mut set, *number)?;
    }
    Ok(set)
}

/// Whether a name is copied.
fn is_copied(copied: &CopiedNames, name: u32) -> bool
    ensures { result ≡ is_number_in copied.now.keys name }
{
    copied.contains(&name)
}

/// The alignment of a copy: the greatest power of two up to 64 that divides the import's value.
fn copy_align(value: u64) -> u64
    ensures { result ≡ copy_align value }
{
    if value % 64 == 0 {
        64
    } else if value % 32 == 0 {
        32
    } else if value % 16 == 0 {
        16
    } else if value % 8 == 0 {
        8
    } else if value % 4 == 0 {
        4
    } else if value % 2 == 0 {
        2
    } else {
        1
    }
}

/// Whether a symbol is this one of this input.
fn is_symbol_of(input: u32, symbol: u32, contribution: &Contribution) -> bool
    ensures { result ≡ is_symbol_of input symbol contribution.now }
{
    contribution.input == input && contribution.global.symbol == symbol
}

/// A symbol of a name, by the numbers of its input and its own.
fn symbol_among(symbols: &[Contribution], input: u32, symbol: u32) -> Option<&Symbol>
    ensures { option_copied result ≡ symbol_among symbols.now input symbol }
{
    match symbols.iter().find(|c| is_symbol_of(input, symbol, c)) {
        Some(contribution) => Some(&contribution.global),
        None => None,
    }
}

/// The piece that a name has of its own, by the definition that it means; none where it has none.
fn piece_for<'p>(
    copied: &CopiedNames,
    nameless: &Nameless<'p>,
    name: u32,
    winner: Winner,
    symbols: &[Contribution],
) -> Option<Kept<'p>>
    requires key { nameless.now.key.now ≡ bss_key }
    requires name { nameless.now.name.now ≡ [] }
    ensures { result ≡ piece_by copied.now.keys name symbols.now winner }
{
    match winner {
        Winner::Common { size, align } => {
            Some(nameless.kept(PieceId::Common { name }, size, align))
        }
        Winner::Import { input, symbol } => {
            if !is_copied(copied, name) {
                return None;
            }
            let symbol = symbol_among(symbols, input, symbol)?;
            let align = copy_align(symbol.value);
            Some(nameless.kept(PieceId::Copy { name }, symbol.size, align))
        }
        Winner::Nothing | Winner::Strong { .. } | Winner::Weak { .. } | Winner::Made => None,
    }
}

/// Keeps the piece that the name with a number has of its own, where it has one.
fn keep_name<'p>(
    kept: &mut Grouped<'p>,
    names: &SymTab,
    copied: &CopiedNames,
    nameless: &Nameless<'p>,
    name: u32,
) -> Result<(), NoMemory>
    requires within { name < length names.now }
    requires key { nameless.now.key.now ≡ bss_key }
    requires name { nameless.now.name.now ≡ [] }
    ensures { OnOk result (kept.new ≡ fold with_piece kept.old (piece_at copied.now.keys names.now name)) }
{
    let symbols = names.at(name).list.as_slice();
    if let Some(piece) = piece_for(copied, nameless, name, names.winner(name), symbols) {
        kept.push(piece)?;
    }
    Ok(())
}

/// Keeps the common blocks, and the copies of these names, in order of names.
fn keep_all<'p>(
    kept: &mut Grouped<'p>,
    names: &SymTab,
    copied: &CopiedNames,
    nameless: &Nameless<'p>,
) -> Result<(), NoMemory>
    requires key { nameless.now.key.now ≡ bss_key }
    requires name { nameless.now.name.now ≡ [] }
    ensures { OnOk result (kept.new ≡ fold with_piece kept.old (names_in copied.now.keys 0 names.now)) }
{
    for name in 0..names.len() {
        keep_name(kept, names, copied, nameless, name)?;
    }
    Ok(())
}

/// Keeps the common blocks, and the copies of names that are to be copied, in order of names.
#[tactic(auto, using(crate::proofs::NamesReported::names_once))]
pub(crate) fn keep_names<'p>(
    alloc: Global,
    kept: &mut Grouped<'p>,
    names: &SymTab,
    copies: &[u32],
    nameless: &Nameless<'p>,
) -> Result<(), NoMemory>
    requires key { nameless.now.key.now ≡ bss_key }
    requires name { nameless.now.name.now ≡ [] }
    ensures { OnOk result (kept.new ≡ fold with_piece kept.old (names_in copies.now 0 names.now)) }
{
    let copied = set_of(alloc, copies)?;
    keep_all(kept, names, &copied, nameless)?;
    Ok(())
}
