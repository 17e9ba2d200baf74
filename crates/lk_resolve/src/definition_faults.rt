//! The faults that the names have once all inputs are added: names with several strong definitions (gABI
//! "Symbol Table"), names that are thread-local here and not there, and an entry that no object defines. Each
//! contribution is looked at a fixed number of times.

ghost use Rattle.std.specs.Prelude.{◌≡◌, ◌∷◌, ◌++◌, ◌<◌, [], ◌==◌, length, flat_map, get_or, option_and_then, slice_get, IfOk, OnOk, Some, None};
ghost use Rattle.lk_elf.specs.Numbers.{stt_notype, stt_tls};
ghost use Rattle.lk_model.specs.ResolveFaults.{has_other, has_tls, is_mismatch, tls_mismatches};
ghost use Rattle.lk_model.specs.Winners.{is_in_object, is_symbol_of, is_tls_winner, symbol_among};
ghost use Rattle.lk_resolve.specs.RowFaults.{doubled_at, doubled_in, doubled_on, entry_faults, faults_in, first_with, is_some_in_object, is_tls_symbol, mismatched_in, of_row};
ghost use Rattle.lk_symtab.specs.NameRows.{number_of};

use crate::wanted_names::is_nothing;
use lk_elf::numbers::{STT_NOTYPE, STT_TLS};
use lk_model::summaries::{Contribution, Contributions, Winner};
use lk_report::{Fault, FaultList, List, Name, NoMemory};
use lk_symtab::{SymTab, is_of_object, is_strong_definition};
use std::alloc::Global;

/// A copy of the path of an input; an input without one has the empty path.
fn copy_path(alloc: Global, paths: &[Name], input: u32) -> Result<Name, NoMemory>
    ensures { IfOk result (λ path. path ≡ get_or paths.now input []) }
{
    let at = input as usize;
    if at < paths.len() {
        paths[at].copy(alloc)
    } else {
        Ok(Name::empty())
    }
}

/// Notes the fault of a strong definition of a name after the first one, which is in the input `first`.
fn note_second(
    alloc: Global,
    paths: &[Name],
    name: &Name,
    first: u32,
    second: u32,
    faults: &mut FaultList,
) -> Result<(), NoMemory>
    ensures { OnOk result (faults.new ≡ faults.old ++ Fault.MultipleDefinition name.now (get_or paths.now first []) (get_or paths.now second []) ∷ []) }
{
    let name = name.copy(alloc)?;
    let first = copy_path(alloc, paths, first)?;
    let second = copy_path(alloc, paths, second)?;
    faults.push(Fault::MultipleDefinition {
        name,
        first,
        second,
    })
}

/// Looks at one more contribution of a name, of which the first strong definition is in the input `first`:
/// notes its fault, and reports where the first one is then.
fn note_contribution(
    alloc: Global,
    paths: &[Name],
    name: &Name,
    first: Option<u32>,
    contribution: &Contribution,
    faults: &mut FaultList,
) -> Result<Option<u32>, NoMemory>
    ensures noted { OnOk result (faults.new ≡ faults.old ++ doubled_at paths.now name.now first contribution.now) }
    ensures first { IfOk result (λ found. found ≡ first_with first contribution.now) }
{
    if !is_strong_definition(contribution) {
        return Ok(first);
    }
    if let Some(first) = first {
        note_second(alloc, paths, name, first, contribution.input, faults)?;
        return Ok(Some(first));
    }
    Ok(Some(contribution.input))
}

/// Notes the faults of a name that objects define strongly more than once: each later definition against the
/// first.
fn note_doubled(
    alloc: Global,
    paths: &[Name],
    name: &Name,
    list: &[Contribution],
    faults: &mut FaultList,
) -> Result<(), NoMemory>
    ensures { OnOk result (faults.new ≡ faults.old ++ doubled_on paths.now name.now None list.now) }
{
    let mut first = None;
    for contribution in list {
        first = note_contribution(alloc, paths, name, first, contribution, faults)?;
    }
    Ok(())
}

/// Notes the faults of the strong definitions of all names, in order of names.
fn note_all_doubled(
    alloc: Global,
    paths: &[Name],
    names: &SymTab,
    faults: &mut FaultList,
) -> Result<(), NoMemory>
    ensures { OnOk result (faults.new ≡ faults.old ++ flat_map (doubled_in paths.now) names.now) }
{
    for number in 0..names.len() {
        note_name_doubled(alloc, paths, names, number, faults)?;
    }
    Ok(())
}

/// Notes the faults of the strong definitions of the name with a number.
#[tactic(auto, using(crate::proofs::FaultsOfRows::doubled_of))]
fn note_name_doubled(
    alloc: Global,
    paths: &[Name],
    names: &SymTab,
    number: u32,
    faults: &mut FaultList,
) -> Result<(), NoMemory>
    requires { number < length names.now }
    ensures { OnOk result (faults.new ≡ faults.old ++ of_row (doubled_in paths.now) (slice_get names.now number)) }
{
    let found = names.at(number);
    note_doubled(alloc, paths, &found.name, found.list.as_slice(), faults)
}

/// Whether a symbol is thread-local, and whether it has no type.
fn is_tls(symbol: &Contribution) -> bool
    ensures { result ≡ (symbol.now.global.code == stt_tls) }
{
    symbol.global.code == STT_TLS as u32
}

fn is_untyped(symbol: &Contribution) -> bool
    ensures { result ≡ (symbol.now.global.code == stt_notype) }
{
    symbol.global.code == STT_NOTYPE as u32
}

/// Whether some symbol in an object is thread-local.
fn has_tls(list: &[Contribution]) -> bool
    ensures { result ≡ has_tls list.now }
{
    list.iter()
        .any(|symbol| is_of_object(symbol) && is_tls(symbol))
}

/// Whether some symbol in an object has a type that is not thread-local.
fn has_other(list: &[Contribution]) -> bool
    ensures { result ≡ has_other list.now }
{
    list.iter().any(|symbol| is_of_object(symbol) && (!is_tls(symbol) && !is_untyped(symbol)))
}

/// Whether a contribution is this symbol of this input.
fn is_symbol_of(input: u32, symbol: u32, contribution: &Contribution) -> bool
    ensures { result ≡ is_symbol_of input symbol contribution.now }
{
    contribution.input == input && contribution.global.symbol == symbol
}

/// Whether a symbol of a name, by its input and number, is thread-local.
fn is_tls_at(list: &[Contribution], input: u32, symbol: u32) -> bool
    ensures { result ≡ is_tls_symbol (symbol_among list.now input symbol) }
{
    for contribution in list {
        if is_symbol_of(input, symbol, contribution) {
            return is_tls(contribution);
        }
    }
    false
}

/// Whether the winner of a name is thread-local, as its symbol reports.
fn is_tls_winner(found: &Contributions, winner: Winner) -> bool
    ensures { result ≡ is_tls_winner found.now winner }
{
    let list = found.list.as_slice();
    match winner {
        Winner::Strong { input, symbol } => is_tls_at(list, input, symbol),
        Winner::Weak { input, symbol } => is_tls_at(list, input, symbol),
        Winner::Import { input, symbol } => is_tls_at(list, input, symbol),
        Winner::Nothing | Winner::Common { .. } | Winner::Made => false,
    }
}

/// Whether a name with this winner is thread-local in one place and not in another.
fn is_mismatch(found: &Contributions, winner: Winner) -> bool
    ensures { result ≡ is_mismatch found.now winner }
{
    let is_tls = is_tls_winner(found, winner);
    let list = found.list.as_slice();
    (is_tls && has_other(list)) || (!is_nothing(winner) && (!is_tls && has_tls(list)))
}

/// Notes the fault of such a name.
fn note_mismatch(
    alloc: Global,
    found: &Contributions,
    winner: Winner,
    faults: &mut FaultList,
) -> Result<(), NoMemory>
    ensures { OnOk result (faults.new ≡ faults.old ++ tls_mismatches (found.now, winner)) }
{
    if !is_mismatch(found, winner) {
        return Ok(());
    }
    let name = found.name.copy(alloc)?;
    faults.push(Fault::TlsMismatch { name })
}

/// Notes the fault of the name with a number, where it is thread-local here and not there.
#[tactic(auto, using(crate::proofs::FaultsOfRows::mismatched_of))]
fn note_name_mismatch(
    alloc: Global,
    names: &SymTab,
    number: u32,
    faults: &mut FaultList,
) -> Result<(), NoMemory>
    requires { number < length names.now }
    ensures { OnOk result (faults.new ≡ faults.old ++ of_row mismatched_in (slice_get names.now number)) }
{
    let found = names.at(number);
    let winner = names.winner(number);
    note_mismatch(alloc, found, winner, faults)
}

/// Notes the names that are thread-local here and not there, in order of names.
fn note_all_mismatches(
    alloc: Global,
    names: &SymTab,
    faults: &mut FaultList,
) -> Result<(), NoMemory>
    ensures { OnOk result (faults.new ≡ faults.old ++ flat_map mismatched_in names.now) }
{
    for number in 0..names.len() {
        note_name_mismatch(alloc, names, number, faults)?;
    }
    Ok(())
}

/// Whether a winner is in an object.
fn is_in_object(winner: Winner) -> bool
    ensures { result ≡ is_in_object winner }
{
    match winner {
        Winner::Strong { .. } | Winner::Common { .. } | Winner::Weak { .. } => true,
        Winner::Nothing | Winner::Made | Winner::Import { .. } => false,
    }
}

/// Whether the name with a number has its winner in an object.
#[tactic(auto, using(crate::proofs::FaultsOfRows::in_object_of))]
fn is_number_in_object(names: &SymTab, number: u32) -> bool
    requires { number < length names.now }
    ensures { result ≡ is_some_in_object (slice_get names.now number) }
{
    is_in_object(names.winner(number))
}

/// Whether the entry has its winner in an object.
fn has_entry(names: &SymTab, entry: &Name) -> bool
    ensures { result ≡ is_some_in_object (option_and_then (slice_get names.now) (number_of names.now entry.now)) }
{
    match names.find(entry) {
        None => false,
        Some(number) => is_number_in_object(names, number),
    }
}

/// Notes the fault of an entry that no object defines.
fn note_entry(
    alloc: Global,
    names: &SymTab,
    entry: &Name,
    faults: &mut FaultList,
) -> Result<(), NoMemory>
    ensures { OnOk result (faults.new ≡ faults.old ++ entry_faults names.now entry.now) }
{
    if has_entry(names, entry) {
        return Ok(());
    }
    let name = entry.copy(alloc)?;
    faults.push(Fault::NoEntry { name })
}

/// The faults of the names of a link with these paths and this entry: each later strong definition of a name
/// against its first, then thread-local mismatches, each in order of names, then an entry without definition.
pub fn faults_of(
    alloc: Global,
    paths: &[Name],
    entry: &Name,
    names: &SymTab,
) -> Result<FaultList, NoMemory>
    ensures { IfOk result (λ faults. faults ≡ faults_in paths.now entry.now names.now) }
{
    let mut faults = List::new(alloc);
    note_all_doubled(alloc, paths, names, &mut faults)?;
    note_all_mismatches(alloc, names, &mut faults)?;
    note_entry(alloc, names, entry, &mut faults)?;
    Ok(faults)
}
