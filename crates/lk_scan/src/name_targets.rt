//! What names mean to references: the winner of a name, and the symbol of a shared input where it is an
//! import. A name's symbols are looked at once for each symbol of the object that has the name.

ghost use Rattle.std.specs.Prelude.{◌≡◌, ◌==◌, option_map};
ghost use Rattle.std.specs.Option.{option_copied};
ghost use Rattle.lk_elf.specs.Numbers.{stt_tls};
ghost use Rattle.lk_model.specs.Winners.{import_symbol, is_nothing, is_symbol_of, is_tls_winner, symbol_among, symbol_of_winner};
ghost use Rattle.lk_scan.specs.Targets.{import_in, import_seen, name_target, target_with, unknown_target};

use crate::targets::{Import, Target, Way};
use lk_elf::numbers::STT_TLS;
use lk_model::summaries::{Contribution, Contributions, Global as Symbol, Winner};
use lk_report::Name;
use lk_symtab::SymTab;

/// Whether a contribution is this symbol of this input.
fn is_symbol_of(input: u32, symbol: u32, contribution: &Contribution) -> bool
    ensures { result ≡ is_symbol_of input symbol contribution.now }
{
    contribution.input == input && contribution.global.symbol == symbol
}

/// The symbol of a name, by the numbers of its input and its own.
fn symbol_among(list: &[Contribution], input: u32, symbol: u32) -> Option<&Symbol>
    ensures { option_copied result ≡ symbol_among list.now input symbol }
{
    for contribution in list {
        if is_symbol_of(input, symbol, contribution) {
            return Some(&contribution.global);
        }
    }
    None
}

/// The symbol that a winner is, where it is one of an input.
fn symbol_of_winner(symbols: &Contributions, winner: Winner) -> Option<&Symbol>
    ensures { option_copied result ≡ symbol_of_winner symbols.now winner }
{
    let list = symbols.list.as_slice();
    match winner {
        Winner::Strong { input, symbol } => symbol_among(list, input, symbol),
        Winner::Weak { input, symbol } => symbol_among(list, input, symbol),
        Winner::Import { input, symbol } => symbol_among(list, input, symbol),
        Winner::Nothing | Winner::Common { .. } | Winner::Made => None,
    }
}

/// The symbol of a shared input that a winner is, where it is an import.
fn import_symbol(symbols: &Contributions, winner: Winner) -> Option<&Symbol>
    ensures { option_copied result ≡ import_symbol symbols.now winner }
{
    match winner {
        Winner::Import { input, symbol } => symbol_among(symbols.list.as_slice(), input, symbol),
        Winner::Strong { .. }
        | Winner::Weak { .. }
        | Winner::Nothing
        | Winner::Common { .. }
        | Winner::Made => None,
    }
}

/// Whether a winner is none.
fn is_nothing(winner: Winner) -> bool
    ensures { result ≡ is_nothing winner }
{
    match winner {
        Winner::Nothing => true,
        Winner::Strong { .. }
        | Winner::Common { .. }
        | Winner::Weak { .. }
        | Winner::Made
        | Winner::Import { .. } => false,
    }
}

/// Whether a winner is thread-local, as its symbol says.
fn is_tls_winner(symbols: &Contributions, winner: Winner) -> bool
    ensures { result ≡ is_tls_winner symbols.now winner }
{
    match symbol_of_winner(symbols, winner) {
        Some(symbol) => symbol.code == STT_TLS as u32,
        None => false,
    }
}

/// What is kept of the import that a winner is.
fn import_seen(number: u32, symbols: &Contributions, winner: Winner) -> Option<Import>
    ensures { result ≡ option_map (import_seen number) (import_symbol symbols.now winner) }
{
    match import_symbol(symbols, winner) {
        Some(symbol) => Some(Import {
            name: number,
            code: symbol.code,
            size: symbol.size,
        }),
        None => None,
    }
}

/// The import that the name of a number means, where it means one.
#[tactic(auto, using(crate::proofs::NamesSeen::import_reported, crate::proofs::NamesSeen::no_import))]
pub fn import_at(names: &SymTab, number: u32) -> Option<&Symbol>
    ensures { option_copied result ≡ import_in names.now number }
{
    if number >= names.len() {
        return None;
    }
    import_symbol(names.at(number), names.winner(number))
}

/// What a name that no symbol has means.
pub fn unknown_target(number: u32, weak: bool) -> Target
    ensures { result ≡ unknown_target number weak }
{
    Target {
        way: Way::Name { number, weak },
        is_undefined: false,
        is_dropped: false,
        is_tls: false,
        is_no_tls: false,
        import: None,
    }
}

/// What a name with these symbols and this winner means.
fn target_with(number: u32, weak: bool, symbols: &Contributions, winner: Winner) -> Target
    ensures { result ≡ target_with number weak symbols.now winner }
{
    let is_nothing = is_nothing(winner);
    let is_tls = is_tls_winner(symbols, winner);
    Target {
        way: Way::Name { number, weak },
        is_undefined: !weak && is_nothing,
        is_dropped: false,
        is_tls,
        is_no_tls: !is_nothing && !is_tls,
        import: import_seen(number, symbols, winner),
    }
}

/// What the name of a number means to a reference, which is weak or not.
#[tactic(auto, using(crate::proofs::NamesSeen::target_reported, crate::proofs::NamesSeen::no_target))]
pub fn name_target(names: &SymTab, number: u32, weak: bool) -> Target
    ensures { result ≡ name_target names.now number weak }
{
    if number >= names.len() {
        return unknown_target(number, weak);
    }
    target_with(number, weak, names.at(number), names.winner(number))
}
