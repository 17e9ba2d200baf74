//! Which names are wanted, and whether the symbols of an input define one: what decides whether a member of a
//! lib group is added. Each name is asked for by hash, and its winner and references are at hand.

ghost use Rattle.std.specs.Prelude.{◌≡◌, ◌<◌, length, slice_get};
ghost use Rattle.lk_model.specs.Winners.{is_nothing};
ghost use Rattle.lk_resolve.specs.Wanted.{defines_wanted, is_home_placed, is_placed_in, places_wanted, wants_name, wants_row};

use crate::section_sets::Sections;
use lk_model::summaries::{Global as Symbol, Home, Winner};
use lk_report::Name;
use lk_symtab::SymTab;

/// Whether a winner is none.
pub fn is_nothing(winner: Winner) -> bool
    ensures { result ≡ is_nothing winner }
{
    match winner {
        Winner::Nothing => true,
        Winner::Strong { .. }
        | Winner::Common { .. }
        | Winner::Weak { .. }
        | Winner::Made
        | Winner::Import { .. } => false,
    }
}

/// Whether a name with a number is wanted.
#[tactic(auto, using(crate::proofs::WantedNames::row_wanted_at))]
fn is_row_wanted(entry: &Name, names: &SymTab, name: &Name, number: u32) -> bool
    requires { number < length names.now }
    ensures { result ≡ wants_row entry.now name.now (slice_get names.now number) }
{
    let is_needed = names.is_needed(number);
    let is_nothing = is_nothing(names.winner(number));
    (entry == name || is_needed) && is_nothing
}

/// Whether a name is wanted: it is the entry name or an object needs it, no object defines it, and it is not
/// an import.
pub fn is_wanted(entry: &Name, names: &SymTab, name: &Name) -> bool
    ensures { result ≡ wants_name entry.now names.now name.now }
{
    match names.find(name) {
        None => entry == name,
        Some(number) => is_row_wanted(entry, names, name, number),
    }
}

/// Whether a symbol has a place, in whatever section.
pub fn is_home_placed(home: Home) -> bool
    ensures { result ≡ is_home_placed home }
{
    match home {
        Home::Section(_) | Home::Absolute => true,
        Home::Undefined | Home::Common | Home::Shared => false,
    }
}

/// Whether a symbol has a place in what is left of its input.
fn is_placed_in(left: &Sections, home: Home) -> bool
    ensures { result ≡ is_placed_in left.now.keys home }
{
    match home {
        Home::Section(section) => left.contains(&section),
        Home::Absolute => true,
        Home::Undefined | Home::Common | Home::Shared => false,
    }
}

/// Whether some symbol with a place has a wanted name.
pub fn places_wanted(entry: &Name, names: &SymTab, symbols: &[Symbol]) -> bool
    ensures { result ≡ places_wanted entry.now names.now symbols.now }
{
    symbols.iter().any(|symbol| is_home_placed(symbol.home)
        && is_wanted(entry, names, &symbol.name))
}

/// Whether some symbol defines a wanted name in what is left of its input.
pub fn defines_wanted(entry: &Name, names: &SymTab, left: &Sections, symbols: &[Symbol]) -> bool
    ensures { result ≡ defines_wanted entry.now names.now left.now.keys symbols.now }
{
    symbols.iter().any(|symbol| is_placed_in(left, symbol.home)
        && is_wanted(entry, names, &symbol.name))
}
