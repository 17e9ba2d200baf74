//! The symbols of an input go into the table of the names, as they count where some of its sections are not
//! left.

ghost use Rattle.std.specs.Prelude.{◌≡◌, fold, OnOk};
ghost use Rattle.lk_resolve.specs.LeftSections.{home_in, symbols_in};
ghost use Rattle.lk_symtab.specs.SymbolLaws.{with_own};

use crate::section_sets::Sections;
use lk_model::summaries::{Global as Symbol, Home, Kind};
use lk_report::NoMemory;
use lk_symtab::SymTab;

/// Where a symbol counts as defined: a section that is not left defines nothing.
fn home_in(left: &Sections, home: Home) -> Home
    ensures { result ≡ home_in left.now.keys home }
{
    match home {
        Home::Section(section) => {
            if left.contains(&section) {
                home
            } else {
                Home::Undefined
            }
        }
        Home::Undefined | Home::Absolute | Home::Common | Home::Shared => home,
    }
}

/// Makes room for the symbols of an input, whose numbers rise, at once.
fn make_room(names: &mut SymTab, input: u32, symbols: &[Symbol]) -> Result<(), NoMemory>
    ensures { names.new ≡ names.old }
{
    match symbols.last() {
        None => Ok(()),
        Some(last) => names.make_room(input, last.symbol),
    }
}

/// Adds the symbols of an input, each under its name. A name whose number has no room in 32 bits is answered
/// as out of memory.
pub fn add_symbols(
    names: &mut SymTab,
    input: u32,
    kind: Kind,
    symbols: &[Symbol],
    left: &Sections,
) -> Result<(), NoMemory>
    ensures { OnOk result (names.new ≡ fold with_own names.old (symbols_in left.now.keys input kind symbols.now)) }
{
    make_room(names, input, symbols)?;
    for symbol in symbols {
        if names.len() == u32::MAX {
            return Err(NoMemory);
        }
        let home = home_in(left, symbol.home);
        names.add_at_home(&symbol.name, input, kind, symbol, home)?;
    }
    Ok(())
}
