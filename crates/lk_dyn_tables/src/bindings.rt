//! The binding by which an image refers to an import (gABI "Symbol Table", st_info).

ghost use Rattle.std.specs.Prelude.{◌≡◌};
ghost use Rattle.lk_model.specs.DynamicSymbols.{is_global_in_object};
ghost use Rattle.lk_dyn_tables.specs.SymbolTables.{binding_of, is_global_here};

use lk_elf::numbers::{STB_GLOBAL, STB_WEAK};
use lk_model::summaries::{Contribution, Contributions};
use lk_symtab::is_of_object;

/// Whether a symbol of a name is a GLOBAL one of an object.
fn is_global_here(symbol: &Contribution) -> bool
    ensures { result ≡ is_global_here symbol.now }
{
    is_of_object(symbol) && symbol.global.binding == u32::from(STB_GLOBAL)
}

/// Whether one of a name's symbols is a GLOBAL one of an object.
fn is_global_in_object(symbols: &Contributions) -> bool
    ensures { result ≡ is_global_in_object symbols.now }
{
    symbols
        .list
        .as_slice()
        .iter()
        .any(|symbol| is_global_here(symbol))
}

/// The binding by which an image refers to an import with these symbols: that of its objects, the stronger one.
pub(crate) fn import_binding(symbols: &Contributions) -> u32
    ensures { result ≡ binding_of symbols.now }
{
    if is_global_in_object(symbols) {
        u32::from(STB_GLOBAL)
    } else {
        u32::from(STB_WEAK)
    }
}
