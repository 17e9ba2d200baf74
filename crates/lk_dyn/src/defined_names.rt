//! Names that an object defines, looked up by hash (gABI "Symbol Table").

ghost use Rattle.std.specs.Prelude.{◌≡◌, ◌<◌, length, slice_get};
ghost use Rattle.lk_dyn.specs.DefinedNames.{defined_at, defined_by, defined_in};

use lk_model::summaries::Winner;
use lk_report::Name;
use lk_symtab::SymTab;

/// The number of a name, where its winner is in an object.
fn defined_by(number: u32, winner: Winner) -> Option<u32>
    ensures { result ≡ defined_by number winner }
{
    match winner {
        Winner::Strong { .. } | Winner::Common { .. } | Winner::Weak { .. } => Some(number),
        Winner::Nothing | Winner::Made | Winner::Import { .. } => None,
    }
}

/// The number of a name that the link has, where an object defines it.
#[tactic(auto, using(crate::proofs::NamesDefined::defined_reported))]
fn defined_at(names: &SymTab, number: u32) -> Option<u32>
    requires { number < length names.now }
    ensures { result ≡ defined_at number (slice_get names.now number) }
{
    defined_by(number, names.winner(number))
}

/// The number of a name, where an object defines it.
pub(crate) fn defined_name(names: &SymTab, name: &Name) -> Option<u32>
    ensures { result ≡ defined_in names.now name.now }
{
    match names.find(name) {
        None => None,
        Some(number) => defined_at(names, number),
    }
}
