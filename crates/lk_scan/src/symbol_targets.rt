//! What the symbols of an object mean to its references (gABI "Symbol Table").

ghost use Rattle.std.specs.Prelude.{◌≡◌, ◌==◌, IfSome};
ghost use Rattle.lk_model.specs.Elf.{elf_of};
ghost use Rattle.lk_model.specs.Objects.{summary_in};
ghost use Rattle.lk_scan.specs.SymbolTargets.{global_target, targets_of};
ghost use Rattle.lk_scan.specs.Targets.{meanings_of, number_of_symbol, symbol_target};

use crate::local_targets::local_target;
use crate::name_meanings::NameMeanings;
use crate::name_targets::name_target;
use crate::targets::Target;
use lk_elf::numbers::STB_WEAK;
use lk_model::summaries::Global as Symbol;
use lk_obj_read::Object;
use lk_resolve::Resolution;
use lk_symtab::SymTab;

/// The number of the name of a symbol of an input, or how many names there are where it was not added.
fn number_of_symbol(names: &SymTab, input: u32, symbol: u32) -> u32
    ensures { result ≡ number_of_symbol names.now input symbol }
{
    names.name_of_symbol(input, symbol).unwrap_or(names.len())
}

/// What a symbol of an input means that is not LOCAL: its name is found by its number, and what the name means is found
/// anew where it is not known.
pub fn global_target(
    names: &SymTab,
    meanings: Option<&NameMeanings>,
    input: u32,
    global: &Symbol,
) -> Target
    requires { IfSome meanings (λ m. m.now ≡ meanings_of names.now) }
    ensures { result ≡ global_target names.now input global.now }
{
    let number = number_of_symbol(names, input, global.symbol);
    let weak = global.binding == STB_WEAK as u32;
    match meanings {
        Some(meanings) => meanings.target(number, weak),
        None => name_target(names, number, weak),
    }
}

/// What a symbol of an object means to its relocations, by its number.
#[tactic(auto, using(crate::proofs::TargetsListed::reported_there, crate::proofs::TargetsListed::reported_past))]
pub fn symbol_target(
    targets: &[Target],
    resolution: &Resolution,
    object: &Object,
    input: u32,
    symbol: u32,
) -> Target
    requires { targets.now ≡ targets_of resolution.now (elf_of object.now) (summary_in (elf_of object.now)) input }
    ensures { result ≡ symbol_target resolution.now (elf_of object.now) (summary_in (elf_of object.now)) input symbol }
{
    match targets.get(symbol as usize) {
        Some(target) => *target,
        None => local_target(resolution, object, input, symbol),
    }
}
