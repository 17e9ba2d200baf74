//! What the symbols of an object mean to its references, as a list by their numbers (gABI "Symbol Table"):
//! each symbol is looked at once, before any reference.
//!
//! The list goes up to the last symbol that is not LOCAL. In the symbol table LOCAL symbols come first, so
//! this is all of them, but for an object that has LOCAL symbols alone.

ghost use Rattle.std.specs.Prelude.{◌≡◌, ◌≤◌, ◌^◌, map, set, IfOk, IfSome};
ghost use Rattle.std.specs.List.{range_with_len};
ghost use Rattle.lk_model.specs.Elf.{elf_of};
ghost use Rattle.lk_model.specs.Objects.{summary_in};
ghost use Rattle.lk_scan.specs.SymbolTargets.{count_for, targets_of, with_globals};
ghost use Rattle.lk_scan.specs.Targets.{local_target, meanings_of};

use crate::local_targets::local_target;
use crate::name_meanings::NameMeanings;
use crate::symbol_targets::global_target;
use crate::targets::Target;
use lk_model::summaries::Global as Symbol;
use lk_obj_read::Object;
use lk_report::NoMemory;
use lk_resolve::Resolution;
use lk_symtab::SymTab;
use std::alloc::Global;

/// How many numbers a list has that has those of all these symbols.
fn count_for(globals: &[Symbol]) -> usize
    ensures value { result ≡ count_for globals.now }
    ensures numbers { result ≤ 2 ^ 32 }
{
    let mut count = 0;
    for global in globals {
        count = count.max(global.symbol as usize + 1);
    }
    count
}

/// What the symbols before this number mean, if all are LOCAL.
fn local_targets(
    alloc: Global,
    resolution: &Resolution,
    object: &Object,
    input: u32,
    count: usize,
) -> Result<Vec<Target>, NoMemory>
    requires { count ≤ 2 ^ 32 }
    ensures { IfOk result (λ targets. targets.items ≡ map (local_target resolution.now (elf_of object.now) input) (range_with_len 0 count)) }
{
    let Ok(mut targets) = Vec::with_capacity(alloc, count) else {
        return Err(NoMemory);
    };
    for symbol in 0..count {
        let target = local_target(resolution, object, input, symbol as u32);
        let Ok(()) = targets.push(target) else {
            return Err(NoMemory);
        };
    }
    Ok(targets)
}

/// Puts what a symbol means in the place of its number, where the list has it.
#[tactic(auto, using(std::proofs::lemmas::List::set_past))]
fn set_target(targets: &mut [Target], symbol: u32, target: Target)
    ensures { targets.new ≡ set targets.old symbol target }
{
    if (symbol as usize) < targets.len() {
        targets[symbol as usize] = target;
    }
}

/// Puts in what the symbols mean that are not LOCAL, from the last on, so that the first of a number stays.
fn set_globals(
    targets: &mut [Target],
    names: &SymTab,
    meanings: Option<&NameMeanings>,
    input: u32,
    globals: &[Symbol],
)
    requires { IfSome meanings (λ m. m.now ≡ meanings_of names.now) }
    ensures { targets.new ≡ with_globals names.now input globals.now targets.old }
{
    for number in (0..globals.len()).rev() {
        let global = &globals[number];
        let target = global_target(names, meanings, input, global);
        set_target(targets, global.symbol, target);
    }
}

/// What the symbols of an object mean, by their numbers, up to the last that is not LOCAL. What the names
/// mean is taken from `meanings`, where it is known.
///
/// # Errors
/// Out of memory.
pub fn target_list(
    alloc: Global,
    resolution: &Resolution,
    meanings: Option<&NameMeanings>,
    object: &Object,
    input: u32,
) -> Result<Vec<Target>, NoMemory>
    requires { IfSome meanings (λ m. m.now ≡ meanings_of resolution.now.rows) }
    ensures { IfOk result (λ targets. targets.items ≡ targets_of resolution.now (elf_of object.now) (summary_in (elf_of object.now)) input) }
{
    let globals = object.summary().globals.as_slice();
    let mut targets = local_targets(alloc, resolution, object, input, count_for(globals))?;
    set_globals(&mut targets, resolution.names(), meanings, input, globals);
    Ok(targets)
}
