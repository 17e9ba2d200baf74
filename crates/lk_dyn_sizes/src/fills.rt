//! Which GOT slots the dynamic linker fills before the program begins, and by which relocation type (psABI
//! x86-64 "Relocation Types": GLOB_DAT, TPOFF64).

ghost use Rattle.std.specs.Prelude.{◌≡◌, [], ◌++◌, is_some, List, option_map, IfOk, OnOk};
ghost use Rattle.std.specs.List.{cons_option};
ghost use Rattle.lk_report.specs.declared.causes.OptionRecord.{OptionRecord};
ghost use Rattle.lk_model.specs.declared.summaries.InputSummary.{InputSummary};
ghost use Rattle.lk_model.specs.DynamicSlots.{import_fill, winner_fill};
ghost use Rattle.lk_model.specs.DynamicSlots as model;
ghost use Rattle.lk_model.specs.Resolving.{resolve};
ghost use Rattle.lk_model.specs.Views.{Input};
ghost use Rattle.lk_resolve.specs.Given.{IsGiven};
ghost use Rattle.lk_dyn_sizes.specs.DynamicRows.{copied_numbers};
ghost use Rattle.lk_dyn_sizes.specs.Fills.{as_fill, as_fills, filled_count, fills_from, is_filled, key_fill, number_fill, owner_fill_in, slot_fill_in};

use crate::name_sets::{NameSet, copied_set};
use crate::slot_rows::{SlotFill, SlotFillList};
use lk_model::layouts::{GotKey, GotOwner, Needs, SlotTable};
use lk_model::summaries::Winner;
use lk_report::{List, NoMemory};
use lk_resolve::Resolution;
use lk_symtab::SymTab;
use std::alloc::Global;

/// A slot is filled with the address of a symbol.
const R_X86_64_GLOB_DAT: u32 = 6;

/// A slot is filled with the thread offset of a symbol.
const R_X86_64_TPOFF64: u32 = 18;

/// The relocation type that fills the slot of an import: that of a thread offset or of an address; none for the
/// address of a copy, which is known when the image is made.
fn import_fill(thread: bool, copied: bool) -> Option<u32>
    ensures { result ≡ import_fill thread copied }
{
    if thread {
        return Some(R_X86_64_TPOFF64);
    }
    if copied {
        return None;
    }
    Some(R_X86_64_GLOB_DAT)
}

/// The relocation type that fills the slot of a name with this winner, where that is an import.
fn winner_fill(thread: bool, copied: bool, winner: Winner) -> Option<u32>
    ensures { result ≡ winner_fill thread copied winner }
{
    match winner {
        Winner::Import { .. } => import_fill(thread, copied),
        Winner::Strong { .. } | Winner::Common { .. } | Winner::Weak { .. } => None,
        Winner::Made | Winner::Nothing => None,
    }
}

/// The relocation type that fills the slot of the name with a number, a thread offset or an address.
#[tactic(auto, using(crate::proofs::FillsCounted::fill_reported))]
fn number_fill(names: &SymTab, copied: &NameSet, number: u32, thread: bool) -> Option<u32>
    ensures { result ≡ number_fill names.now copied.now.keys number thread }
{
    if number >= names.len() {
        return None;
    }
    winner_fill(thread, copied.contains(&number), names.winner(number))
}

/// The relocation type that fills a slot; none for a LOCAL symbol, whose value is known when the image is made.
fn key_fill(names: &SymTab, copied: &NameSet, key: GotKey) -> Option<u32>
    ensures { result ≡ key_fill names.now copied.now.keys key }
{
    match key.owner {
        GotOwner::Global(number) => number_fill(names, copied, number, key.thread),
        GotOwner::Local { .. } => None,
    }
}

/// Whether the dynamic linker fills a slot.
fn is_filled(names: &SymTab, copied: &NameSet, key: GotKey) -> bool
    ensures { result ≡ is_filled names.now copied.now.keys key }
{
    key_fill(names, copied, key).is_some()
}

/// How many of these slots the dynamic linker fills, where these names are copied.
pub(crate) fn filled_count(names: &SymTab, copied: &NameSet, keys: &[GotKey]) -> usize
    ensures { result ≡ filled_count names.now copied.now.keys keys.now }
{
    keys.iter()
        .filter(|key| is_filled(names, copied, **key))
        .count()
}

/// The fill of the slot with a number, by its owner.
fn owner_fill(
    names: &SymTab,
    copied: &NameSet,
    slot: u64,
    thread: bool,
    owner: GotOwner,
) -> Option<SlotFill>
    ensures { option_map as_fill result ≡ owner_fill_in names.now copied.now.keys slot thread owner }
{
    let GotOwner::Global(name) = owner else {
        return None;
    };
    match number_fill(names, copied, name, thread) {
        Some(code) => Some(SlotFill { slot, name, code }),
        None => None,
    }
}

/// The fill of the slot with a number; a free slot has none.
fn slot_fill(names: &SymTab, copied: &NameSet, slot: u64, key: Option<GotKey>) -> Option<SlotFill>
    ensures { option_map as_fill result ≡ slot_fill_in names.now copied.now.keys (slot, key) }
{
    match key {
        Some(key) => owner_fill(names, copied, slot, key.thread, key.owner),
        None => None,
    }
}

/// Notes the slot with a number, where the dynamic linker fills it.
fn note_slot(
    names: &SymTab,
    copied: &NameSet,
    slot: u64,
    key: Option<GotKey>,
    fills: &mut SlotFillList,
) -> Result<(), NoMemory>
    ensures { OnOk result (as_fills fills.new ≡ as_fills fills.old ++ cons_option (slot_fill_in names.now copied.now.keys (slot, key)) []) }
{
    match slot_fill(names, copied, slot, key) {
        Some(fill) => fills.push(fill),
        None => Ok(()),
    }
}

/// The slots among these that the dynamic linker fills, where these names are copied.
fn fills_among(
    alloc: Global,
    names: &SymTab,
    copied: &NameSet,
    slots: &[Option<GotKey>],
) -> Result<SlotFillList, NoMemory>
    ensures { IfOk result (λ fills. as_fills fills ≡ fills_from names.now copied.now.keys 0 slots.now) }
{
    let mut fills = List::new(alloc);
    for (slot, key) in slots.iter().enumerate() {
        note_slot(names, copied, slot as u64, *key, &mut fills)?;
    }
    Ok(fills)
}

/// The slots of a table that the dynamic linker fills, over the rows of a `Resolution`.
fn fills_of(
    alloc: Global,
    resolution: &Resolution,
    needs: &Needs,
    slots: &SlotTable,
) -> Result<SlotFillList, NoMemory>
    ensures { IfOk result (λ fills. as_fills fills ≡ fills_from resolution.now.rows (copied_numbers needs.now) 0 slots.now.got) }
{
    let copied = copied_set(alloc, needs)?;
    fills_among(alloc, resolution.names(), &copied, slots.got.as_slice())
}

/// The GOT slots that the dynamic linker fills before the program begins, in slot order: those of imports,
/// except the addresses of copied imports.
///
/// # Errors
/// Out of memory.
pub fn slot_fills(
    alloc: Global,
    resolution: &Resolution,
    needs: &Needs,
    slots: &SlotTable,
) -> Result<SlotFillList, NoMemory>
    ensures fills { IfOk result (λ fills. as_fills fills ≡ fills_from resolution.now.rows (copied_numbers needs.now) 0 slots.now.got) }
    ensures given { (summaries : List InputSummary) (options : OptionRecord) (xs : List Input) → IsGiven resolution.now summaries needs.now options xs → IfOk result (λ fills. as_fills fills ≡ model.slot_fills (resolve options xs) slots.now) }
{
    fills_of(alloc, resolution, needs, slots)
}
