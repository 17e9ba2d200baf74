//! What the slots of the global offset table hold when the program begins (psABI x86-64 "Global Offset Table").

ghost use Rattle.std.specs.Prelude.{◌≡◌, ◌++◌, List, IfOk, OnOk, flat_map};
ghost use Rattle.lk_report.specs.declared.causes.OptionRecord.{OptionRecord};
ghost use Rattle.lk_model.specs.declared.layouts.Needs.{Needs};
ghost use Rattle.lk_model.specs.Lawful.{Lawful};
ghost use Rattle.lk_model.specs.Resolving.{resolve};
ghost use Rattle.lk_model.specs.Tables.{got_bytes};
ghost use Rattle.lk_model.specs.Views.{Input};
ghost use Rattle.lk_resolve.specs.Given.{IsGiven};
ghost use Rattle.lk_dyn.specs.LocalSlots.{AreLocalSlots, content_bytes, content_by, content_of};

use crate::appending::put_long;
use crate::local_slots::{LocalSlot, LocalValues, local_key, local_value, local_values};
use lk_model::layouts::{GotKey, GotOwner};
use lk_report::{Bytes, NoMemory};
use lk_symbol_values::Values;
use std::alloc::Global;

/// What the slot of an owner holds, by its low 64 bits.
fn owner_content(values: &Values<'_>, locals: &LocalValues, thread: bool, owner: GotOwner) -> u64
    ensures { (needs : Needs) (options : OptionRecord) (xs : List Input) → IsGiven values.now.resolution values.now.summaries needs options xs → Lawful (resolve options xs) values.now.place → result ≡ content_by (resolve options xs) values.now.place locals.now.entries thread owner }
{
    match owner {
        GotOwner::Global(name) => values.name_slot(name, thread),
        GotOwner::Local { input, symbol } => local_value(locals, local_key(thread, input, symbol)),
    }
}

/// What a slot holds, by its low 64 bits; 0 where it is free.
fn slot_content(values: &Values<'_>, locals: &LocalValues, slot: Option<GotKey>) -> u64
    ensures { (needs : Needs) (options : OptionRecord) (xs : List Input) → IsGiven values.now.resolution values.now.summaries needs options xs → Lawful (resolve options xs) values.now.place → result ≡ content_of (resolve options xs) values.now.place locals.now.entries slot }
{
    match slot {
        None => 0,
        Some(key) => owner_content(values, locals, key.thread, key.owner),
    }
}

/// Puts what these slots hold at the end.
fn put_contents(
    out: &mut Vec<u8>,
    values: &Values<'_>,
    locals: &LocalValues,
    slots: &[Option<GotKey>],
) -> Result<(), NoMemory>
    ensures { OnOk result ((needs : Needs) (options : OptionRecord) (xs : List Input) → IsGiven values.now.resolution values.now.summaries needs options xs → Lawful (resolve options xs) values.now.place → out.new.items ≡ out.old.items ++ flat_map (content_bytes (resolve options xs) values.now.place locals.now.entries) slots.now) }
{
    for slot in slots {
        put_long(out, slot_content(values, locals, *slot))?;
    }
    Ok(())
}

/// The bytes of `.got` (psABI x86-64 "Global Offset Table"): the value of the symbol of each slot, or its offset from
/// the end of the thread-local block; 0 for an import without a copy and in a free slot. `locals` gives the values of
/// the slots of LOCAL symbols.
///
/// # Errors
/// Out of memory.
pub fn got_table(
    alloc: Global,
    values: &Values<'_>,
    locals: &[LocalSlot],
) -> Result<Bytes, NoMemory>
    ensures { (needs : Needs) (options : OptionRecord) (xs : List Input) → IsGiven values.now.resolution values.now.summaries needs options xs → Lawful (resolve options xs) values.now.place → AreLocalSlots (resolve options xs) values.now.place locals.now → IfOk result (λ table. table ≡ got_bytes (resolve options xs) values.now.place) }
{
    let locals = local_values(alloc, locals)?;
    let mut out = Vec::new(alloc);
    put_contents(
        &mut out,
        values,
        &locals,
        values.placement().slots.got.as_slice(),
    )?;
    Bytes::from_vec(out)
}
