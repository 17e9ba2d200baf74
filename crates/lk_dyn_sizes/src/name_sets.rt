//! Sets of names by their numbers: the imports that a link needs, and those that it copies.

ghost use Rattle.std.specs.Prelude.{◌≡◌, nat_eq, flat_map, fold, IfOk, OnOk};
ghost use Rattle.lk_model.specs.Numbered.{with_new};
ghost use Rattle.lk_dyn_sizes.specs.DynamicRows.{copied_numbers, needed_numbers, slot_names};

use indexmap::IndexSet;
use lk_model::layouts::{GotKey, GotOwner, Needs};
use lk_report::NoMemory;
use std::alloc::Global;

/// The numbers of names, each once.
pub(crate) type NameSet = IndexSet<u32>;

/// Puts a name into a set.
fn insert_number(names: &mut NameSet, number: u32) -> Result<(), NoMemory>
    ensures { OnOk result (names.new.keys ≡ with_new nat_eq names.old.keys number) }
{
    if names.insert(number).is_err() {
        return Err(NoMemory);
    }
    Ok(())
}

/// Puts names into a set.
fn insert_numbers(names: &mut NameSet, numbers: &[u32]) -> Result<(), NoMemory>
    ensures { OnOk result (names.new.keys ≡ fold (with_new nat_eq) names.old.keys numbers.now) }
{
    for number in numbers {
        insert_number(names, *number)?;
    }
    Ok(())
}

/// Puts the name of a GOT slot into a set, where a name owns the slot.
fn insert_slot(names: &mut NameSet, key: GotKey) -> Result<(), NoMemory>
    ensures { OnOk result (names.new.keys ≡ fold (with_new nat_eq) names.old.keys (slot_names key)) }
{
    match key.owner {
        GotOwner::Global(number) => insert_number(names, number),
        GotOwner::Local { .. } => Ok(()),
    }
}

/// Puts the names of GOT slots into a set.
fn insert_slots(names: &mut NameSet, keys: &[GotKey]) -> Result<(), NoMemory>
    ensures { OnOk result (names.new.keys ≡ fold (with_new nat_eq) names.old.keys (flat_map slot_names keys.now)) }
{
    for key in keys {
        insert_slot(names, *key)?;
    }
    Ok(())
}

/// The names that have a PLT entry, a GOT slot or a copy.
pub(crate) fn needed_set(alloc: Global, needs: &Needs) -> Result<NameSet, NoMemory>
    ensures { IfOk result (λ names. names.keys ≡ needed_numbers needs.now) }
{
    let mut names = IndexSet::new(alloc);
    insert_numbers(&mut names, needs.plt.as_slice())?;
    insert_slots(&mut names, needs.got.as_slice())?;
    insert_numbers(&mut names, needs.copies.as_slice())?;
    Ok(names)
}

/// The imports that are copied into the image.
pub(crate) fn copied_set(alloc: Global, needs: &Needs) -> Result<NameSet, NoMemory>
    ensures { IfOk result (λ names. names.keys ≡ copied_numbers needs.now) }
{
    let mut names = IndexSet::new(alloc);
    insert_numbers(&mut names, needs.copies.as_slice())?;
    Ok(names)
}
