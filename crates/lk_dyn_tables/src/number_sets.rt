//! Sets of numbers.

ghost use Rattle.std.specs.Prelude.{◌≡◌, ℕ, nat_eq, fold, IfOk, OnOk};
ghost use Rattle.lk_model.specs.Numbered.{distinct, is_number_in, with_new};

use indexmap::IndexSet;
use lk_report::NoMemory;
use std::alloc::Global;

/// Numbers, each once.
pub(crate) type NumberSet = IndexSet<u32>;

/// Puts a number into a set.
fn insert_number(set: &mut NumberSet, number: u32) -> Result<(), NoMemory>
    ensures { OnOk result (set.new.keys ≡ with_new nat_eq set.old.keys number) }
{
    if set.insert(number).is_err() {
        return Err(NoMemory);
    }
    Ok(())
}

/// The set of these numbers.
pub(crate) fn number_set(alloc: Global, numbers: &[u32]) -> Result<NumberSet, NoMemory>
    ensures { IfOk result (λ set. set.keys ≡ distinct nat_eq numbers.now) }
{
    let mut set = IndexSet::new(alloc);
    for number in numbers {
        insert_number(&mut set, *number)?;
    }
    Ok(set)
}

/// Whether a number is in a set.
pub(crate) fn has_number(set: &NumberSet, number: u32) -> bool
    ensures { result ≡ is_number_in set.now.keys number }
{
    set.contains(&number)
}
