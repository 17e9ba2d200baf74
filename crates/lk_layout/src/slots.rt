//! The slots that references need, in order of first reference.

ghost use Rattle.std.specs.Prelude.{◌≡◌, map, Some, IfOk};
ghost use Rattle.lk_model.specs.SectionOrder.{slots_of};

use lk_model::layouts::{GotKey, GotSlotList, Needs, SlotTable};
use lk_model::summaries::NumberList;
use lk_report::{List, NoMemory};
use std::alloc::Global;

/// A GOT slot for each key, in their order.
fn got_slots(alloc: Global, keys: &[GotKey]) -> Result<GotSlotList, NoMemory>
    ensures { IfOk result (λ slots. slots ≡ map Some keys.now) }
{
    let mut slots = List::new(alloc);
    for key in keys {
        slots.push(Some(*key))?;
    }
    Ok(slots)
}

/// The numbers, once more.
fn copied_numbers(alloc: Global, numbers: &[u32]) -> Result<NumberList, NoMemory>
    ensures { IfOk result (λ copied. copied ≡ numbers.now) }
{
    match Vec::from_slice(alloc, numbers) {
        Ok(copied) => Ok(List::from_vec(copied)),
        Err(_) => Err(NoMemory),
    }
}

/// A GOT slot for each key that is needed, and a PLT entry for each name that needs one.
pub(crate) fn slots_of(alloc: Global, needs: &Needs) -> Result<SlotTable, NoMemory>
    ensures { IfOk result (λ slots. slots ≡ slots_of needs.now) }
{
    let got = got_slots(alloc, needs.got.as_slice())?;
    let plt = copied_numbers(alloc, needs.plt.as_slice())?;
    Ok(SlotTable { got, plt })
}
