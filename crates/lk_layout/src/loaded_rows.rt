//! The rows of sections that are loaded: each segment begins at a page (gABI "Program Loading"), each section
//! at a multiple of its alignment, and the thread-local zeros take no addresses (gABI "Thread-Local Storage").

ghost use Rattle.std.specs.Prelude.{◌≡◌, ◌++◌, ◌∷◌, [], IfOk, OnOk};
ghost use Rattle.lk_model.specs.FullPlace.{address_align, begin_from, first_address, loaded_row, loaded_rows, next_address, page, thread_align};
ghost use Rattle.lk_model.specs.Amounts.{round_up};
ghost use Rattle.lk_model.specs.SectionOrder.{First, segment_of};
ghost use Rattle.lk_layout.specs.Rows.{loaded_among};

use crate::amounts::{plus, round_up};
use crate::classes::share_segment;
use crate::extents::WideExtent;
use crate::wide_rows::WideRow;
use lk_model::classes::{is_alloc, is_thread, same_class};
use lk_model::images::{FIRST_ADDRESS, PAGE};
use lk_model::layouts::Class;
use lk_report::NoMemory;
use std::alloc::Global;

/// The address of a section, and where the next may begin.
#[derive(Clone, Copy)]
struct AddressStep {
    address: u128,
    next: u128,
}

/// The greatest alignment of the thread-local sections, or 0.
pub(crate) fn thread_align(extents: &[WideExtent<'_>]) -> u64
    ensures { result ≡ thread_align extents.now }
{
    let mut align = 0;
    for extent in extents {
        if is_thread(extent.class()) {
            align = align.max(extent.align());
        }
    }
    align
}

/// The alignment of a section's address: thread-local data are at the greatest of both sections'.
fn address_align(thread: u64, extent: &WideExtent<'_>) -> u64
    ensures { result ≡ address_align thread extent.now }
{
    if same_class(extent.class(), Class::Tdata) {
        thread.max(extent.align())
    } else {
        extent.align()
    }
}

/// Where a section of a class may begin behind one of another class: there, or at the next page in a new
/// segment.
fn begin_from(last: Class, class: Class, at: u128) -> Result<u128, NoMemory>
    ensures { IfOk result (λ begin. begin ≡ begin_from (segment_of last) class at) }
{
    if share_segment(last, class) {
        return Ok(at);
    }
    round_up(at, u128::from(PAGE))
}

/// The place of a section that may begin there.
fn place_of(thread: u64, begin: u128, extent: &WideExtent<'_>) -> Result<AddressStep, NoMemory>
    ensures address { IfOk result (λ p. p.address ≡ round_up begin (address_align thread extent.now)) }
    ensures next { IfOk result (λ p. p.next ≡ next_address begin p.address extent.now) }
{
    let align = u128::from(address_align(thread, extent));
    let address = round_up(begin, align)?;
    let next = if same_class(extent.class(), Class::Tbss) {
        begin
    } else {
        plus(address, extent.room())?
    };
    Ok(AddressStep { address, next })
}

/// Puts a row at the end.
pub(crate) fn push_row<'k>(rows: &mut Vec<WideRow<'k>>, row: WideRow<'k>) -> Result<(), NoMemory>
    ensures { OnOk result (rows.new.items ≡ rows.old.items ++ row.entry ∷ []) }
{
    if rows.push(row).is_err() {
        return Err(NoMemory);
    }
    Ok(())
}

/// The rows of the sections that are loaded, in their order.
pub(crate) fn loaded_rows<'k>(
    alloc: Global,
    extents: &[WideExtent<'k>],
) -> Result<Vec<WideRow<'k>>, NoMemory>
    ensures { IfOk result (λ rows. rows.items ≡ loaded_rows (thread_align extents.now) First first_address (loaded_among extents.now)) }
{
    let thread = thread_align(extents);
    let mut rows = Vec::new(alloc);
    let mut last = Class::R;
    let mut at = u128::from(FIRST_ADDRESS);
    for extent in extents {
        if is_alloc(extent.class()) {
            let begin = begin_from(last, extent.class(), at)?;
            let place = place_of(thread, begin, extent)?;
            push_row(&mut rows, WideRow::loaded(place.address, extent))?;
            last = extent.class();
            at = place.next;
        }
    }
    Ok(rows)
}
