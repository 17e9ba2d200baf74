//! The program headers one after another (gABI "Program Header"), in their order.

ghost use Rattle.std.specs.Prelude.{◌≡◌, ◌-◌, ◌≤◌, ◌<◌, ◌++◌, Bool, length, OnOk};
ghost use Rattle.std.specs.List.{flat_map};
ghost use Rattle.lk_elf.specs.Records.{phdr_bytes};
ghost use Rattle.lk_model.specs.Segments.{program_headers, second_load, segment_rows, table_header, tls_header, tls_segment};
ghost use Rattle.lk_model.specs.SectionOrder.{Second};
ghost use Rattle.lk_headers.specs.ProgramHeaders.{loads_of, others_of, table_phdr};
ghost use Rattle.lk_headers.specs.Shown.{shown_headers};
ghost use Rattle.lk_headers.specs.declared.shown.Shown.TheVariants as shown;

use crate::appending::{put_header, put_shown};
use crate::loads::{first_load, has_rows, second_load, third_load};
use crate::segments::Loaded;
use crate::shown::{Shown, shown_count};
use crate::thread::{stack_header, thread_local_header};
use lk_elf::Phdr;
use lk_elf::numbers::{PF_R, PT_PHDR};
use lk_model::layouts::Placement;
use lk_report::NoMemory;

/// The header that describes the program headers, itself among them (PT_PHDR).
fn table_phdr(count: u16) -> Phdr
    ensures { result ≡ table_phdr count }
{
    let size = 56 * u64::from(count);
    Phdr {
        p_type: PT_PHDR,
        p_flags: PF_R,
        p_offset: 64,
        p_vaddr: 0x400040,
        p_paddr: 0x400040,
        p_filesz: size,
        p_memsz: size,
        p_align: 8,
    }
}

/// Puts the header that describes the program headers at the end, where one is PT_INTERP.
#[tactic(auto, using(crate::proofs::PutInTurn::table_put, crate::proofs::PutInTurn::no_table_put))]
fn put_table(out: &mut Vec<u8>, place: &Placement, count: u16) -> Result<(), NoMemory>
    requires { 0 < count }
    ensures { OnOk result (out.new.items ≡ out.old.items ++ flat_map phdr_bytes (table_header (shown_headers shown.Interpreter place.now.sections) (count - 1))) }
{
    if 0 < shown_count(Shown::Interpreter, place.sections.as_slice()) {
        put_header(out, &table_phdr(count))?;
    }
    Ok(())
}

/// Puts the header of the second segment at the end, if it has a section.
#[tactic(auto, using(crate::proofs::PutInTurn::second_put, crate::proofs::PutInTurn::no_second_put))]
fn put_second_load(out: &mut Vec<u8>, place: &Placement) -> Result<(), NoMemory>
    ensures { OnOk result (out.new.items ≡ out.old.items ++ flat_map phdr_bytes (second_load place.now (segment_rows Second place.now))) }
{
    if has_rows(Loaded::Second, place) {
        put_header(out, &second_load(place))?;
    }
    Ok(())
}

/// Puts the headers of the loaded segments at the end.
#[tactic(auto, using(crate::proofs::PutInTurn::loads_put), unfolding(crate::specs::ProgramHeaders::loads_of))]
fn put_loads(out: &mut Vec<u8>, place: &Placement) -> Result<(), NoMemory>
    ensures { OnOk result (out.new.items ≡ out.old.items ++ flat_map phdr_bytes (loads_of place.now)) }
{
    put_header(out, &first_load(place))?;
    put_second_load(out, place)?;
    put_header(out, &third_load(place))
}

/// Puts the header of the thread-local segment at the end, if there is one.
#[tactic(auto, using(crate::proofs::PutInTurn::thread_put, crate::proofs::PutInTurn::no_thread_put))]
fn put_thread(out: &mut Vec<u8>, place: &Placement) -> Result<(), NoMemory>
    ensures { OnOk result (out.new.items ≡ out.old.items ++ flat_map phdr_bytes (tls_header (tls_segment place.now))) }
{
    match thread_local_header(place) {
        Some(header) => put_header(out, &header),
        None => Ok(()),
    }
}

/// Puts the headers that come after those of the loaded segments at the end.
#[tactic(auto, using(crate::proofs::PutInTurn::others_put), unfolding(crate::specs::ProgramHeaders::others_of))]
fn put_others(out: &mut Vec<u8>, place: &Placement, exec_stack: bool) -> Result<(), NoMemory>
    ensures { OnOk result (out.new.items ≡ out.old.items ++ flat_map phdr_bytes (others_of place.now exec_stack)) }
{
    let rows = place.sections.as_slice();
    put_shown(out, Shown::Dynamic, rows)?;
    put_shown(out, Shown::Note, rows)?;
    put_thread(out, place)?;
    put_header(out, &stack_header(exec_stack))
}

/// Puts all program headers at the end.
#[tactic(auto, using(crate::proofs::PutInTurn::all_put))]
pub(crate) fn put_program_headers(
    out: &mut Vec<u8>,
    place: &Placement,
    exec_stack: bool,
    count: u16,
) -> Result<(), NoMemory>
    requires { count ≡ length (program_headers place.now exec_stack) }
    ensures { OnOk result (out.new.items ≡ out.old.items ++ flat_map phdr_bytes (program_headers place.now exec_stack)) }
{
    put_table(out, place, count)?;
    put_shown(out, Shown::Interpreter, place.sections.as_slice())?;
    put_loads(out, place)?;
    put_others(out, place, exec_stack)
}
