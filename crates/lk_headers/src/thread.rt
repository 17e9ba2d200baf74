//! The header of the thread-local segment (gABI "Thread-Local Storage"), and that of the stack.

ghost use Rattle.std.specs.Prelude.{◌≡◌, option_map};
ghost use Rattle.lk_elf.specs.Records.{phdr_bytes};
ghost use Rattle.lk_model.specs.Segments.{stack_header, tls_segment};
ghost use Rattle.lk_headers.specs.Shown.{thread_bytes, thread_header};

use crate::low_bits::{above, low_64};
use crate::thread_block::{ThreadSegment, thread_segment};
use lk_elf::Phdr;
use lk_elf::numbers::{PF_R, PF_W, PF_X, PT_GNU_STACK, PT_TLS};
use lk_model::images::LOAD_BASE;
use lk_model::layouts::Placement;

/// The header of a thread-local segment at an address, with its bytes in the file and in memory.
#[tactic(auto, using(crate::proofs::FieldBytes::phdr_reported))]
fn header_at(addr: u64, file: u64, memory: u128, align: u64) -> Phdr
    ensures { phdr_bytes result ≡ phdr_bytes (thread_header addr file memory align) }
{
    Phdr {
        p_type: PT_TLS,
        p_flags: PF_R,
        p_offset: low_64(above(u128::from(addr), u128::from(LOAD_BASE))),
        p_vaddr: addr,
        p_paddr: addr,
        p_filesz: file,
        p_memsz: low_64(memory),
        p_align: align,
    }
}

/// The header of a thread-local segment.
fn segment_header(segment: &ThreadSegment) -> Phdr
    ensures { phdr_bytes result ≡ thread_bytes segment.now }
{
    header_at(segment.addr, segment.file, segment.memory, segment.align)
}

/// The header of the thread-local segment, if there is one.
pub(crate) fn thread_local_header(place: &Placement) -> Option<Phdr>
    ensures { option_map phdr_bytes result ≡ option_map thread_bytes (tls_segment place.now) }
{
    match thread_segment(place) {
        None => None,
        Some(segment) => Some(segment_header(&segment)),
    }
}

/// The header of the stack (PT_GNU_STACK), executable where that is asked for.
pub(crate) fn stack_header(exec_stack: bool) -> Phdr
    ensures { result ≡ stack_header exec_stack }
{
    Phdr {
        p_type: PT_GNU_STACK,
        p_flags: if exec_stack {
            PF_R + PF_W + PF_X
        } else {
            PF_R + PF_W
        },
        p_offset: 0,
        p_vaddr: 0,
        p_paddr: 0,
        p_filesz: 0,
        p_memsz: 0,
        p_align: 16,
    }
}
