//! The runs of bytes that LOAD headers map (gABI "Program Loading").

ghost use Rattle.std.specs.Prelude.{◌≡◌, drop, take, IfOk};
ghost use Rattle.lk_loader.specs.Runs.{run_under, runs_of};

use crate::loads::{Run, RunList};
use crate::texts::{front_of, rest_from};
use lk_elf::Phdr;
use lk_elf::numbers::PT_LOAD;
use lk_report::{Bytes, List, NoMemory};
use std::alloc::Global;

/// The bytes of the file that a segment has in memory.
fn stored<'a>(image: &'a [u8], header: &Phdr) -> &'a [u8]
    ensures { result.now ≡ take header.now.p_memsz (take header.now.p_filesz (drop header.now.p_offset image.now)) }
{
    let range = front_of(
        rest_from(image, header.p_offset as usize),
        header.p_filesz as usize,
    );
    front_of(range, header.p_memsz as usize)
}

/// The run of a LOAD header: its bytes of the file, then zeros.
fn run_under(alloc: Global, image: &[u8], header: &Phdr) -> Result<Run, NoMemory>
    ensures { IfOk result (λ run. run ≡ run_under image.now header.now) }
{
    let stored = stored(image, header);
    let zeros = header.p_memsz.saturating_sub(header.p_filesz) as usize;
    let size = stored.len() + zeros;
    let Ok(mut bytes) = Vec::with_capacity(alloc, size) else {
        return Err(NoMemory);
    };
    if bytes.extend_from_slice(stored).is_err() || bytes.resize(size, 0).is_err() {
        return Err(NoMemory);
    }
    Ok(Run {
        addr: header.p_vaddr,
        flags: header.p_flags,
        bytes: Bytes::from_vec(bytes)?,
    })
}

/// The runs of the LOADs among these headers, in their order.
pub(crate) fn runs_of(alloc: Global, image: &[u8], headers: &[Phdr]) -> Result<RunList, NoMemory>
    ensures { IfOk result (λ runs. runs ≡ runs_of image.now headers.now) }
{
    let mut runs = Vec::new(alloc);
    for header in headers {
        if header.p_type == PT_LOAD {
            let run = run_under(alloc, image, header)?;
            if runs.push(run).is_err() {
                return Err(NoMemory);
            }
        }
    }
    Ok(List::from_vec(runs))
}
