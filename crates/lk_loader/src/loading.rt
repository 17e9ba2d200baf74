//! An image as a loader takes it (gABI "Program Loading", "Dynamic Section").

ghost use Rattle.std.specs.Prelude.{◌≡◌, None, option_map};
ghost use Rattle.lk_elf.specs.Records.{ehdr_at};
ghost use Rattle.lk_model.specs.Checks.{first_fault};
ghost use Rattle.lk_model.specs.Loading.{headers_in};
ghost use Rattle.lk_model.specs.Loads.{entry_in, load_checks, load_refusal};
ghost use Rattle.lk_loader.specs.HeaderRows.{headers_refusal};
ghost use Rattle.lk_loader.specs.LoadFaults.{Gives};
ghost use Rattle.lk_loader.specs.LoadedImages.{MapsSame, loaded_image, tls_under};

use crate::file_headers::executable_header;
use crate::loads::{LoadFault, Loaded};
use crate::parts::Named;
use crate::program_headers::{PhdrList, find_header, find_overlap, read_headers};
use crate::runs::runs_of;
use crate::tables::named_under;
use lk_elf::numbers::{PT_DYNAMIC, PT_TLS};
use lk_elf::{Ehdr, Phdr};
use lk_model::layouts::TlsSegment;
use std::alloc::Global;

/// The program headers of an image with this file header, where they pass the checks that look at headers
/// alone.
///
/// # Errors
/// BadTable, then Overlap, each for the first header that has it; out of memory.
fn checked_headers(alloc: Global, image: &[u8], header: &Ehdr) -> Result<PhdrList, LoadFault>
    requires { header.now ≡ ehdr_at image.now 0 }
    ensures { Gives (headers_refusal image.now) (headers_in image.now) result }
{
    let headers = read_headers(alloc, image, header.e_phoff, header.e_phnum)?;
    match find_overlap(headers.as_slice()) {
        None => Ok(headers),
        Some(n) => Err(LoadFault::Overlap(n)),
    }
}

/// The thread-local segment of its header.
fn tls_under(header: Option<Phdr>) -> Option<TlsSegment>
    ensures { result ≡ option_map tls_under header }
{
    let header = header?;
    Some(TlsSegment {
        addr: header.p_vaddr,
        file: header.p_filesz,
        memory: header.p_memsz,
        align: header.p_align,
    })
}

/// What a loader makes of an image with these headers, which pass their checks.
///
/// # Errors
/// BadDynamic; out of memory.
fn loaded_under(
    alloc: Global,
    image: &[u8],
    entry: u64,
    headers: &[Phdr],
) -> Result<Loaded, LoadFault>
    requires entry { entry ≡ entry_in image.now }
    requires headers { headers.now ≡ headers_in image.now }
    requires checks { first_fault (load_checks image.now) ≡ None }
    ensures { Gives (load_refusal image.now) (loaded_image image.now) result }
{
    let runs = runs_of(alloc, image, headers)?;
    let dynamic = find_header(headers, PT_DYNAMIC);
    let Some(named) = named_under(alloc, runs.as_slice(), dynamic)? else {
        return Err(LoadFault::BadDynamic);
    };
    let Named {
        needed,
        symbols,
        relocations,
    } = named;
    Ok(Loaded {
        runs,
        needs: needed,
        symbols,
        relocations,
        tls: tls_under(find_header(headers, PT_TLS)),
        entry,
    })
}

/// What a loader makes of an image: its runs of bytes with their rights, what DYNAMIC names, its thread-local
/// segment and its entry (gABI "Program Loading", "Dynamic Section"). Time is linear in headers, entries,
/// symbols, relocations and loaded bytes.
///
/// # Errors
/// The first refusal of the image, as `LoadFault` lists them; out of memory, also where a segment asks for
/// more memory than there is.
pub fn load(alloc: Global, bytes: &[u8]) -> Result<Loaded, LoadFault>
    ensures value { Gives (load_refusal bytes.now) (loaded_image bytes.now) result }
    ensures mapped { MapsSame bytes.now result }
{
    let header = executable_header(bytes)?;
    let headers = checked_headers(alloc, bytes, &header)?;
    loaded_under(alloc, bytes, header.e_entry, headers.as_slice())
}
