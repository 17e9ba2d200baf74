//! What a loader makes of a small image, and what it refuses of images that differ from it in one byte.

use crate::images::IMAGE;
use lk_loader::{LoadFault, Loaded, TlsSegment, load};
use std::alloc::Global;

/// The address, the rights and the number of bytes of the last run.
fn last_run(found: &Loaded) -> Option<(u64, u32, usize)> {
    let run = found.runs.as_slice().last()?;
    Some((run.addr, run.flags, run.bytes.as_slice().len()))
}

/// The value, the size and the type of the last symbol, and whether the image defines it.
fn last_symbol(found: &Loaded) -> Option<(u64, u64, u32, bool)> {
    let symbol = found.symbols.as_slice().last()?;
    Some((symbol.value, symbol.size, symbol.info, symbol.defined))
}

/// The place and the addend of the last relocation.
fn last_relocation(found: &Loaded) -> Option<(u64, i64)> {
    let rela = found.relocations.as_slice().last()?;
    Some((rela.r_offset, rela.r_addend))
}

#[test]
fn a_dynamic_image_is_loaded(rt: HostRuntime) -> Result<(), LoadFault> {
    let found = load(rt.alloc(), &IMAGE)?;
    assert_eq!(rt; last_run(&found), Some((0x4011c0, 6, 196)));
    assert_eq!(rt; last_symbol(&found), Some((0x401270, 4, 0x11, true)));
    assert_eq!(rt; last_relocation(&found), Some((0x401280, -1)));
    assert_eq!(rt; found.entry, 0x400100);
    Ok(())
}

/// How many runs, needs, symbols and relocations there are.
fn counts(found: &Loaded) -> (usize, usize, usize, usize) {
    (
        found.runs.as_slice().len(),
        found.needs.as_slice().len(),
        found.symbols.as_slice().len(),
        found.relocations.as_slice().len(),
    )
}

#[test]
fn entries_after_the_first_null_do_not_count(rt: HostRuntime) -> Result<(), LoadFault> {
    let found = load(rt.alloc(), &IMAGE)?;
    assert_eq!(rt; counts(&found), (2, 1, 3, 2));
    let tls = TlsSegment {
        addr: 0x401270,
        file: 4,
        memory: 12,
        align: 4,
    };
    assert_eq!(rt; found.tls, Some(tls));
    Ok(())
}

/// Why an image is refused.
fn fault(alloc: Global, image: &[u8]) -> Option<LoadFault> {
    match load(alloc, image) {
        Ok(_) => None,
        Err(fault) => Some(fault),
    }
}

/// A byte of the image by its place, another one in its stead, and the fault that there is then.
type Change = (usize, u8, Option<LoadFault>);

/// Changes of one byte: of the file header, the program headers, the tables and the dynamic section.
static CHANGES: [Change; 24] = [
    (0, 0x7e, Some(LoadFault::NotElf)),
    (4, 1, Some(LoadFault::NotElf)),
    (5, 2, Some(LoadFault::NotElf)),
    (6, 0, Some(LoadFault::NotElf)),
    (16, 3, Some(LoadFault::NotElf)),
    (18, 3, None),
    (20, 9, None),
    (33, 0x10, Some(LoadFault::BadTable(0))),
    (97, 3, Some(LoadFault::BadTable(0))),
    (129, 2, Some(LoadFault::BadTable(1))),
    (152, 0xb5, Some(LoadFault::BadTable(1))),
    (264, 5, Some(LoadFault::BadTable(3))),
    (137, 0, Some(LoadFault::Overlap(1))),
    (137, 1, Some(LoadFault::BadDynamic)),
    (216, 0xff, Some(LoadFault::BadDynamic)),
    (292, 4, Some(LoadFault::BadDynamic)),
    (336, 15, Some(LoadFault::BadDynamic)),
    (336, 14, None),
    (456, 15, Some(LoadFault::BadDynamic)),
    (456, 14, None),
    (474, 0x50, Some(LoadFault::BadDynamic)),
    (520, 14, Some(LoadFault::BadDynamic)),
    (553, 0x10, Some(LoadFault::BadDynamic)),
    (592, 1, Some(LoadFault::BadDynamic)),
];

/// The image with one byte changed.
fn changed(at: usize, byte: u8) -> [u8; 628] {
    let mut image = IMAGE;
    if let Some(place) = image.get_mut(at) {
        *place = byte;
    }
    image
}

#[test]
fn a_change_of_one_byte_is_refused(rt: HostRuntime) {
    for (at, byte, wanted) in CHANGES.iter() {
        let image = changed(*at, *byte);
        assert_eq!(rt; fault(rt.alloc(), &image), *wanted);
    }
}
