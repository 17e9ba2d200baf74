//! The tables of calls of a program that calls `puts` and then `exit`, byte for byte.

use lk_dyn::{NamePlaces, got_plt_table, plt_table, rela_plt_table};
use lk_model::layouts::{
    Class, GotSlotList, PieceRowList, Placement, SectionKey, SectionRow, SectionRowList, SlotTable,
};
use lk_model::summaries::NumberList;
use lk_report::{Name, NoMemory};
use std::alloc::Global;

/// An output section with a name, a class and an address.
#[derive(Clone, Copy)]
struct Given {
    name: &'static [u8],
    class: Class,
    addr: u64,
}

/// The sections of the tables of calls.
const SECTIONS: [Given; 3] = [
    Given {
        name: b".plt",
        class: Class::X,
        addr: 0x402040,
    },
    Given {
        name: b".dynamic",
        class: Class::W,
        addr: 0x403000,
    },
    Given {
        name: b".got.plt",
        class: Class::W,
        addr: 0x403180,
    },
];

/// The row of such a section.
fn row_of(alloc: Global, given: Given) -> Result<SectionRow, NoMemory> {
    let name = Name::from_slice(alloc, given.name)?;
    Ok(SectionRow {
        key: SectionKey {
            name,
            class: given.class,
        },
        addr: given.addr,
        offset: 0,
        size: 0,
        room: 0,
        align: 16,
    })
}

/// A placement with these sections, and with entries of the names 7 and 3.
fn placed(alloc: Global) -> Result<Placement, NoMemory> {
    let mut sections = SectionRowList::new(alloc);
    for given in SECTIONS.as_slice() {
        sections.push(row_of(alloc, *given)?)?;
    }
    let mut plt = NumberList::new(alloc);
    for name in [7, 3].as_slice() {
        plt.push(*name)?;
    }
    Ok(Placement {
        sections,
        pieces: PieceRowList::new(alloc),
        slots: SlotTable {
            got: GotSlotList::new(alloc),
            plt,
        },
    })
}

#[test]
fn the_procedure_linkage_table(rt: HostRuntime) -> Result<(), NoMemory> {
    let place = placed(rt.alloc())?;
    let table = plt_table(rt.alloc(), &place)?;
    let wanted: [u8; 48] = [
        0xff, 0x35, 0x42, 0x11, 0, 0, 0xff, 0x25, 0x44, 0x11, 0, 0, 0x0f, 0x1f, 0x40, 0, 0xff,
        0x25, 0x42, 0x11, 0, 0, 0x68, 0, 0, 0, 0, 0xe9, 0xe0, 0xff, 0xff, 0xff, 0xff, 0x25, 0x3a,
        0x11, 0, 0, 0x68, 1, 0, 0, 0, 0xe9, 0xd0, 0xff, 0xff, 0xff,
    ];
    assert_eq!(rt; table.as_slice(), wanted.as_slice());
    Ok(())
}

#[test]
fn the_slots_of_calls(rt: HostRuntime) -> Result<(), NoMemory> {
    let place = placed(rt.alloc())?;
    let table = got_plt_table(rt.alloc(), &place)?;
    let wanted: [u8; 40] = [
        0, 0x30, 0x40, 0, 0, 0, 0, 0, 0, 0, 0, 0, 0, 0, 0, 0, 0, 0, 0, 0, 0, 0, 0, 0, 0x56, 0x20,
        0x40, 0, 0, 0, 0, 0, 0x66, 0x20, 0x40, 0, 0, 0, 0, 0,
    ];
    assert_eq!(rt; table.as_slice(), wanted.as_slice());
    Ok(())
}

#[test]
fn the_relocations_of_calls(rt: HostRuntime) -> Result<(), NoMemory> {
    let place = placed(rt.alloc())?;
    let names = [3, 5, 7];
    let numbers = NamePlaces::new(rt.alloc(), names.as_slice())?;
    let table = rela_plt_table(rt.alloc(), &numbers, &place)?;
    let wanted: [u8; 48] = [
        0x98, 0x31, 0x40, 0, 0, 0, 0, 0, 7, 0, 0, 0, 3, 0, 0, 0, 0, 0, 0, 0, 0, 0, 0, 0, 0xa0,
        0x31, 0x40, 0, 0, 0, 0, 0, 7, 0, 0, 0, 1, 0, 0, 0, 0, 0, 0, 0, 0, 0, 0, 0,
    ];
    assert_eq!(rt; table.as_slice(), wanted.as_slice());
    Ok(())
}
