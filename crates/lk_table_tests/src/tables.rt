//! Two small links by hand: a static one of one object, and a dynamic one of an object and a library. The sizes
//! are counted by hand.

use crate::making::{added, both, only, resolved, resolver, symbols};
use lk_dyn_sizes::{SlotFill, TableSizeList, copied_names, slot_fills, table_sizes};
use lk_model::layouts::{
    Class, GotKey, GotKeyList, GotOwner, GotSlotList, Needs, SectionKey, SectionKeyList, SlotTable,
};
use lk_model::summaries::{Home, InputSummary, Kind, SummaryList};
use lk_report::{List, Name, NoMemory, OptionRecord};
use lk_resolve::Resolution;
use std::alloc::Global;

/// An input without sections and with these symbols.
fn input(
    alloc: Global,
    kind: Kind,
    soname: &[u8],
    rows: &[(&[u8], Home)],
) -> Result<InputSummary, NoMemory> {
    let globals = symbols(alloc, rows)?;
    Ok(InputSummary {
        kind,
        soname: Name::from_slice(alloc, soname)?,
        exec_stack: false,
        pieces: List::new(alloc),
        globals,
        groups: List::new(alloc),
    })
}

/// An object that defines `_start` and `hook`, and refers to `puts` and `environ`.
fn object(alloc: Global) -> Result<InputSummary, NoMemory> {
    let rows: [(&[u8], Home); 4] = [
        (b"_start", Home::Absolute),
        (b"puts", Home::Undefined),
        (b"environ", Home::Undefined),
        (b"hook", Home::Absolute),
    ];
    input(alloc, Kind::Object, b"", &rows)
}

/// A library that defines `puts` and `environ`, and refers to `hook`.
fn library(alloc: Global) -> Result<InputSummary, NoMemory> {
    let rows: [(&[u8], Home); 3] = [
        (b"puts", Home::Shared),
        (b"environ", Home::Shared),
        (b"hook", Home::Undefined),
    ];
    input(alloc, Kind::Shared, b"libc.so", &rows)
}

/// The object alone.
fn one(alloc: Global) -> Result<SummaryList, NoMemory> {
    only(alloc, object(alloc)?)
}

/// The object and the library.
fn two(alloc: Global) -> Result<SummaryList, NoMemory> {
    let object = object(alloc)?;
    let library = library(alloc)?;
    both(alloc, object, library)
}

/// The resolution of these inputs.
fn resolution(alloc: Global, inputs: &SummaryList) -> Result<Resolution, NoMemory> {
    resolved(added(resolver(alloc)?, inputs)?)
}

/// The slots of two names and of a LOCAL symbol.
fn slots(alloc: Global) -> Result<GotKeyList, NoMemory> {
    let mut slots = List::new(alloc);
    for owner in [
        GotOwner::Global(1),
        GotOwner::Global(2),
        GotOwner::Local {
            input: 0,
            symbol: 1,
        },
    ] {
        slots.push(GotKey {
            owner,
            thread: false,
        })?;
    }
    Ok(slots)
}

/// Slots of two names and of a LOCAL symbol, an entry of `puts`, and a copy of `environ`.
fn needs(alloc: Global) -> Result<Needs, NoMemory> {
    let got = slots(alloc)?;
    let plt = only(alloc, 1)?;
    let copies = only(alloc, 2)?;
    Ok(Needs {
        got,
        plt,
        address: List::new(alloc),
        copies,
    })
}

/// The run path `/lib`.
fn options(alloc: Global) -> Result<OptionRecord, NoMemory> {
    Ok(OptionRecord {
        entry: Name::from_slice(alloc, b"_start")?,
        interp: Name::empty(),
        runpath: Name::from_slice(alloc, b"/lib")?,
        patch: 0,
        export_dynamic: false,
        dynamic: false,
    })
}

/// An array of functions.
fn keys(alloc: Global) -> Result<SectionKeyList, NoMemory> {
    let name = Name::from_slice(alloc, b".init_array")?;
    only(
        alloc,
        SectionKey {
            name,
            class: Class::W,
        },
    )
}

/// The tables of a link with this resolution.
fn tables_of(
    alloc: Global,
    resolution: &Resolution,
    inputs: &SummaryList,
) -> Result<TableSizeList, NoMemory> {
    let needs = needs(alloc)?;
    let options = options(alloc)?;
    let keys = keys(alloc)?;
    table_sizes(alloc, resolution, inputs, &needs, &options, &keys)
}

/// The tables of a link of these inputs.
fn tables(alloc: Global, inputs: &SummaryList) -> Result<TableSizeList, NoMemory> {
    let resolution = resolution(alloc, inputs)?;
    tables_of(alloc, &resolution, inputs)
}

/// The sizes of the tables of a link of these inputs.
fn sizes(alloc: Global, inputs: &SummaryList) -> Result<List<u64>, NoMemory> {
    let tables = tables(alloc, inputs)?;
    let mut sizes = List::new(alloc);
    for table in tables.as_slice() {
        sizes.push(table.size)?;
    }
    Ok(sizes)
}

#[test]
fn a_static_link_has_two_tables(rt: HostRuntime) -> Result<(), NoMemory> {
    let sizes = sizes(rt.alloc(), &one(rt.alloc())?)?;
    assert_eq!(rt; sizes.as_slice(), [24, 32].as_slice());
    Ok(())
}

#[test]
fn a_dynamic_link_has_ten_tables(rt: HostRuntime) -> Result<(), NoMemory> {
    let sizes = sizes(rt.alloc(), &two(rt.alloc())?)?;
    let expected = [24, 32, 28, 28, 96, 32, 48, 24, 32, 288];
    assert_eq!(rt; sizes.as_slice(), expected.as_slice());
    Ok(())
}

/// The resolution of the object and the library.
fn dynamic(alloc: Global) -> Result<Resolution, NoMemory> {
    let inputs = two(alloc)?;
    resolution(alloc, &inputs)
}

/// A free slot, and those of `puts` and `environ`.
fn taken_slots(alloc: Global) -> Result<GotSlotList, NoMemory> {
    let mut got = List::new(alloc);
    got.push(None)?;
    for name in [1, 2] {
        let owner = GotOwner::Global(name);
        got.push(Some(GotKey {
            owner,
            thread: false,
        }))?;
    }
    Ok(got)
}

/// The tables of slots, of which that of the entries has none.
fn slot_table(alloc: Global) -> Result<SlotTable, NoMemory> {
    Ok(SlotTable {
        got: taken_slots(alloc)?,
        plt: List::new(alloc),
    })
}

/// The slots that the dynamic linker fills.
fn fills(alloc: Global, resolution: &Resolution) -> Result<List<SlotFill>, NoMemory> {
    let needs = needs(alloc)?;
    let table = slot_table(alloc)?;
    slot_fills(alloc, resolution, &needs, &table)
}

#[test]
fn the_slot_of_an_import_is_filled(rt: HostRuntime) -> Result<(), NoMemory> {
    let fills = fills(rt.alloc(), &dynamic(rt.alloc())?)?;
    let expected = [SlotFill {
        slot: 1,
        name: 1,
        code: 6,
    }];
    assert_eq!(rt; fills.as_slice(), expected.as_slice());
    Ok(())
}

#[test]
fn an_import_is_copied(rt: HostRuntime) -> Result<(), NoMemory> {
    let resolution = dynamic(rt.alloc())?;
    let copied = copied_names(rt.alloc(), &resolution, &needs(rt.alloc())?)?;
    assert_eq!(rt; copied.as_slice(), [2].as_slice());
    Ok(())
}
