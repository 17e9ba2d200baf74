//! Small links by hand: pieces one behind the other, the thread-local segment, zeros that no memory holds, and
//! sections of many kinds with the numbers of a linked image.

use lk_layout::full_layout;
use lk_model::layouts::{
    Class, LayoutFault, Needs, PieceId, PieceRow, Placement, SectionKey, SectionRow,
};
use lk_model::summaries::{
    Global as Symbol, GlobalList, Home, InputSummary, Kind, PieceInfo, PieceInfoList, SummaryList,
};
use lk_report::{LimitFault, LimitKind, List, Name, NameList, NoMemory, OptionRecord};
use lk_resolve::{Resolution, Resolver};
use std::alloc::Global;
use std::test::Fail;

/// An input section: its name, its output section and class, its size and its alignment.
type Asked = (&'static [u8], &'static [u8], Class, u64, u64);

/// A section with a number.
fn piece(alloc: Global, section: u32, asked: &Asked) -> Result<PieceInfo, NoMemory> {
    let key = SectionKey {
        name: Name::from_slice(alloc, asked.1)?,
        class: asked.2,
    };
    Ok(PieceInfo {
        section,
        name: Name::from_slice(alloc, asked.0)?,
        key,
        size: asked.3,
        align: asked.4,
        terminator: false,
    })
}

/// Sections by rising number.
fn pieces(alloc: Global, asked: &[Asked]) -> Result<PieceInfoList, NoMemory> {
    let mut all = List::new(alloc);
    let mut section = 0u32;
    for one in asked {
        section = section.saturating_add(1);
        all.push(piece(alloc, section, one)?)?;
    }
    Ok(all)
}

/// A strong symbol.
fn symbol(
    alloc: Global,
    number: u32,
    name: &[u8],
    home: Home,
    value: u64,
    size: u64,
) -> Result<Symbol, NoMemory> {
    Ok(Symbol {
        symbol: number,
        name: Name::from_slice(alloc, name)?,
        binding: 1,
        code: 1,
        visibility: 0,
        home,
        value,
        size,
    })
}

/// An object with these sections and symbols.
fn object(alloc: Global, asked: &[Asked], globals: GlobalList) -> Result<InputSummary, NoMemory> {
    Ok(InputSummary {
        kind: Kind::Object,
        soname: Name::empty(),
        exec_stack: false,
        pieces: pieces(alloc, asked)?,
        globals,
        groups: List::new(alloc),
    })
}

/// The entry symbol.
fn entry(alloc: Global) -> Result<GlobalList, NoMemory> {
    let mut globals = List::new(alloc);
    globals.push(symbol(alloc, 1, b"_start", Home::Absolute, 0, 0)?)?;
    Ok(globals)
}

/// What is resolved of objects, added in their order.
fn resolved(alloc: Global, objects: &SummaryList) -> Result<Resolution, NoMemory> {
    let entry = Name::from_slice(alloc, b"_start")?;
    let mut resolver = Resolver::new(alloc, &entry)?;
    let mut number = 0u32;
    for object in objects.as_slice() {
        resolver.add_input(number, object)?;
        number = number.saturating_add(1);
    }
    match resolver.settle() {
        Ok(resolution) => Ok(resolution),
        Err(_) => Err(NoMemory),
    }
}

/// The options of a command that gives none.
fn options(alloc: Global, patch: u32) -> Result<OptionRecord, NoMemory> {
    Ok(OptionRecord {
        entry: Name::from_slice(alloc, b"_start")?,
        interp: Name::empty(),
        runpath: Name::empty(),
        patch,
        export_dynamic: false,
        dynamic: false,
    })
}

/// The placement of objects whose references need nothing.
fn laid_out(
    alloc: Global,
    patch: u32,
    objects: &SummaryList,
) -> Result<Result<Placement, LayoutFault>, NoMemory> {
    let needs = Needs {
        got: List::new(alloc),
        plt: List::new(alloc),
        address: List::new(alloc),
        copies: List::new(alloc),
    };
    let resolution = resolved(alloc, objects)?;
    let options = options(alloc, patch)?;
    Ok(full_layout(alloc, &resolution, objects, &needs, &options))
}

/// The placement of one object with these sections.
fn one_placed(alloc: Global, asked: &[Asked]) -> Result<Result<Placement, LayoutFault>, NoMemory> {
    let mut objects = List::new(alloc);
    objects.push(object(alloc, asked, entry(alloc)?)?)?;
    laid_out(alloc, 10, &objects)
}

/// A row as its header has it: its name; its address, its offset in the file, its size and its alignment.
type ExpectedRow = (&'static [u8], [u64; 4]);

/// Whether a row has this name and these numbers.
fn is_row(row: &SectionRow, reported: &ExpectedRow) -> bool {
    let numbers = [row.addr, row.offset, row.size, row.align];
    row.key.name.as_slice() == reported.0 && numbers == reported.1
}

/// Whether rows have these names and numbers.
fn are_rows(rows: &[SectionRow], all: &[ExpectedRow]) -> bool {
    rows.len() == all.len()
        && rows
            .iter()
            .zip(all)
            .all(|(row, reported)| is_row(row, reported))
}

/// The row of a section of an input.
fn placed(input: u32, section: u32, row: u32, addr: u64, size: u64, align: u64) -> PieceRow {
    PieceRow {
        piece: PieceId::Section { input, section },
        section: row,
        addr,
        size,
        align,
    }
}

/// Two objects with code of 16 bytes each.
fn two_codes(alloc: Global) -> Result<SummaryList, NoMemory> {
    let code: [Asked; 1] = [(b".text", b".text", Class::X, 16, 16)];
    let mut objects = List::new(alloc);
    objects.push(object(alloc, &code, entry(alloc)?)?)?;
    objects.push(object(alloc, &code, List::new(alloc))?)?;
    Ok(objects)
}

#[test]
fn code_of_two_objects_is_at_one_behind_the_other(rt: HostRuntime) -> Result<(), Fail> {
    let objects = two_codes(rt.alloc())?;
    let place = laid_out(rt.alloc(), 10, &objects)??;
    let wanted = [
        placed(0, 1, 0, 0x401000, 16, 16),
        placed(1, 1, 0, 0x401010, 16, 16),
    ];
    assert_eq!(rt; place.pieces.as_slice(), wanted.as_slice());
    Ok(())
}

#[test]
fn thread_local_zeros_take_no_addresses(rt: HostRuntime) -> Result<(), Fail> {
    let asked: [Asked; 4] = [
        (b".text", b".text", Class::X, 0, 1),
        (b".tbss", b".tbss", Class::Tbss, 100, 128),
        (b".tdata", b".tdata", Class::Tdata, 8, 16),
        (b".mine", b".mine", Class::W, 8, 16),
    ];
    let place = one_placed(rt.alloc(), &asked)??;
    let reported: [ExpectedRow; 6] = [
        (b".text", [0x401000, 0x1000, 64, 16]),
        (b".tdata", [0x402000, 0x2000, 64, 16]),
        (b".tbss", [0x402080, 0x2080, 128, 128]),
        (b".mine", [0x402040, 0x2040, 8, 16]),
        (b".got", [0x402080, 0x2080, 0, 16]),
        (b".got.plt", [0x4020c0, 0x20c0, 24, 16]),
    ];
    assert!(rt; are_rows(place.sections.as_slice(), &reported));
    Ok(())
}

#[test]
fn zeros_that_no_memory_holds_are_reported_with_their_number(rt: HostRuntime) -> Result<(), Fail> {
    let asked: [Asked; 2] = [
        (b".text", b".text", Class::X, 0, 1),
        (b".bss", b".bss", Class::Bss, 0x8000_0000_0000_0000, 1),
    ];
    let reported = LayoutFault::Limit(LimitFault {
        which: LimitKind::Memory,
        number: 10145709240540261760,
    });
    match one_placed(rt.alloc(), &asked)? {
        Ok(_) => assert!(rt; false),
        Err(fault) => assert_eq!(rt; fault, reported),
    }
    Ok(())
}

/// Puts a common block of this alignment and size at the end.
fn add_common(
    alloc: Global,
    globals: &mut GlobalList,
    number: u32,
    name: &[u8],
    align: u64,
    size: u64,
) -> Result<(), NoMemory> {
    globals.push(symbol(alloc, number, name, Home::Common, align, size)?)
}

/// The first of two objects with sections of many kinds.
fn first_of_many_kinds(alloc: Global) -> Result<InputSummary, NoMemory> {
    let asked: [Asked; 9] = [
        (b".text", b".text", Class::X, 200, 16),
        (b".eh_frame", b".eh_frame", Class::R, 16, 8),
        (b".debug_info", b".debug_info", Class::N, 20, 1),
        (b".data", b".data", Class::W, 8, 8),
        (b".tdata", b".tdata", Class::Tdata, 4, 8),
        (b".wx", b".wx", Class::WX, 64, 2),
        (b".text.grp0", b".text", Class::X, 24, 1),
        (b".text.grp1", b".text", Class::X, 16, 16),
        (b".data.grp1", b".data", Class::W, 8, 8),
    ];
    let mut globals = entry(alloc)?;
    add_common(alloc, &mut globals, 2, b"com0", 64, 0)?;
    add_common(alloc, &mut globals, 3, b"com1", 4, 0)?;
    object(alloc, &asked, globals)
}

/// The second of them.
fn second_of_many_kinds(alloc: Global) -> Result<InputSummary, NoMemory> {
    let asked: [Asked; 7] = [
        (b".text", b".text", Class::X, 0, 32),
        (b".eh_frame", b".eh_frame", Class::R, 8, 4),
        (b".debug_info", b".debug_info", Class::N, 11, 1),
        (b".data", b".data", Class::W, 24, 8),
        (b".tdata", b".tdata", Class::Tdata, 24, 4),
        (b".fini", b".fini", Class::X, 16, 16),
        (b".text.grp2", b".text", Class::X, 24, 16),
    ];
    let mut globals = List::new(alloc);
    add_common(alloc, &mut globals, 1, b"com0", 2, 30)?;
    add_common(alloc, &mut globals, 2, b"com2", 16, 1)?;
    object(alloc, &asked, globals)
}

/// Both of them.
fn many_kinds(alloc: Global) -> Result<SummaryList, NoMemory> {
    let mut objects = List::new(alloc);
    objects.push(first_of_many_kinds(alloc)?)?;
    objects.push(second_of_many_kinds(alloc)?)?;
    Ok(objects)
}

#[test]
fn sections_of_many_kinds_are_at_as_in_a_linked_image(rt: HostRuntime) -> Result<(), Fail> {
    let objects = many_kinds(rt.alloc())?;
    let place = laid_out(rt.alloc(), 10, &objects)??;
    let reported: [ExpectedRow; 10] = [
        (b".eh_frame", [0x401000, 0x1000, 0x40, 16]),
        (b".text", [0x402000, 0x2000, 0x140, 32]),
        (b".fini", [0x402140, 0x2140, 0x10, 16]),
        (b".tdata", [0x403000, 0x3000, 0x40, 16]),
        (b".wx", [0x403040, 0x3040, 0x40, 16]),
        (b".got", [0x4030c0, 0x30c0, 0, 16]),
        (b".got.plt", [0x403100, 0x3100, 0x18, 16]),
        (b".data", [0x403140, 0x3140, 0x40, 16]),
        (b".bss", [0x403180, 0x3180, 0x40, 64]),
        (b".debug_info", [0, 0x3180, 0x40, 16]),
    ];
    assert!(rt; are_rows(place.sections.as_slice(), &reported));
    Ok(())
}

/// An object with thread-local zeros alone.
fn zeros_of_threads(alloc: Global) -> Result<InputSummary, NoMemory> {
    let asked: [Asked; 1] = [(b".tbss.y", b".tbss", Class::Tbss, 12, 16)];
    object(alloc, &asked, List::new(alloc))
}

/// The objects with sections of many kinds, and that one: a section of every class.
fn every_class(alloc: Global) -> Result<SummaryList, NoMemory> {
    let mut objects = many_kinds(alloc)?;
    objects.push(zeros_of_threads(alloc)?)?;
    Ok(objects)
}

/// The numbers of two images that this linker did not make, as `readelf -SW` prints them. One is of the objects with
/// sections of many kinds: all rows but that of `.tbss` have its numbers, since thread-local zeros take no addresses.
/// The other has `.tbss.y` of 12 bytes at 16 in it, as the only thread-local zeros: there `.tbss` has the alignment
/// 16 and 0x40 bytes, and is at the end of `.tdata` (there at 0x403000 with 0x80 bytes, and `.tbss` at 0x403080;
/// here `.tdata` has 0x40), and the next section has the same address again.
const EVERY_CLASS: [ExpectedRow; 11] = [
    (b".eh_frame", [0x401000, 0x1000, 0x40, 16]),
    (b".text", [0x402000, 0x2000, 0x140, 32]),
    (b".fini", [0x402140, 0x2140, 0x10, 16]),
    (b".tdata", [0x403000, 0x3000, 0x40, 16]),
    (b".tbss", [0x403040, 0x3040, 0x40, 16]),
    (b".wx", [0x403040, 0x3040, 0x40, 16]),
    (b".got", [0x4030c0, 0x30c0, 0, 16]),
    (b".got.plt", [0x403100, 0x3100, 0x18, 16]),
    (b".data", [0x403140, 0x3140, 0x40, 16]),
    (b".bss", [0x403180, 0x3180, 0x40, 64]),
    (b".debug_info", [0, 0x3180, 0x40, 16]),
];

#[test]
fn a_section_of_every_class_is_at_as_in_linked_images(rt: HostRuntime) -> Result<(), Fail> {
    let objects = every_class(rt.alloc())?;
    let place = laid_out(rt.alloc(), 10, &objects)??;
    assert!(rt; are_rows(place.sections.as_slice(), &EVERY_CLASS));
    Ok(())
}

#[test]
fn functions_of_an_array_are_at_by_their_numbers(rt: HostRuntime) -> Result<(), Fail> {
    let asked: [Asked; 4] = [
        (b".init_array", b".init_array", Class::W, 8, 8),
        (b".init_array.200", b".init_array", Class::W, 8, 8),
        (b".init_array.00100", b".init_array", Class::W, 16, 8),
        (b".init_array.100", b".init_array", Class::W, 8, 8),
    ];
    let place = one_placed(rt.alloc(), &asked)??;
    let wanted = [
        placed(0, 1, 0, 0x401020, 8, 8),
        placed(0, 2, 0, 0x401018, 8, 8),
        placed(0, 3, 0, 0x401000, 16, 8),
        placed(0, 4, 0, 0x401010, 8, 8),
    ];
    assert_eq!(rt; place.pieces.as_slice(), wanted.as_slice());
    Ok(())
}

/// An object with so many sections of code.
fn much_code(alloc: Global, count: u32) -> Result<SummaryList, NoMemory> {
    let asked: Asked = (b".text.f", b".text", Class::X, 16, 16);
    let mut pieces = List::new(alloc);
    for section in 0..count {
        pieces.push(piece(alloc, section, &asked)?)?;
    }
    let mut one = object(alloc, &[], entry(alloc)?)?;
    one.pieces = pieces;
    let mut objects = List::new(alloc);
    objects.push(one)?;
    Ok(objects)
}

#[test]
fn twenty_thousand_sections_are_placed(rt: HostRuntime) -> Result<(), Fail> {
    let objects = much_code(rt.alloc(), 20_000)?;
    let place = laid_out(rt.alloc(), 10, &objects)??;
    let last = placed(0, 19_999, 0, 0x401000 + 19_999 * 16, 16, 16);
    assert!(rt; place.pieces.as_slice().last() == Some(&last));
    Ok(())
}
