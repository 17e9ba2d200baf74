//! Record sections whose bytes are known from outside: those of the smallest link from its image, those of
//! the mixed one put together by hand from the layout of the sections.

use crate::placements::{Row, SMALL_ROWS, placed};
use lk_incr::{
    InputsAndTexts, RecordParts, RecordedInput, RecordedInputs, TailPart, section_names, tail,
    write_inputs,
};
use lk_model::commands::Mark;
use lk_model::input_names::InputName;
use lk_model::layouts::{Class, PieceId, PieceRow, Placement, SectionKey};
use lk_model::summaries::{
    Global as Symbol, GlobalList, Group, GroupList, Home, InputSummary, Kind, NumberList,
    PieceInfo, PieceInfoList,
};
use lk_report::{List, Name, NoMemory, OptionRecord, Stamp};
use std::alloc::Global;

/// The record sections of the smallest link, whose image has 9,192 bytes.
static SMALL_INPUTS: [u8; 312] = [
    1, 0, 0, 0, 0, 0, 0, 0, 1, 0, 0, 0, 0, 0, 0, 0, 0, 0, 0, 0, 10, 0, 0, 0, 1, 0, 0, 0, 3, 0, 0,
    0, 8, 0, 0, 0, 1, 0, 0, 0, 0, 16, 64, 0, 0, 0, 0, 0, 0, 16, 0, 0, 0, 0, 0, 0, 64, 0, 0, 0, 0,
    0, 0, 0, 64, 0, 0, 0, 0, 0, 0, 0, 16, 0, 0, 0, 0, 0, 0, 0, 14, 0, 0, 0, 2, 0, 0, 0, 0, 32, 64,
    0, 0, 0, 0, 0, 0, 32, 0, 0, 0, 0, 0, 0, 0, 0, 0, 0, 0, 0, 0, 0, 64, 0, 0, 0, 0, 0, 0, 0, 16, 0,
    0, 0, 0, 0, 0, 0, 19, 0, 0, 0, 2, 0, 0, 0, 64, 32, 64, 0, 0, 0, 0, 0, 64, 32, 0, 0, 0, 0, 0, 0,
    24, 0, 0, 0, 0, 0, 0, 0, 64, 0, 0, 0, 0, 0, 0, 0, 16, 0, 0, 0, 0, 0, 0, 0, 28, 0, 0, 0, 0, 0,
    0, 0, 1, 0, 0, 0, 0, 0, 0, 0, 1, 0, 0, 0, 0, 0, 0, 0, 40, 2, 0, 0, 0, 0, 0, 0, 0, 0, 160, 216,
    133, 87, 52, 22, 1, 0, 0, 0, 1, 0, 0, 0, 0, 0, 0, 0, 0, 0, 0, 0, 1, 0, 0, 0, 0, 0, 0, 0, 0, 16,
    64, 0, 0, 0, 0, 0, 0, 0, 0, 0, 0, 0, 0, 0, 1, 0, 0, 0, 0, 0, 0, 0, 8, 0, 0, 0, 1, 0, 0, 0, 1,
    0, 0, 0, 1, 0, 0, 0, 1, 0, 0, 0, 1, 0, 0, 0, 0, 0, 0, 0, 0, 0, 0, 0, 0, 0, 0, 0, 0, 0, 0, 0, 1,
    0, 0, 0, 0, 0, 0, 0,
];

static SMALL_TEXTS: [u8; 32] = [
    0, 95, 115, 116, 97, 114, 116, 0, 46, 116, 101, 120, 116, 0, 46, 103, 111, 116, 0, 46, 103,
    111, 116, 46, 112, 108, 116, 0, 97, 46, 111, 0,
];

/// The names of its sections.
static SMALL_NAMES: [u8; 79] = [
    0, 46, 116, 101, 120, 116, 0, 46, 103, 111, 116, 0, 46, 103, 111, 116, 46, 112, 108, 116, 0,
    46, 103, 110, 117, 95, 105, 110, 99, 114, 101, 109, 101, 110, 116, 97, 108, 95, 105, 110, 112,
    117, 116, 115, 0, 46, 103, 110, 117, 95, 105, 110, 99, 114, 101, 109, 101, 110, 116, 97, 108,
    95, 115, 116, 114, 116, 97, 98, 0, 46, 115, 104, 115, 116, 114, 116, 97, 98, 0,
];

/// The record sections of a dynamic link of four inputs.
static MIXED_INPUTS: [u8; 864] = [
    1, 0, 0, 0, 3, 0, 0, 0, 1, 0, 0, 0, 6, 0, 0, 0, 17, 0, 0, 0, 0, 0, 0, 0, 4, 0, 0, 0, 3, 0, 0,
    0, 22, 0, 0, 0, 1, 0, 0, 0, 0, 16, 64, 0, 0, 0, 0, 0, 0, 16, 0, 0, 0, 0, 0, 0, 64, 0, 0, 0, 0,
    0, 0, 0, 128, 0, 0, 0, 0, 0, 0, 0, 16, 0, 0, 0, 0, 0, 0, 0, 28, 0, 0, 0, 2, 0, 0, 0, 0, 32, 64,
    0, 0, 0, 0, 0, 0, 32, 0, 0, 0, 0, 0, 0, 0, 0, 0, 0, 0, 0, 0, 0, 64, 0, 0, 0, 0, 0, 0, 0, 32, 0,
    0, 0, 0, 0, 0, 0, 28, 0, 0, 0, 7, 0, 0, 0, 0, 0, 0, 0, 0, 0, 0, 0, 64, 32, 0, 0, 0, 0, 0, 0, 3,
    0, 0, 0, 0, 0, 0, 0, 64, 0, 0, 0, 0, 0, 0, 0, 1, 0, 0, 0, 0, 0, 0, 0, 34, 0, 0, 0, 0, 0, 0, 0,
    1, 0, 0, 0, 0, 0, 0, 0, 0, 0, 0, 0, 0, 0, 0, 0, 0, 0, 0, 0, 0, 0, 0, 0, 0, 0, 0, 0, 0, 0, 0, 0,
    4, 0, 0, 0, 4, 0, 0, 0, 2, 0, 0, 0, 1, 0, 0, 0, 1, 0, 0, 0, 0, 0, 0, 0, 16, 16, 64, 0, 0, 0, 0,
    0, 16, 0, 0, 0, 0, 0, 0, 0, 16, 0, 0, 0, 0, 0, 0, 0, 38, 0, 0, 0, 1, 0, 0, 0, 3, 0, 0, 0, 255,
    255, 255, 255, 0, 0, 0, 0, 0, 0, 0, 0, 8, 0, 0, 0, 0, 0, 0, 0, 8, 0, 0, 0, 0, 0, 0, 0, 28, 0,
    0, 0, 0, 2, 0, 0, 4, 0, 0, 0, 1, 0, 0, 0, 24, 32, 64, 0, 0, 0, 0, 0, 0, 0, 0, 0, 0, 0, 0, 0, 4,
    0, 0, 0, 0, 0, 0, 0, 46, 0, 0, 0, 3, 0, 0, 0, 6, 0, 0, 0, 255, 255, 255, 255, 0, 0, 0, 0, 0, 0,
    0, 0, 0, 0, 0, 0, 0, 0, 0, 0, 1, 0, 0, 0, 0, 0, 0, 0, 56, 0, 0, 0, 2, 0, 0, 0, 61, 0, 0, 0, 1,
    2, 2, 0, 1, 0, 0, 0, 1, 0, 0, 0, 4, 0, 0, 0, 0, 0, 0, 0, 5, 0, 0, 0, 0, 0, 0, 0, 7, 0, 0, 0, 0,
    0, 0, 0, 63, 0, 0, 0, 2, 0, 0, 0, 0, 0, 0, 0, 0, 0, 0, 0, 0, 0, 0, 0, 0, 0, 0, 0, 0, 0, 0, 0,
    0, 0, 0, 0, 8, 0, 0, 0, 0, 0, 0, 0, 65, 0, 0, 0, 1, 1, 0, 0, 3, 0, 0, 0, 0, 0, 0, 0, 8, 0, 0,
    0, 0, 0, 0, 0, 24, 0, 0, 0, 0, 0, 0, 0, 9, 0, 0, 0, 0, 0, 0, 0, 67, 0, 0, 0, 1, 0, 0, 0, 2, 0,
    0, 0, 0, 0, 0, 0, 255, 255, 255, 255, 255, 255, 255, 255, 0, 0, 0, 0, 0, 0, 0, 0, 10, 0, 0, 0,
    0, 0, 0, 0, 61, 0, 0, 0, 2, 0, 0, 0, 1, 0, 0, 0, 4, 0, 0, 0, 69, 0, 0, 0, 0, 0, 0, 0, 73, 0, 0,
    0, 1, 0, 0, 0, 3, 0, 0, 0, 2, 0, 0, 0, 1, 0, 0, 0, 0, 0, 0, 0, 100, 0, 0, 0, 0, 0, 0, 0, 255,
    255, 255, 255, 255, 255, 255, 255, 0, 0, 0, 0, 1, 0, 0, 0, 0, 0, 0, 0, 0, 0, 0, 0, 61, 0, 0, 0,
    1, 2, 0, 0, 1, 0, 0, 0, 2, 0, 0, 0, 0, 0, 0, 0, 0, 0, 0, 0, 1, 0, 0, 0, 0, 0, 0, 0, 1, 0, 0, 0,
    0, 0, 0, 0, 73, 0, 0, 0, 2, 0, 0, 0, 2, 0, 0, 0, 2, 0, 0, 0, 1, 0, 0, 0, 0, 0, 0, 0, 7, 0, 0,
    0, 0, 0, 0, 0, 5, 0, 0, 0, 0, 0, 0, 0, 1, 0, 0, 0, 0, 0, 0, 0, 0, 0, 0, 0, 0, 0, 0, 0, 1, 0, 0,
    0, 0, 0, 0, 0, 80, 16, 64, 0, 0, 0, 0, 0, 1, 0, 0, 0, 0, 0, 0, 0, 1, 0, 0, 0, 0, 0, 0, 0, 38,
    0, 0, 0, 1, 0, 0, 0, 81, 0, 0, 0, 0, 0, 0, 0, 4, 0, 0, 0, 0, 0, 0, 0, 0, 0, 0, 0, 89, 0, 0, 0,
    0, 0, 0, 0, 0, 0, 0, 0, 0, 0, 0, 0, 0, 0, 0, 0, 0, 0, 0, 0, 1, 0, 0, 0, 0, 0, 0, 0, 0, 0, 0, 0,
    99, 0, 0, 0, 1, 2, 0, 0, 4, 0, 0, 0, 0, 0, 0, 0, 0, 0, 0, 0, 0, 0, 0, 0, 9, 0, 0, 0, 0, 0, 0,
    0, 3, 0, 0, 0, 0, 0, 0, 0,
];

static MIXED_TEXTS: [u8; 104] = [
    0, 109, 97, 105, 110, 0, 47, 108, 105, 98, 47, 108, 100, 46, 115, 111, 0, 47, 111, 112, 116, 0,
    46, 116, 101, 120, 116, 0, 46, 100, 97, 116, 97, 0, 97, 46, 111, 0, 46, 116, 101, 120, 116, 46,
    102, 0, 46, 101, 104, 95, 102, 114, 97, 109, 101, 0, 46, 101, 110, 100, 0, 102, 0, 120, 0, 99,
    0, 107, 0, 115, 105, 103, 0, 108, 105, 98, 47, 98, 46, 111, 0, 108, 105, 98, 99, 46, 115, 111,
    0, 108, 105, 98, 99, 46, 115, 111, 46, 54, 0, 112, 117, 116, 115, 0,
];

/// The names of its sections, of which two are equal.
static MIXED_NAMES: [u8; 71] = [
    0, 46, 116, 101, 120, 116, 0, 46, 100, 97, 116, 97, 0, 46, 103, 110, 117, 95, 105, 110, 99,
    114, 101, 109, 101, 110, 116, 97, 108, 95, 105, 110, 112, 117, 116, 115, 0, 46, 103, 110, 117,
    95, 105, 110, 99, 114, 101, 109, 101, 110, 116, 97, 108, 95, 115, 116, 114, 116, 97, 98, 0, 46,
    115, 104, 115, 116, 114, 116, 97, 98, 0,
];

/// A piece: its section, name, class, size and alignment, and whether it is a terminator.
type Piece = (u32, &'static [u8], Class, [u64; 2], bool);

fn piece(alloc: Global, row: &Piece) -> Result<PieceInfo, NoMemory> {
    let (section, text, class, [size, align], terminator) = *row;
    let name = Name::from_slice(alloc, text)?;
    Ok(PieceInfo {
        section,
        name,
        key: SectionKey {
            name: Name::empty(),
            class,
        },
        size,
        align,
        terminator,
    })
}

fn pieces(alloc: Global, rows: &[Piece]) -> Result<PieceInfoList, NoMemory> {
    let mut pieces = List::new(alloc);
    for row in rows {
        pieces.push(piece(alloc, row)?)?;
    }
    Ok(pieces)
}

/// A symbol: its number and name, its binding, type and visibility, its home, its value and size.
type Entry = (u32, &'static [u8], [u32; 3], Home, [u64; 2]);

fn symbol(alloc: Global, row: &Entry) -> Result<Symbol, NoMemory> {
    let (number, text, [binding, code, visibility], home, [value, size]) = *row;
    let name = Name::from_slice(alloc, text)?;
    Ok(Symbol {
        symbol: number,
        name,
        binding,
        code,
        visibility,
        home,
        value,
        size,
    })
}

fn symbols(alloc: Global, rows: &[Entry]) -> Result<GlobalList, NoMemory> {
    let mut symbols = List::new(alloc);
    for row in rows {
        symbols.push(symbol(alloc, row)?)?;
    }
    Ok(symbols)
}

/// A group: its signature and its members.
type Members = (&'static [u8], &'static [u32]);

fn numbers(alloc: Global, members: &[u32]) -> Result<NumberList, NoMemory> {
    let mut numbers = List::new(alloc);
    for member in members {
        numbers.push(*member)?;
    }
    Ok(numbers)
}

fn group(alloc: Global, row: &Members) -> Result<Group, NoMemory> {
    let signature = Name::from_slice(alloc, row.0)?;
    let members = numbers(alloc, row.1)?;
    Ok(Group { signature, members })
}

fn groups(alloc: Global, rows: &[Members]) -> Result<GroupList, NoMemory> {
    let mut groups = List::new(alloc);
    for row in rows {
        groups.push(group(alloc, row)?)?;
    }
    Ok(groups)
}

/// An input, and the numbers of its record.
#[derive(Clone, Copy)]
struct Input {
    path: &'static [u8],
    occurrence: u32,
    lib: u32,
    added: bool,
    stamp: Option<Stamp>,
    kind: Kind,
    soname: &'static [u8],
    exec_stack: bool,
    pieces: &'static [Piece],
    symbols: &'static [Entry],
    groups: &'static [Members],
}

/// An object outside a lib group, which was added, has no stamp, and has nothing.
const OBJECT: Input = Input {
    path: b"a.o",
    occurrence: 0,
    lib: 0,
    added: true,
    stamp: None,
    kind: Kind::Object,
    soname: b"",
    exec_stack: false,
    pieces: &[],
    symbols: &[],
    groups: &[],
};

fn summary(alloc: Global, input: &Input) -> Result<InputSummary, NoMemory> {
    let soname = Name::from_slice(alloc, input.soname)?;
    let pieces = pieces(alloc, input.pieces)?;
    let globals = symbols(alloc, input.symbols)?;
    let groups = groups(alloc, input.groups)?;
    Ok(InputSummary {
        kind: input.kind,
        soname,
        exec_stack: input.exec_stack,
        pieces,
        globals,
        groups,
    })
}

/// An input as it was read, and the numbers of its record.
#[derive(Drop)]
struct ReadInput {
    name: InputName,
    occurrence: u32,
    added: bool,
    summary: InputSummary,
}

fn read_input(alloc: Global, input: &Input) -> Result<ReadInput, NoMemory> {
    let path = Name::from_slice(alloc, input.path)?;
    let summary = summary(alloc, input)?;
    Ok(ReadInput {
        name: InputName {
            path,
            lib: input.lib,
            mark: Mark::Unknown,
            stamp: input.stamp,
        },
        occurrence: input.occurrence,
        added: input.added,
        summary,
    })
}

fn read_inputs(alloc: Global, all: &[Input]) -> Result<List<ReadInput>, NoMemory> {
    let mut inputs = List::new(alloc);
    for input in all {
        inputs.push(read_input(alloc, input)?)?;
    }
    Ok(inputs)
}

fn recorded<'a>(
    alloc: Global,
    inputs: &'a List<ReadInput>,
) -> Result<RecordedInputs<'a>, NoMemory> {
    let mut records = List::new(alloc);
    for input in inputs.as_slice() {
        records.push(RecordedInput::of(
            &input.name,
            input.occurrence,
            input.added,
            &input.summary,
        ))?;
    }
    Ok(records)
}

/// What a link is made of.
#[derive(Clone, Copy)]
struct Link {
    entry: &'static [u8],
    interp: &'static [u8],
    runpath: &'static [u8],
    patch: u32,
    dynamic: bool,
    inputs: &'static [Input],
    sections: &'static [Row],
    pieces: &'static [PieceRow],
}

fn options(alloc: Global, link: &Link) -> Result<OptionRecord, NoMemory> {
    let entry = Name::from_slice(alloc, link.entry)?;
    let interp = Name::from_slice(alloc, link.interp)?;
    let runpath = Name::from_slice(alloc, link.runpath)?;
    Ok(OptionRecord {
        entry,
        interp,
        runpath,
        patch: link.patch,
        export_dynamic: link.dynamic,
        dynamic: link.dynamic,
    })
}

/// What the records of a link borrow.
#[derive(Drop)]
struct ReadLink {
    options: OptionRecord,
    inputs: List<ReadInput>,
    placement: Placement,
}

fn read_link(alloc: Global, link: &Link) -> Result<ReadLink, NoMemory> {
    let options = options(alloc, link)?;
    let inputs = read_inputs(alloc, link.inputs)?;
    let placement = placed(alloc, link.sections, link.pieces)?;
    Ok(ReadLink {
        options,
        inputs,
        placement,
    })
}

/// The parts of the records of a link, of version 1.
fn parts<'a>(alloc: Global, link: &'a ReadLink) -> Result<RecordParts<'a>, NoMemory> {
    let inputs = recorded(alloc, &link.inputs)?;
    Ok(RecordParts::of(
        1,
        &link.options,
        link.options.dynamic,
        inputs,
        &link.placement,
    ))
}

/// The row of section 1 of input 0 at the start of the code.
const CODE: PieceRow = PieceRow {
    piece: PieceId::Section {
        input: 0,
        section: 1,
    },
    section: 0,
    addr: 0x401000,
    size: 0,
    align: 1,
};

/// The smallest link.
const SMALL: Link = Link {
    entry: b"_start",
    interp: b"",
    runpath: b"",
    patch: 10,
    dynamic: false,
    inputs: &[Input {
        stamp: Some(Stamp {
            length: 552,
            modified: 1600000000000000000,
        }),
        pieces: &[(1, b".text", Class::X, [0, 1], false)],
        symbols: &[(1, b"_start", [1, 0, 0], Home::Section(1), [0, 0])],
        ..OBJECT
    }],
    sections: &SMALL_ROWS,
    pieces: &[CODE],
};

/// Of the pieces of the first object two are kept, one of them a terminator, and two are not.
const MIXED_PIECES: [Piece; 4] = [
    (1, b".text.f", Class::X, [16, 16], false),
    (3, b".data", Class::W, [8, 8], false),
    (4, b".eh_frame", Class::R, [0, 4], true),
    (6, b".end", Class::R, [0, 1], true),
];

const MIXED_SYMBOLS: [Entry; 4] = [
    (7, b"f", [1, 2, 2], Home::Section(1), [4, 5]),
    (8, b"x", [2, 0, 0], Home::Undefined, [0, 0]),
    (9, b"c", [1, 1, 0], Home::Common, [8, 24]),
    (10, b"k", [1, 0, 0], Home::Absolute, [u64::MAX, 0]),
];

/// An object with groups that asks for an executable stack, a member of a lib group that was not added to
/// the link, one that was, and a shared object.
const MIXED_ALL: [Input; 4] = [
    Input {
        exec_stack: true,
        pieces: &MIXED_PIECES,
        symbols: &MIXED_SYMBOLS,
        groups: &[(b"f", &[1, 4]), (b"sig", &[])],
        ..OBJECT
    },
    Input {
        path: b"lib/b.o",
        occurrence: 1,
        lib: 2,
        added: false,
        stamp: Some(Stamp {
            length: 100,
            modified: -1,
        }),
        symbols: &[(1, b"f", [1, 2, 0], Home::Section(2), [0, 1])],
        ..OBJECT
    },
    Input {
        path: b"lib/b.o",
        occurrence: 2,
        lib: 2,
        stamp: Some(Stamp {
            length: 7,
            modified: 5,
        }),
        pieces: &[(1, b".text.f", Class::X, [1, 1], false)],
        ..OBJECT
    },
    Input {
        path: b"libc.so",
        kind: Kind::Shared,
        soname: b"libc.so.6",
        symbols: &[(3, b"puts", [1, 2, 0], Home::Shared, [0, 9])],
        ..OBJECT
    },
];

/// Two sections have the same name.
const MIXED_ROWS: [Row; 3] = [
    (b".text", Class::X, [0x401000, 0x1000, 64, 128, 16]),
    (b".data", Class::W, [0x402000, 0x2000, 0, 64, 32]),
    (b".data", Class::N, [0, 0x2040, 3, 64, 1]),
];

const COMMON: PieceRow = PieceRow {
    piece: PieceId::Common { name: 1 },
    section: 1,
    addr: 0x402000,
    size: 24,
    align: 8,
};

/// A dynamic link, in which one of the pieces has two rows.
const MIXED: Link = Link {
    entry: b"main",
    interp: b"/lib/ld.so",
    runpath: b"/opt",
    patch: 0,
    dynamic: true,
    inputs: &MIXED_ALL,
    sections: &MIXED_ROWS,
    pieces: &[
        PieceRow {
            addr: 0x401010,
            ..CODE
        },
        COMMON,
        PieceRow {
            section: 2,
            addr: 0x401020,
            ..CODE
        },
        PieceRow {
            piece: PieceId::Section {
                input: 0,
                section: 4,
            },
            section: 1,
            addr: 0x402018,
            ..CODE
        },
        PieceRow {
            piece: PieceId::Section {
                input: 2,
                section: 1,
            },
            addr: 0x401050,
            ..CODE
        },
    ],
};

/// The record sections of a link.
fn made(alloc: Global, link: &Link) -> Result<InputsAndTexts, NoMemory> {
    let link = read_link(alloc, link)?;
    let parts = parts(alloc, &link)?;
    write_inputs(alloc, &parts)
}

#[test]
fn the_smallest_link_has_its_records(rt: HostRuntime) -> Result<(), NoMemory> {
    let made = made(rt.alloc(), &SMALL)?;
    assert_eq!(rt; made.inputs.as_slice(), SMALL_INPUTS.as_slice());
    assert_eq!(rt; made.texts.as_slice(), SMALL_TEXTS.as_slice());
    Ok(())
}

#[test]
fn a_link_of_many_kinds_has_its_records(rt: HostRuntime) -> Result<(), NoMemory> {
    let made = made(rt.alloc(), &MIXED)?;
    assert_eq!(rt; made.inputs.as_slice(), MIXED_INPUTS.as_slice());
    assert_eq!(rt; made.texts.as_slice(), MIXED_TEXTS.as_slice());
    Ok(())
}

#[test]
fn equal_section_names_are_at_once(rt: HostRuntime) -> Result<(), NoMemory> {
    let place = placed(rt.alloc(), MIXED.sections, MIXED.pieces)?;
    let names = section_names(rt.alloc(), &place)?;
    assert_eq!(rt; names.as_slice(), MIXED_NAMES.as_slice());
    Ok(())
}

fn is_part(part: &TailPart, name: &[u8], bytes: &[u8]) -> bool {
    part.name() == name && part.bytes() == bytes
}

#[test]
fn the_tail_has_its_parts_in_order(rt: HostRuntime) -> Result<(), NoMemory> {
    let link = read_link(rt.alloc(), &SMALL)?;
    let parts = parts(rt.alloc(), &link)?;
    let tail = tail(rt.alloc(), &parts)?;
    let parts = tail.as_slice();
    assert_eq!(rt; parts.len(), 3);
    assert!(rt; is_part(&parts[0], b".gnu_incremental_inputs", &SMALL_INPUTS));
    assert!(rt; is_part(&parts[1], b".gnu_incremental_strtab", &SMALL_TEXTS));
    assert!(rt; is_part(&parts[2], b".shstrtab", &SMALL_NAMES));
    Ok(())
}
