//! A link of five objects, each of which is broken in ten ways: its fault is reported, and the output stays as it was.
//!
//! The objects have one form: 16 bytes of code at 64, one relocation at 80, three symbols at 104, and six section
//! headers at the end, so that each way is a byte at a place.

use crate::making::{caller, changed, cut, undefined};
use crate::running::{Ended, link};
use lk_outside::MemoryFiles;
use lk_report::Bytes;
use std::alloc::Global;
use std::test::Fail;

/// A byte of a file that is changed.
#[derive(Clone, Copy)]
struct Break {
    /// Where it is: its place, or how far it is from the end.
    at: Part,
    /// What is there then.
    byte: u8,
    /// The fault that the file has then.
    fault: &'static [u8],
}

/// A place in a file.
#[derive(Clone, Copy)]
enum Part {
    /// So many bytes from its beginning.
    FromStart(usize),
    /// So many bytes before its end.
    BeforeEnd(usize),
}

/// The ways: of the file's header the magic number, the class, the machine, the type and the number of section
/// headers; of the first symbol the section and the type; the symbol of the relocation; of the code's section the
/// flags and the alignment.
const WAYS: [Break; 10] = [
    Break {
        at: Part::FromStart(1),
        byte: 0,
        fault: b"NotElf",
    },
    Break {
        at: Part::FromStart(4),
        byte: 1,
        fault: b"WrongClass",
    },
    Break {
        at: Part::FromStart(18),
        byte: 40,
        fault: b"WrongMachine",
    },
    Break {
        at: Part::FromStart(16),
        byte: 2,
        fault: b"WrongType",
    },
    Break {
        at: Part::FromStart(60),
        byte: 7,
        fault: b"BadTable 0",
    },
    Break {
        at: Part::FromStart(134),
        byte: 9,
        fault: b"BadSymbol 1",
    },
    Break {
        at: Part::FromStart(132),
        byte: 0x1a,
        fault: b"UnsupportedSymbol 1",
    },
    Break {
        at: Part::FromStart(92),
        byte: 3,
        fault: b"BadRela 2 0",
    },
    Break {
        at: Part::BeforeEnd(311),
        byte: 8,
        fault: b"Compressed 1",
    },
    Break {
        at: Part::BeforeEnd(272),
        byte: 3,
        fault: b"BadTable 1",
    },
];

/// The five paths.
const PATHS: [&str; 5] = ["a.o", "b.o", "c.o", "d.o", "e.o"];

/// The functions, of which each calls the next, and the last the first.
const NAMES: [&[u8]; 5] = [b"_start", b"f", b"g", b"h", b"i"];

/// The object of a number.
fn object_of(alloc: Global, number: usize) -> Result<Bytes, Fail> {
    let name = NAMES.get(number).copied().ok_or("no name")?;
    let next = NAMES
        .get(number.wrapping_add(1))
        .copied()
        .unwrap_or(b"_start");
    caller(alloc, b"0123456789abcdef", name, undefined(next))
}

/// The file broken in this way.
fn broken(alloc: Global, file: &Bytes, way: &Break) -> Result<Bytes, Fail> {
    let at = match way.at {
        Part::FromStart(at) => at,
        Part::BeforeEnd(at) => file.as_slice().len().saturating_sub(at),
    };
    changed(alloc, file, at, way.byte)
}

/// The five files.
fn five_files(alloc: Global) -> Result<MemoryFiles, Fail> {
    let mut files = MemoryFiles::new(alloc);
    for (number, path) in PATHS.iter().enumerate() {
        files.put(path, object_of(alloc, number)?, None)?;
    }
    Ok(files)
}

/// What the link does with another file at a path.
fn link_with(alloc: Global, path: &str, file: Bytes) -> Result<Ended, Fail> {
    let mut files = five_files(alloc)?;
    files.put(path, file, None)?;
    link(alloc, "-o out a.o b.o c.o d.o e.o", &mut files)
}

/// The text of a fault of an input.
fn reported(alloc: Global, path: &str, fault: &[u8]) -> Result<Vec<u8>, Fail> {
    let mut text = Vec::from_slice(alloc, b"error: ")?;
    text.extend_from_slice(path.as_bytes())?;
    text.extend_from_slice(b": ")?;
    text.extend_from_slice(fault)?;
    text.push(10)?;
    Ok(text)
}

/// Whether the link with the file of this number broken in this way reports it.
fn is_reported(alloc: Global, number: usize, path: &str, way: &Break) -> Result<bool, Fail> {
    let file = broken(alloc, &object_of(alloc, number)?, way)?;
    let ended = link_with(alloc, path, file)?;
    Ok(ended.refused(1, reported(alloc, path, way.fault)?.as_slice()))
}

/// Whether the link with the file of this number cut by a byte reports it.
fn is_cut_reported(alloc: Global, number: usize, path: &str) -> Result<bool, Fail> {
    let file = cut(alloc, &object_of(alloc, number)?)?;
    let ended = link_with(alloc, path, file)?;
    Ok(ended.refused(1, reported(alloc, path, b"BadTable 0")?.as_slice()))
}

#[test]
fn five_objects_are_linked(rt: HostRuntime) -> Result<(), Fail> {
    let whole = object_of(rt.alloc(), 0)?;
    let ended = link_with(rt.alloc(), "a.o", whole)?;
    assert!(rt; ended.is_done());
    assert!(rt; ended.holds(0x1040, b"01234\xb7\xff\xff\xff9"));
    Ok(())
}

#[test]
fn each_broken_input_is_reported(rt: HostRuntime) -> Result<(), Fail> {
    for (number, path) in PATHS.iter().enumerate() {
        for way in &WAYS {
            assert!(rt; is_reported(rt.alloc(), number, path, way)?);
        }
        assert!(rt; is_cut_reported(rt.alloc(), number, path)?);
    }
    Ok(())
}
