//! The faults of a command and of its inputs, each with the place that has it.

use crate::lists::List;
use crate::names::Name;

/// Why the words are no command. The number is that of the word, from 1.
#[derive(Clone, Copy, PartialEq, Eq, Debug)]
pub enum UsageFault {
    /// A word that means nothing.
    UnknownWord(u32),
    /// An option whose value is empty or missing.
    MissingValue(u32),
    /// A value that is no number of the stated range.
    BadNumber(u32),
    /// A lib group that is not ended; the number of its `--start-lib`.
    OpenLib(u32),
    /// A lib group inside a lib group.
    NestedLib(u32),
    /// An end of a lib group where none is open.
    NoLibOpen(u32),
    /// A second output.
    TwoOutputs(u32),
    /// No input is named.
    NoInput,
}

/// A fault of the link.
#[derive(PartialEq, Eq, Debug, Drop)]
pub enum Fault {
    /// An input that is not there.
    Missing {
        path: Name,
    },
    /// An input that is malformed or of a form that is refused.
    Input {
        path: Name,
        fault: InputFault,
    },
    /// A second strong definition of a name; the paths of the first and of this one.
    MultipleDefinition {
        name: Name,
        first: Name,
        second: Name,
    },
    /// A name that is thread-local in one place and not in another.
    TlsMismatch {
        name: Name,
    },
    /// The entry name has no definition in an object.
    NoEntry {
        name: Name,
    },
    /// A reference to a name that nothing defines.
    Undefined {
        name: Name,
        site: Site,
    },
    /// A reference through a local symbol of a section that is not linked.
    DroppedLocal {
        site: Site,
    },
    /// A relocation type, or a use of one, that is not supported.
    Unsupported {
        code: u32,
        site: Site,
    },
    /// A copy relocation of an object of size 0.
    CopyOfZero {
        name: Name,
        site: Site,
    },
    /// A direct thread-local reference to an import.
    ImportedTlsDirect {
        name: Name,
        site: Site,
    },
    /// A value that does not fit its field: place, symbol, addend and value.
    Overflow {
        site: Site,
        p: u64,
        s: u64,
        a: i64,
        value: u64,
    },
}

/// The place of a relocation: an input's path, the section's number in it and the offset in bytes.
#[derive(PartialEq, Eq, Debug, Drop)]
pub struct Site {
    pub path: Name,
    pub section: u32,
    pub offset: u64,
}

/// Why a file is no input. A number is that of the section, symbol, or section and entry.
#[derive(Clone, Copy, PartialEq, Eq, Debug)]
pub enum InputFault {
    /// An archive.
    Archive,
    /// A text file.
    Script,
    /// No ELF file.
    NotElf,
    /// Another class, byte order or version.
    WrongClass,
    /// Another machine.
    WrongMachine,
    /// Another type of file.
    WrongType,
    /// A table that does not fit or has a bad shape; its section, 0 for the section table.
    BadTable(u32),
    /// A name that does not end inside its string section.
    BadName(u32),
    /// A malformed symbol.
    BadSymbol(u32),
    /// A malformed relocation: its section and entry.
    BadRela(u32, u32),
    /// A malformed section group.
    BadGroup(u32),
    /// A compressed section.
    Compressed(u32),
    /// A section of a kind that is refused.
    UnsupportedSection(u32),
    /// An allocated section of an unknown type.
    UnknownAlloc(u32),
    /// A symbol of a kind that is refused.
    UnsupportedSymbol(u32),
    /// A shared object without dynamic symbols or dynamic section.
    NoDynamic,
}

/// Faults in the order of the work.
pub type FaultList = List<Fault>;
