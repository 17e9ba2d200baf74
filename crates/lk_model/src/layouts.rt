//! Where everything is: output sections, pieces, slots, and the parts of a plan.

ghost use Rattle.std.specs.Prelude.{◌≡◌, IfOk};

use crate::records::ReferenceList;
use crate::summaries::NumberList;
use lk_report::{Cause, LimitFault, List, Name, NoMemory, TryCopy};
use std::alloc::Global;

/// What an output section holds, which decides its rights and its place.
#[derive(Clone, Copy, PartialEq, Eq, Debug)]
pub enum Class {
    /// Read only.
    R,
    /// Executable.
    X,
    /// Writable.
    W,
    /// Writable and executable.
    WX,
    /// Thread-local data with bytes in the file.
    Tdata,
    /// Thread-local data that begins as zeros.
    Tbss,
    /// Data that begins as zeros.
    Bss,
    /// Not loaded.
    N,
}

/// By what an output section is known.
#[derive(PartialEq, Eq, Debug, Drop)]
pub struct SectionKey {
    pub name: Name,
    pub class: Class,
}

impl SectionKey {
    /// An equal key.
    pub fn copy(&self, alloc: Global) -> Result<Self, NoMemory>
        ensures { IfOk result (λ c. c ≡ self.now) }
    {
        Ok(SectionKey {
            name: self.name.copy(alloc)?,
            class: self.class,
        })
    }
}

impl TryCopy for SectionKey {
    fn try_copy(&self, alloc: Global) -> Result<Self, NoMemory> {
        self.copy(alloc)
    }
}

/// What is placed in an output section. Names are numbered in their order.
#[derive(Clone, Copy, PartialEq, Eq, Debug)]
pub enum PieceId {
    /// An input section.
    Section { input: u32, section: u32 },
    /// The common block of a name.
    Common { name: u32 },
    /// The copy of an imported object.
    Copy { name: u32 },
}

/// Whose value or thread offset a GOT slot holds.
#[derive(Clone, Copy, PartialEq, Eq, Debug)]
pub enum GotOwner {
    /// A name.
    Global(u32),
    /// A LOCAL symbol of an input.
    Local { input: u32, symbol: u32 },
}

/// A GOT slot's owner, and whether it holds a thread offset.
#[derive(Clone, Copy, PartialEq, Eq, Debug)]
pub struct GotKey {
    pub owner: GotOwner,
    pub thread: bool,
}

/// What the references of a link need. Numbers are those of names.
#[derive(PartialEq, Eq, Debug, Drop)]
pub struct Needs {
    /// GOT slots, in order of their first reference.
    pub got: GotKeyList,
    /// PLT entries, in order of their first reference.
    pub plt: NumberList,
    /// Imports whose PLT entry is the function's address.
    pub address: NumberList,
    /// Imports that are copied.
    pub copies: NumberList,
}

/// A section's row. Addresses, offsets, sizes and alignments are in bytes.
#[derive(PartialEq, Eq, Debug, Drop)]
pub struct SectionRow {
    pub key: SectionKey,
    /// The address; 0 in class N and in the tail.
    pub addr: u64,
    /// The offset in the file.
    pub offset: u64,
    /// The size that its header has, in bytes (gABI "Section Header Table", `sh_size`).
    pub size: u64,
    /// The bytes that are reserved.
    pub room: u64,
    pub align: u64,
}

impl SectionRow {
    /// An equal row.
    pub fn copy(&self, alloc: Global) -> Result<Self, NoMemory>
        ensures { IfOk result (λ c. c ≡ self.now) }
    {
        Ok(SectionRow {
            key: self.key.copy(alloc)?,
            addr: self.addr,
            offset: self.offset,
            size: self.size,
            room: self.room,
            align: self.align,
        })
    }
}

impl TryCopy for SectionRow {
    fn try_copy(&self, alloc: Global) -> Result<Self, NoMemory> {
        self.copy(alloc)
    }
}

/// A placed piece.
#[derive(Clone, Copy, PartialEq, Eq, Debug)]
pub struct PieceRow {
    pub piece: PieceId,
    /// The number of its row among the section rows, from 0.
    pub section: u32,
    /// The address; in class N the offset in its section.
    pub addr: u64,
    pub size: u64,
    pub align: u64,
}

/// The GOT slots, free ones as `None`, and the names of the PLT entries.
#[derive(PartialEq, Eq, Debug, Drop)]
pub struct SlotTable {
    pub got: GotSlotList,
    pub plt: NumberList,
}

/// Where all sections, pieces and slots of an image are. Pieces of inputs come first, in adding
/// order and by section number, then commons and copies in order of names.
#[derive(PartialEq, Eq, Debug, Drop)]
pub struct Placement {
    pub sections: SectionRowList,
    pub pieces: PieceRowList,
    pub slots: SlotTable,
}

/// What the value of a relocation is made of (psABI, "Relocation Types"): symbol, addend, place, PLT
/// entry, GOT slot, GOT, size, and the thread-local block.
#[derive(Clone, Copy, PartialEq, Eq, Debug)]
pub struct Numbers {
    pub s: u64,
    pub a: i64,
    pub p: u64,
    pub l: u64,
    pub slot: u64,
    pub got: u64,
    pub z: u64,
    pub tls_start: u64,
    pub tls_end: u64,
}

/// What is in the holes of a section.
#[derive(Clone, Copy, PartialEq, Eq, Debug)]
pub enum FillKind {
    /// Zeros.
    Zero,
    /// Trapping instructions.
    Trap,
    /// A frame entry that describes nothing.
    Frame,
    /// A debug unit that is empty.
    Unit,
}

/// A free range of a room, in bytes from its start.
#[derive(Clone, Copy, PartialEq, Eq, Debug)]
pub struct Hole {
    pub start: u64,
    pub length: u64,
}

/// A range of the file, in bytes.
#[derive(Clone, Copy, PartialEq, Eq, Debug)]
pub struct Span {
    pub start: u64,
    pub length: u64,
}

/// What a link is to write: where everything is, the ranges, and the references whose fields
/// change.
#[derive(PartialEq, Eq, Debug, Drop)]
pub struct Plan {
    pub placement: Placement,
    pub spans: SpanList,
    pub rewrites: ReferenceList,
}

/// Why there is no placement.
#[derive(Clone, Copy, PartialEq, Eq, Debug)]
pub enum LayoutFault {
    Limit(LimitFault),
    NoMemory,
}

/// Why there is no plan of an update.
#[derive(PartialEq, Eq, Debug, Drop)]
pub enum PlanFault {
    Cause(Cause),
    NoMemory,
}

/// A run of loaded bytes with its rights (`PF_R`, `PF_W`, `PF_X`).
#[derive(PartialEq, Eq, Debug, Drop)]
pub struct Run {
    pub addr: u64,
    pub flags: u32,
    pub bytes: lk_report::Bytes,
}

/// The thread-local segment: where it begins, its bytes in the file and in memory, its alignment.
#[derive(Clone, Copy, PartialEq, Eq, Debug)]
pub struct TlsSegment {
    pub addr: u64,
    pub file: u64,
    pub memory: u64,
    pub align: u64,
}

/// GOT keys in order.
pub type GotKeyList = List<GotKey>;
/// GOT slots in order.
pub type GotSlotList = List<Option<GotKey>>;
/// Keys of sections in order.
pub type SectionKeyList = List<SectionKey>;
/// Section rows in order of the file.
pub type SectionRowList = List<SectionRow>;
/// Placed pieces in order.
pub type PieceRowList = List<PieceRow>;
/// Holes by rising start.
pub type HoleList = List<Hole>;
/// Spans by rising start.
pub type SpanList = List<Span>;
