//! What an image records of its link, so that a later link can update it.

ghost use Rattle.std.specs.Prelude.{◌≡◌, IfOk};

use crate::layouts::Placement;
use crate::summaries::InputSummary;
use lk_report::{Bytes, List, Name, NoMemory, OptionRecord, Stamp, TryCopy};
use std::alloc::Global;

/// A relocation of a kept piece through a symbol that is not LOCAL.
#[derive(Clone, Copy, PartialEq, Eq, Debug)]
pub struct Reference {
    /// The input's number.
    pub input: u32,
    /// The target section's number in it.
    pub section: u32,
    /// The field's offset in the section, in bytes.
    pub offset: u64,
    /// The relocation type.
    pub code: u32,
    /// The name's number.
    pub name: u32,
    pub addend: i64,
    /// Whether the symbol of the reference is WEAK.
    pub weak: bool,
}

/// An input as an image records it.
#[derive(PartialEq, Eq, Debug, Drop)]
pub struct InputRecord {
    pub path: Name,
    /// The number of earlier inputs with the same path.
    pub occurrence: u32,
    /// The number of its lib group from 1, or 0.
    pub lib: u32,
    /// Whether the link added it.
    pub added: bool,
    pub stamp: Option<Stamp>,
    pub summary: InputSummary,
}

/// A name as an image records it: the kind of its winner (0 none, 1 strong, 2 common, 3 weak,
/// 4 made, 5 import) and the winner's input.
#[derive(PartialEq, Eq, Debug, Drop)]
pub struct NameRow {
    pub name: Name,
    pub winner: u32,
    pub input: Option<u32>,
}

impl NameRow {
    /// An equal row.
    pub fn copy(&self, alloc: Global) -> Result<Self, NoMemory>
        ensures { IfOk result (λ c. c ≡ self.now) }
    {
        Ok(NameRow {
            name: self.name.copy(alloc)?,
            winner: self.winner,
            input: self.input,
        })
    }
}

impl TryCopy for NameRow {
    fn try_copy(&self, alloc: Global) -> Result<Self, NoMemory> {
        self.copy(alloc)
    }
}

/// All that an image records of its link.
#[derive(PartialEq, Eq, Debug, Drop)]
pub struct Records {
    pub version: u32,
    pub options: OptionRecord,
    pub inputs: InputRecordList,
    pub names: NameRowList,
    pub references: ReferenceList,
    pub placement: Placement,
}

/// The five record sections of an image.
#[derive(PartialEq, Eq, Debug, Drop)]
pub struct Five {
    /// The options, the output sections, and the inputs with their pieces, symbols and groups.
    pub inputs: Bytes,
    /// The names.
    pub symtab: Bytes,
    /// The references.
    pub relocs: Bytes,
    /// The GOT slots, the PLT entries, the commons and the copies.
    pub got_plt: Bytes,
    /// The texts of the other four.
    pub strtab: Bytes,
}

/// Why the five sections are not read as records.
#[derive(Clone, Copy, PartialEq, Eq, Debug)]
pub enum RecordFault {
    /// The first bad place: the section by its number from 0, and the offset in it.
    Bad { section: u32, offset: u64 },
    /// The records have another version.
    Version(u32),
    NoMemory,
}

/// References in adding order, by section and entry.
pub type ReferenceList = List<Reference>;
/// Inputs in command order.
pub type InputRecordList = List<InputRecord>;
/// Names in their order.
pub type NameRowList = List<NameRow>;
