//! Why an update cannot be made, and the options that an image records.

use crate::names::Name;

/// Why an update gives way to a full link. They are looked for in this order.
#[derive(PartialEq, Eq, Debug, Drop)]
pub enum Cause {
    /// The base is absent or too short to be an image.
    NoBase,
    /// The base was not sealed: its commit did not end.
    BaseOpen,
    /// The base is not read as an image with its records.
    NotIncremental,
    /// The records have another version.
    OtherVersion(u32),
    /// The options differ from those that the base records.
    OptionsChanged {
        before: OptionRecord,
        now: OptionRecord,
    },
    /// An output section that the base does not have.
    NewSection(Name),
    /// A piece asks for more alignment than its output section has.
    MoreAlign {
        section: Name,
        have: u64,
        need: u64,
    },
    /// No hole takes a piece.
    NoRoom {
        section: Name,
        size: u64,
        align: u64,
    },
    /// A hole is left that cannot be filled.
    SmallHole {
        section: Name,
        size: u64,
    },
    /// A table or a sequence section is longer than its room.
    NoTableRoom {
        section: Name,
        need: u64,
        reserved: u64,
    },
    /// A value does not fit its field: place, symbol, addend and value.
    UpdateOverflow {
        p: u64,
        s: u64,
        a: i64,
        value: u64,
    },
}

/// The options of a command that an image depends on.
#[derive(PartialEq, Eq, Debug, Drop)]
pub struct OptionRecord {
    /// The entry symbol's name.
    pub entry: Name,
    /// The interpreter's path; empty where no word gave it.
    pub interp: Name,
    /// The run path; empty where there is none.
    pub runpath: Name,
    /// Room for growth, in percent.
    pub patch: u32,
    /// Whether every definition is exported.
    pub export_dynamic: bool,
    /// Whether the link has a shared input.
    pub dynamic: bool,
}
