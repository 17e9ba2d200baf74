//! The relocations of a section of an object (gABI "Relocation", sh_info), read where their entries are.

ghost use Rattle.std.specs.Prelude.{◌≡◌, ◌+◌, ◌*◌, ◌<◌, ◌≤◌, ◌++◌, [], drop, length, slice_index_or, take, IfOk, OnOk};
ghost use Rattle.lk_obj_read.specs.RelaLists.{AreThere, count_of, entries_of, packed, relas_at};

use lk_elf::Rela;
use lk_elf::numbers::RELA_SIZE;
use lk_obj_parts::rela_at;
use lk_report::{Bytes, NoMemory};
use std::alloc::Global;
use std::marker::Model;
use std::mem;

/// Where the entries of a list are, 24 bytes each, one after another.
#[derive(Drop)]
enum Entries {
    /// In a file, from the byte `start` on.
    InFile {
        file: Bytes,
        start: usize,
        count: usize,
    },
    /// In a copy, which has those of several sections.
    Joined {
        bytes: Vec<u8>,
        count: usize,
    },
}

/// Relocations of one section, by the section that holds them and entry (gABI "Relocation"). Those of one section
/// share the bytes of the file; an entry is read where it is asked for. Contracts see it as the list of relocations.
#[derive(Drop)]
pub struct RelaList {
    entries: Entries,
}

impl Model for RelaList {
    ghost use Rattle.std.specs.Prelude.{List};
    ghost use Rattle.lk_elf.specs.declared.relocation.Rela.{Rela};
    ghost use Rattle.lk_obj_read.specs.RelaLists.{AreThere, entries_of};

    ghost Value = { List Rela };

    ghost view = { λ l. entries_of l.entries };

    ghost invariant = { λ l. AreThere l.entries };
}

/// How many entries there are.
fn count_of(entries: &Entries) -> usize
    ensures { result ≡ count_of entries.now }
{
    match entries {
        Entries::InFile { count, .. } => *count,
        Entries::Joined { count, .. } => *count,
    }
}

/// The bytes of so many entries in a file.
fn part(file: &[u8], start: usize, count: usize) -> &[u8]
    requires { start + 24 * count ≤ length file.now }
    ensures { result.now ≡ take (24 * count) (drop start file.now) }
{
    &file[start..start + RELA_SIZE * count]
}

/// The bytes of entries by themselves; those of a file are copied.
fn packed(alloc: Global, entries: Entries) -> Result<Vec<u8>, NoMemory>
    requires { AreThere entries }
    ensures { IfOk result (λ bytes. bytes.items ≡ packed entries) }
{
    match entries {
        Entries::Joined { bytes, .. } => Ok(bytes),
        Entries::InFile { file, start, count } => {
            match Vec::from_slice(alloc, part(file.as_slice(), start, count)) {
                Ok(bytes) => Ok(bytes),
                Err(_) => Err(NoMemory),
            }
        }
    }
}

/// Entries with so many more of a file behind them.
#[tactic(auto, using(crate::proofs::RelaLists::joined, crate::proofs::RelaLists::joined_there))]
fn joined(
    alloc: Global,
    entries: Entries,
    file: &[u8],
    start: usize,
    count: usize,
) -> Result<Entries, NoMemory>
    requires there { AreThere entries }
    requires inside { start + 24 * count ≤ length file.now }
    ensures entries { IfOk result (λ all. entries_of all ≡ entries_of entries ++ relas_at file.now start count) }
    ensures there { IfOk result AreThere }
{
    let earlier = count_of(&entries);
    let mut bytes = packed(alloc, entries)?;
    if bytes.extend_from_slice(part(file, start, count)).is_err() {
        return Err(NoMemory);
    }
    Ok(Entries::Joined {
        bytes,
        count: earlier + count,
    })
}

impl RelaList {
    /// The list of no relocations. Takes no memory.
    pub(crate) fn none() -> Self
        ensures { result ≡ [] }
    {
        RelaList {
            entries: Entries::InFile {
                file: Bytes::empty(),
                start: 0,
                count: 0,
            },
        }
    }

    /// The number of relocations. Takes no memory.
    #[tactic(auto, using(crate::proofs::RelaLists::counted))]
    pub fn len(&self) -> usize
        ensures { result ≡ length self.now }
    {
        count_of(&self.entries)
    }

    /// The relocation at place `k`, from 0 on (gABI "Relocation", Elf64_Rela). Takes no memory.
    #[tactic(auto, using(crate::proofs::RelaLists::in_file, crate::proofs::RelaLists::counted))]
    pub fn at(&self, k: usize) -> Rela
        requires { k < length self.now }
        ensures { result ≡ slice_index_or self.now k result }
    {
        match &self.entries {
            Entries::InFile { file, start, .. } => {
                rela_at(file.as_slice(), *start + RELA_SIZE * k)
            }
            Entries::Joined { bytes, .. } => rela_at(bytes, RELA_SIZE * k),
        }
    }

    /// Puts so many entries of a file at the end, which begin at the byte `start`. The first section's share the bytes
    /// of the file; with a second section all are copied.
    pub(crate) fn add(
        &mut self,
        alloc: Global,
        file: &Bytes,
        start: usize,
        count: usize,
    ) -> Result<(), NoMemory>
        requires { 0 < count → start + 24 * count ≤ length file.now }
        ensures { OnOk result (self.new ≡ self.old ++ relas_at file.now start count) }
    {
        if count == 0 {
            return Ok(());
        }
        if count_of(&self.entries) == 0 {
            self.entries = Entries::InFile {
                file: file.copy(alloc)?,
                start,
                count,
            };
            return Ok(());
        }
        let RelaList { entries } = mem::replace(self, RelaList::none());
        self.entries = joined(alloc, entries, file.as_slice(), start, count)?;
        Ok(())
    }
}
