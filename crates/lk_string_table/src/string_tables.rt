//! A string table as a map from each text to its offset (gABI "String Table").

ghost use Rattle.std.specs.Prelude.{◌≡◌, ◌+◌, ◌<◌, ◌^◌, ◌≤◌, [], ◌∷◌, ◌++◌, length, slice_get, OnOk, IfOk, MatchOption, Some};
ghost use Rattle.lk_model.specs.Texts.{ended, offset_in, table_bytes, with_text};

use indexmap::IndexMap;
use lk_report::{Bytes, NoMemory};
use std::alloc::Global;
use std::marker::Model;

/// The distinct texts of a string table (gABI "String Table") in the order of first use, with the offset of each
/// in the table's bytes. Contracts see it as the list of the texts.
#[derive(Drop)]
pub struct StringTable<'a> {
    offsets: IndexMap<&'a [u8], u64>,
    /// The bytes of all texts, each with its closing zero.
    size: u64,
}

impl<'a> Model for StringTable<'a> {
    ghost use Rattle.std.specs.Prelude.{ℕ, List};
    ghost use Rattle.lk_string_table.specs.StringTables.{texts_in, IsStringTable};

    ghost Value = { List (List ℕ) };

    ghost view = { λ t. texts_in t.offsets.entries };

    ghost invariant = { λ t. IsStringTable t.offsets.entries t.size };
}

impl<'a> StringTable<'a> {
    /// A string table that begins with the empty text, at offset 0, with room for so many texts besides (gABI
    /// "String Table").
    ///
    /// # Errors
    /// Out of memory.
    pub fn new(alloc: Global, count: usize) -> Result<Self, NoMemory>
        ensures { IfOk result (λ table. table ≡ [] ∷ []) }
    {
        let mut table = StringTable::without_texts(alloc, count.saturating_add(1))?;
        table.note(b"")?;
        Ok(table)
    }

    /// A table of no text, with room for so many. It serves where each text counts once and no empty one comes
    /// first, as for the names of DT_NEEDED (gABI "Dynamic Section").
    ///
    /// # Errors
    /// Out of memory.
    pub fn without_texts(alloc: Global, count: usize) -> Result<Self, NoMemory>
        ensures { IfOk result (λ table. table ≡ []) }
    {
        let Ok(offsets) = IndexMap::with_capacity(alloc, count) else {
            return Err(NoMemory);
        };
        Ok(StringTable { offsets, size: 0 })
    }

    /// Notes a text. It goes last where the table does not have it yet.
    ///
    /// # Errors
    /// Out of memory. A table of 2^64 bytes, which no memory can have, is answered so too.
    pub fn note(&mut self, text: &'a [u8]) -> Result<(), NoMemory>
        ensures { OnOk result (self.new ≡ with_text self.old text.now) }
    {
        if self.offsets.contains_key(text) {
            return Ok(());
        }
        let Some(next) = end_after(self.size, text) else {
            return Err(NoMemory);
        };
        match self.offsets.insert(text, self.size) {
            Ok(_) => {
                self.size = next;
                Ok(())
            }
            Err(_) => Err(NoMemory),
        }
    }

    /// How many distinct texts there are.
    pub fn count(&self) -> usize
        ensures { result ≡ length self.now }
    {
        self.offsets.len()
    }

    /// A text by its number, from 0, in the order of first use.
    pub fn text(&self, number: usize) -> &'a [u8]
        requires { number < length self.now }
        ensures { slice_get self.now number ≡ Some result.now }
    {
        match self.offsets.get_index(number) {
            Some((text, _)) => *text,
            None => &[],
        }
    }

    /// The size of the table in bytes, the closing zeros included.
    pub fn size(&self) -> u64
        ensures { result ≡ length (table_bytes self.now) }
    {
        self.size
    }

    /// The offset of a text in the table's bytes; the size of the table for a text that it does not have.
    pub fn offset(&self, text: &[u8]) -> u64
        ensures { result ≡ offset_in self.now text.now }
    {
        match self.offsets.get(text) {
            Some(start) => *start,
            None => self.size,
        }
    }

    /// The table's bytes: each text with a closing zero byte (gABI "String Table").
    ///
    /// # Errors
    /// Out of memory.
    pub fn bytes(&self, alloc: Global) -> Result<Bytes, NoMemory>
        ensures { IfOk result (λ bytes. bytes ≡ table_bytes self.now) }
    {
        let Ok(mut out) = Vec::with_capacity(alloc, self.size as usize) else {
            return Err(NoMemory);
        };
        self.put(&mut out)?;
        Bytes::from_vec(out)
    }

    /// Puts the table's bytes at the end.
    #[tactic(auto, unfolding(lk_model::specs::Texts::table_bytes))]
    fn put(&self, out: &mut Vec<u8>) -> Result<(), NoMemory>
        ensures { OnOk result (out.new.items ≡ out.old.items ++ table_bytes self.now) }
    {
        for (text, _) in self.offsets.iter() {
            put_ended(out, *text)?;
        }
        Ok(())
    }
}

/// Where a text ends that begins at an offset, with its closing zero byte.
fn end_after(start: u64, text: &[u8]) -> Option<u64>
    ensures { MatchOption result (2 ^ 64 ≤ start + length text.now + 1) (λ n. n ≡ start + length text.now + 1) }
{
    start.checked_add(text.len() as u64)?.checked_add(1)
}

/// Puts bytes at the end.
fn put_bytes(out: &mut Vec<u8>, bytes: &[u8]) -> Result<(), NoMemory>
    ensures { OnOk result (out.new.items ≡ out.old.items ++ bytes.now) }
{
    match out.extend_from_slice(bytes) {
        Ok(()) => Ok(()),
        Err(_) => Err(NoMemory),
    }
}

/// Puts a text with its closing zero byte at the end.
fn put_ended(out: &mut Vec<u8>, text: &[u8]) -> Result<(), NoMemory>
    ensures { OnOk result (out.new.items ≡ out.old.items ++ ended text.now) }
{
    put_bytes(out, text)?;
    put_bytes(out, b"\0")
}
