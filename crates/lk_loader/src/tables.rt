//! The tables that DYNAMIC names by address (gABI "Dynamic Section", "Hash Table").

ghost use Rattle.std.specs.Prelude.{◌≡◌, ◌+◌, ◌^◌, ◌<◌, ◌≤◌, length, option_map, IfOk, IfSome};
ghost use Rattle.lk_elf.specs.Fields.{num};
ghost use Rattle.lk_model.specs.DynamicEntries.{counted_entries};
ghost use Rattle.lk_model.specs.InputsReading.{with_value};
ghost use Rattle.lk_model.specs.Loads.{hash_at, hash_size, named_by, segment_bytes, symbol_count, table_at};
ghost use Rattle.lk_loader.specs.NamedTables.{reported, said_by, tables_by};
ghost use Rattle.lk_loader.specs.Runs.{RiseFrom, run_memory};

use crate::dynamic_entries::{DynList, counted_entries, first_with_tag, named_size};
use crate::gathering::bytes_in_memory;
use crate::loads::Run;
use crate::parts::{Named, Tables};
use crate::records::{append_relas, loaded_symbols, needed_names};
use byteorder::{ByteOrder, LittleEndian};
use lk_elf::numbers::{
    DT_HASH, DT_JMPREL, DT_PLTRELSZ, DT_RELA, DT_RELASZ, DT_STRSZ, DT_STRTAB, DT_SYMTAB, SYM_SIZE,
};
use lk_elf::{Dyn, Phdr};
use lk_report::{Bytes, List, NoMemory};
use std::alloc::Global;

/// The bytes of a table; it is empty where its address is not named.
fn table_at(
    alloc: Global,
    runs: &[Run],
    address: Option<u64>,
    size: u64,
) -> Result<Option<Bytes>, NoMemory>
    requires rising { RiseFrom 0 runs.now }
    ensures { IfOk result (λ table. table ≡ table_at (run_memory runs.now) address size) }
{
    match address {
        None => Ok(Some(Bytes::empty())),
        Some(address) => bytes_in_memory(alloc, runs, address, size),
    }
}

/// The number in four bytes, the lowest first.
fn word_at(bytes: &[u8], at: usize) -> u32
    requires { at + 4 ≤ length bytes.now }
    ensures { result ≡ num bytes.now at 4 }
{
    LittleEndian::read_u32(&bytes[at..])
}

/// The size in bytes of a hash table that begins with these words (gABI "Hash Table").
fn hash_size(head: &[u8]) -> u64
    requires { 8 ≤ length head.now }
    ensures { result ≡ hash_size head.now }
{
    4 * (2 + u64::from(word_at(head, 0)) + u64::from(word_at(head, 4)))
}

/// How many symbols there are, by the hash table at this address, and 0 without one; none where a byte of
/// it is not loaded.
#[tactic(auto, using(crate::proofs::PartsNamed::no_hash))]
fn symbol_count(alloc: Global, runs: &[Run], address: Option<u64>) -> Result<Option<u64>, NoMemory>
    requires rising { RiseFrom 0 runs.now }
    ensures value { IfOk result (λ count. count ≡ option_map symbol_count (hash_at (run_memory runs.now) address)) }
    ensures small { IfOk result (λ count. IfSome count (λ n. n < 2 ^ 32)) }
{
    let Some(address) = address else {
        return Ok(Some(0));
    };
    let Some(head) = bytes_in_memory(alloc, runs, address, 8)? else {
        return Ok(None);
    };
    let size = hash_size(head.as_slice());
    let Some(hash) = bytes_in_memory(alloc, runs, address, size)? else {
        return Ok(None);
    };
    Ok(Some(u64::from(word_at(hash.as_slice(), 4))))
}

/// The bytes of the tables that entries name; none where a byte of them is not loaded.
#[tactic(auto, unfolding(crate::specs::NamedTables::tables_by))]
fn tables_by(alloc: Global, runs: &[Run], entries: &[Dyn]) -> Result<Option<Tables>, NoMemory>
    requires rising { RiseFrom 0 runs.now }
    ensures { IfOk result (λ tables. tables ≡ tables_by (run_memory runs.now) entries.now) }
{
    let Some(count) = symbol_count(alloc, runs, first_with_tag(entries, DT_HASH))? else {
        return Ok(None);
    };
    let size = SYM_SIZE as u64 * count;
    let Some(records) = table_at(alloc, runs, first_with_tag(entries, DT_SYMTAB), size)? else {
        return Ok(None);
    };
    let size = named_size(entries, DT_STRSZ);
    let Some(strings) = table_at(alloc, runs, first_with_tag(entries, DT_STRTAB), size)? else {
        return Ok(None);
    };
    let size = named_size(entries, DT_RELASZ);
    let Some(relas) = table_at(alloc, runs, first_with_tag(entries, DT_RELA), size)? else {
        return Ok(None);
    };
    let size = named_size(entries, DT_PLTRELSZ);
    let Some(jumps) = table_at(alloc, runs, first_with_tag(entries, DT_JMPREL), size)? else {
        return Ok(None);
    };
    Ok(Some(Tables {
        records,
        strings,
        relas,
        jumps,
    }))
}

/// What tables say beside the entries; none where a text does not end in the string table.
#[tactic(auto, unfolding(crate::specs::NamedTables::said_by))]
fn said_by(alloc: Global, entries: &[Dyn], tables: &Tables) -> Result<Option<Named>, NoMemory>
    ensures { IfOk result (λ named. named ≡ option_map reported (said_by entries.now tables.now)) }
{
    let strings = tables.strings.as_slice();
    let Some(needed) = needed_names(alloc, strings, entries)? else {
        return Ok(None);
    };
    let Some(symbols) = loaded_symbols(alloc, strings, tables.records.as_slice())? else {
        return Ok(None);
    };
    let mut relocations = Vec::new(alloc);
    append_relas(&mut relocations, tables.relas.as_slice())?;
    append_relas(&mut relocations, tables.jumps.as_slice())?;
    Ok(Some(Named {
        needed,
        symbols,
        relocations: List::from_vec(relocations),
    }))
}

/// What these entries name; none where a byte of it is not loaded or a text does not end.
#[tactic(auto, using(crate::proofs::PartsNamed::tables_missing, crate::proofs::PartsNamed::tables_found))]
fn named_by(alloc: Global, runs: &[Run], entries: &[Dyn]) -> Result<Option<Named>, NoMemory>
    requires rising { RiseFrom 0 runs.now }
    ensures { IfOk result (λ named. named ≡ option_map reported (named_by (run_memory runs.now) entries.now)) }
{
    let Some(tables) = tables_by(alloc, runs, entries)? else {
        return Ok(None);
    };
    said_by(alloc, entries, &tables)
}

/// The entries of the dynamic section in a segment, and no entry without one; none where a byte of it is not
/// loaded.
#[tactic(auto, unfolding(lk_model::specs::DynamicEntries::counted_entries))]
fn entries_of(
    alloc: Global,
    runs: &[Run],
    segment: Option<Phdr>,
) -> Result<Option<DynList>, NoMemory>
    requires rising { RiseFrom 0 runs.now }
    ensures { IfOk result (λ entries. entries ≡ option_map (λ bytes. counted_entries bytes 0 (length bytes)) (segment_bytes (run_memory runs.now) segment)) }
{
    let Some(segment) = segment else {
        return Ok(Some(List::new(alloc)));
    };
    let Some(bytes) = bytes_in_memory(alloc, runs, segment.p_vaddr, segment.p_memsz)? else {
        return Ok(None);
    };
    Ok(Some(counted_entries(alloc, bytes.as_slice())?))
}

/// What the dynamic section in a segment names, and nothing without one; none where a byte of it is not
/// loaded or a text does not end.
#[tactic(auto, using(crate::proofs::PartsNamed::entries_missing, crate::proofs::PartsNamed::entries_found))]
pub(crate) fn named_under(
    alloc: Global,
    runs: &[Run],
    segment: Option<Phdr>,
) -> Result<Option<Named>, NoMemory>
    requires rising { RiseFrom 0 runs.now }
    ensures { IfOk result (λ named. named ≡ option_map reported (with_value (segment_bytes (run_memory runs.now) segment) (λ bytes. named_by (run_memory runs.now) (counted_entries bytes 0 (length bytes))))) }
{
    let Some(entries) = entries_of(alloc, runs, segment)? else {
        return Ok(None);
    };
    named_by(alloc, runs, entries.as_slice())
}
