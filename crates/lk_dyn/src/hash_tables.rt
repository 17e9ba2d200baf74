//! The hash table of the dynamic symbols (gABI "Hash Table").

ghost use Rattle.std.specs.Prelude.{◌≡◌, ◌+◌, ◌<◌, ◌++◌, [], ◌∷◌, length, map, flat_map, replicate, IfOk, OnOk};
ghost use Rattle.lk_elf.specs.Fields.{bytes_of};
ghost use Rattle.lk_model.specs.HashTable.{bucket_count, hash_bytes, sysv_hash};
ghost use Rattle.lk_dyn_sizes.specs.DynamicStrings.{number_texts, texts_at};
ghost use Rattle.lk_dyn.specs.HashWords.{buckets_by, heads_of, nexts_of, words_by};

use crate::appending::{put_word, put_words};
use crate::hashing::sysv_hash;
use lk_report::{Bytes, NoMemory};
use lk_symtab::SymTab;
use std::alloc::Global;

/// The chains of a hash table.
#[derive(Drop)]
struct Chains {
    /// The last entry of each bucket, 0 where it has none.
    heads: Vec<usize>,
    /// The entry of its bucket before each entry, 0 where it is the first; that of entry 1 comes first.
    nexts: Vec<usize>,
}

/// How many buckets a table of so many entries has, which is this project's own.
fn bucket_count(entries: usize) -> usize
    ensures count { result ≡ bucket_count entries }
    ensures some { 0 < result }
{
    (entries / 4).max(1)
}

/// Puts the hash of the name with a number at the end, where there is one.
fn note_hash(hashes: &mut Vec<u32>, names: &SymTab, number: u32) -> Result<(), NoMemory>
    ensures { OnOk result (hashes.new.items ≡ hashes.old.items ++ map sysv_hash (number_texts names.now number)) }
{
    if number >= names.len() {
        return Ok(());
    }
    match hashes.push(sysv_hash(names.at(number).name.as_slice())) {
        Ok(()) => Ok(()),
        Err(_) => Err(NoMemory),
    }
}

/// The hashes of the names with these numbers.
fn name_hashes(alloc: Global, names: &SymTab, numbers: &[u32]) -> Result<Vec<u32>, NoMemory>
    ensures { IfOk result (λ hashes. hashes.items ≡ map sysv_hash (texts_at names.now numbers.now)) }
{
    let mut hashes = Vec::new(alloc);
    for number in numbers {
        note_hash(&mut hashes, names, *number)?;
    }
    Ok(hashes)
}

/// So many zeros.
fn zeros(alloc: Global, count: usize) -> Result<Vec<usize>, NoMemory>
    ensures { IfOk result (λ zeros. zeros.items ≡ replicate count 0) }
{
    let mut zeros = Vec::new(alloc);
    match zeros.resize(count, 0) {
        Ok(()) => Ok(zeros),
        Err(_) => Err(NoMemory),
    }
}

/// Puts an entry at the end.
fn note_entry(entries: &mut Vec<usize>, entry: usize) -> Result<(), NoMemory>
    ensures { OnOk result (entries.new.items ≡ entries.old.items ++ entry ∷ []) }
{
    match entries.push(entry) {
        Ok(()) => Ok(()),
        Err(_) => Err(NoMemory),
    }
}

/// The chains of entries with these hashes, in so many buckets: each entry goes to the head of its bucket.
fn chained(alloc: Global, hashes: &[u32], count: usize) -> Result<Chains, NoMemory>
    requires { 0 < count }
    ensures heads { IfOk result (λ chains. chains.heads.items ≡ heads_of count (buckets_by count hashes.now)) }
    ensures nexts { IfOk result (λ chains. chains.nexts.items ≡ nexts_of (buckets_by count hashes.now)) }
{
    let mut heads = zeros(alloc, count)?;
    let mut nexts = Vec::new(alloc);
    for number in 0..hashes.len() {
        let bucket = hashes[number] as usize % count;
        note_entry(&mut nexts, heads[bucket])?;
        heads[bucket] = number + 1;
    }
    Ok(Chains { heads, nexts })
}

/// The table of names with these hashes.
fn table_by(alloc: Global, hashes: &[u32]) -> Result<Vec<u8>, NoMemory>
    ensures { IfOk result (λ bytes. bytes.items ≡ flat_map (bytes_of 4) (words_by hashes.now)) }
{
    let entries = hashes.len() + 1;
    let count = bucket_count(entries);
    let chains = chained(alloc, hashes, count)?;
    let mut out = Vec::new(alloc);
    put_word(&mut out, count as u64)?;
    put_word(&mut out, entries as u64)?;
    put_words(&mut out, chains.heads.as_slice())?;
    put_word(&mut out, 0)?;
    put_words(&mut out, chains.nexts.as_slice())?;
    Ok(out)
}

/// The bytes of `.hash`, by which the dynamic linker finds the names with these numbers (gABI "Hash Table");
/// entry 1 is that of the first.
///
/// # Errors
/// Out of memory.
pub fn hash_table(alloc: Global, names: &SymTab, numbers: &[u32]) -> Result<Bytes, NoMemory>
    ensures { IfOk result (λ table. table ≡ hash_bytes (texts_at names.now numbers.now)) }
{
    let hashes = name_hashes(alloc, names, numbers)?;
    let table = table_by(alloc, hashes.as_slice())?;
    Bytes::from_vec(table)
}
