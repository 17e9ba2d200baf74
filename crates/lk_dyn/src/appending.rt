//! Fields and bytes put at the end of a table.

ghost use Rattle.std.specs.Prelude.{◌≡◌, ◌++◌, OnOk};
ghost use Rattle.std.specs.List.{flat_map};
ghost use Rattle.lk_elf.specs.Fields.{bytes_of};
ghost use Rattle.lk_elf.specs.Records.{dyn_bytes, rela_bytes, sym_bytes};

use lk_elf::{Dyn, Rela, Sym};
use lk_report::NoMemory;

/// Puts bytes at the end.
pub(crate) fn put_bytes(out: &mut Vec<u8>, bytes: &[u8]) -> Result<(), NoMemory>
    ensures { OnOk result (out.new.items ≡ out.old.items ++ bytes.now) }
{
    match out.extend_from_slice(bytes) {
        Ok(()) => Ok(()),
        Err(_) => Err(NoMemory),
    }
}

/// All bytes of a number.
fn all_bytes(n: u64) -> [u8; 8]
    ensures { result ≡ bytes_of 8 n }
{
    n.to_le_bytes()
}

/// The four lowest bytes of a number, of all its bytes.
fn low_bytes(bytes: &[u8; 8], n: u64) -> &[u8]
    requires { bytes.now ≡ bytes_of 8 n }
    ensures { result.now ≡ bytes_of 4 n }
{
    &bytes[..4]
}

/// Puts a field of eight bytes at the end.
pub(crate) fn put_long(out: &mut Vec<u8>, n: u64) -> Result<(), NoMemory>
    ensures { OnOk result (out.new.items ≡ out.old.items ++ bytes_of 8 n) }
{
    put_bytes(out, &all_bytes(n))
}

/// Puts a field of four bytes at the end: the low bytes of `n`.
pub(crate) fn put_word(out: &mut Vec<u8>, n: u64) -> Result<(), NoMemory>
    ensures { OnOk result (out.new.items ≡ out.old.items ++ bytes_of 4 n) }
{
    let bytes = all_bytes(n);
    put_bytes(out, low_bytes(&bytes, n))
}

/// Puts fields of four bytes at the end.
pub(crate) fn put_words(out: &mut Vec<u8>, words: &[usize]) -> Result<(), NoMemory>
    ensures { OnOk result (out.new.items ≡ out.old.items ++ flat_map (bytes_of 4) words.now) }
{
    for word in words {
        put_word(out, *word as u64)?;
    }
    Ok(())
}

/// Puts a relocation with an addend at the end (gABI "Relocation").
pub(crate) fn put_rela(out: &mut Vec<u8>, rela: &Rela) -> Result<(), NoMemory>
    ensures { OnOk result (out.new.items ≡ out.old.items ++ rela_bytes rela.now) }
{
    let mut bytes = [0u8; 24];
    rela.write_at(&mut bytes, 0);
    put_bytes(out, &bytes)
}

/// Puts a symbol at the end (gABI "Symbol Table").
///
/// # Errors
/// Out of memory.
pub fn put_symbol(out: &mut Vec<u8>, symbol: &Sym) -> Result<(), NoMemory>
    ensures { OnOk result (out.new.items ≡ out.old.items ++ sym_bytes symbol.now) }
{
    let mut bytes = [0u8; 24];
    symbol.write_at(&mut bytes, 0);
    put_bytes(out, &bytes)
}

/// Puts an entry of the dynamic section at the end (gABI "Dynamic Section").
pub(crate) fn put_dyn(out: &mut Vec<u8>, entry: &Dyn) -> Result<(), NoMemory>
    ensures { OnOk result (out.new.items ≡ out.old.items ++ dyn_bytes entry.now) }
{
    let mut bytes = [0u8; 16];
    entry.write_at(&mut bytes, 0);
    put_bytes(out, &bytes)
}
