//! Texts are written into memory.

ghost use Rattle.std.specs.Prelude.{◌≡◌, ◌++◌, OnOk};
ghost use Rattle.std.specs.Fmt.{decimal};
ghost use Rattle.lk_report.specs.Texts.{hex_text};

use lk_report::NoMemory;
use std::alloc::Global;

/// Puts bytes at the end.
pub fn put(text: &mut Vec<u8>, bytes: &[u8]) -> Result<(), NoMemory>
    ensures { OnOk result (text.new.items ≡ text.old.items ++ bytes.now) }
{
    match text.extend_from_slice(bytes) {
        Ok(()) => Ok(()),
        Err(_) => Err(NoMemory),
    }
}

/// Puts a number at the end, in decimal.
pub fn put_number(alloc: Global, text: &mut Vec<u8>, number: usize) -> Result<(), NoMemory>
    ensures { OnOk result (text.new.items ≡ text.old.items ++ decimal number) }
{
    match format!(in alloc; "{number}") {
        Ok(digits) => put(text, digits.as_bytes()),
        Err(_) => Err(NoMemory),
    }
}

/// Puts a number at the end, as `0x` and its hexadecimal digits.
#[tactic(auto, unfolding(lk_report::specs::Texts::hex_text))]
pub fn put_hex(alloc: Global, text: &mut Vec<u8>, number: u64) -> Result<(), NoMemory>
    ensures { OnOk result (text.new.items ≡ text.old.items ++ hex_text number) }
{
    put(text, b"0x")?;
    match format!(in alloc; "{number:x}") {
        Ok(digits) => put(text, digits.as_bytes()),
        Err(_) => Err(NoMemory),
    }
}
