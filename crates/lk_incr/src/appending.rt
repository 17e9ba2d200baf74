//! Bytes put at the end of a section: numbers with the lowest byte first (gABI "Data Representation").

ghost use Rattle.std.specs.Prelude.{◌≡◌, ◌≤◌, ◌++◌, OnOk};
ghost use Rattle.lk_elf.specs.Fields.{bytes_of};

use lk_report::NoMemory;

/// Puts bytes at the end.
pub(crate) fn put_bytes(out: &mut Vec<u8>, bytes: &[u8]) -> Result<(), NoMemory>
    ensures { OnOk result (out.new.items ≡ out.old.items ++ bytes.now) }
{
    match out.extend_from_slice(bytes) {
        Ok(()) => Ok(()),
        Err(_) => Err(NoMemory),
    }
}

/// Puts a number of four bytes at the end: the low bytes of `n`.
pub(crate) fn put_short(out: &mut Vec<u8>, n: u64) -> Result<(), NoMemory>
    ensures { OnOk result (out.new.items ≡ out.old.items ++ bytes_of 4 n) }
{
    let bytes = all_bytes(n);
    put_bytes(out, low_bytes(&bytes, n))
}

/// All bytes of a number.
pub(crate) fn all_bytes(n: u64) -> [u8; 8]
    ensures { result ≡ bytes_of 8 n }
{
    n.to_le_bytes()
}

/// The four lowest bytes of a number, of all its bytes.
fn low_bytes(bytes: &[u8; 8], n: u64) -> &[u8]
    requires { bytes.now ≡ bytes_of 8 n }
    ensures { result.now ≡ bytes_of 4 n }
{
    &bytes[..4]
}
