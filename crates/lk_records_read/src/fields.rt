//! The numbers in the fields of a record (gABI "Data Representation", byte order ELFDATA2LSB).

ghost use Rattle.std.specs.Prelude.{◌≡◌, ◌+◌, ◌≤◌, length};
ghost use Rattle.lk_elf.specs.Fields.{num};

use byteorder::{ByteOrder, LittleEndian};

/// The number in four bytes, the lowest first.
pub(crate) fn u32_at(bytes: &[u8], at: usize) -> u32
    requires { at + 4 ≤ length bytes.now }
    ensures { result ≡ num bytes.now at 4 }
{
    LittleEndian::read_u32(&bytes[at..])
}

/// The number in eight bytes, the lowest first.
pub(crate) fn u64_at(bytes: &[u8], at: usize) -> u64
    requires { at + 8 ≤ length bytes.now }
    ensures { result ≡ num bytes.now at 8 }
{
    LittleEndian::read_u64(&bytes[at..])
}
