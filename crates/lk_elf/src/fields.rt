// The fields of a record, over slices: each is read from its place, and written there alone.

ghost use Rattle.std.specs.Prelude.{◌≡◌, ◌+◌, ◌≤◌, ◌++◌, length, take, drop};
ghost use Rattle.lk_elf.specs.Fields.{bytes_of, num, signed64, unsigned64};

use byteorder::{ByteOrder, LittleEndian};

pub(crate) fn u8_at(bytes: &[u8], at: usize) -> u8
    requires { at + 1 ≤ length bytes.now }
    ensures { result ≡ num bytes.now at 1 }
{
    bytes[at]
}

pub(crate) fn u16_at(bytes: &[u8], at: usize) -> u16
    requires { at + 2 ≤ length bytes.now }
    ensures { result ≡ num bytes.now at 2 }
{
    LittleEndian::read_u16(&bytes[at..])
}

pub(crate) fn u32_at(bytes: &[u8], at: usize) -> u32
    requires { at + 4 ≤ length bytes.now }
    ensures { result ≡ num bytes.now at 4 }
{
    LittleEndian::read_u32(&bytes[at..])
}

pub(crate) fn u64_at(bytes: &[u8], at: usize) -> u64
    requires { at + 8 ≤ length bytes.now }
    ensures { result ≡ num bytes.now at 8 }
{
    LittleEndian::read_u64(&bytes[at..])
}

pub(crate) fn i64_at(bytes: &[u8], at: usize) -> i64
    requires { at + 8 ≤ length bytes.now }
    ensures { result ≡ signed64 (num bytes.now at 8) }
{
    u64_at(bytes, at).cast_signed()
}

pub(crate) fn ident_at(bytes: &[u8], at: usize) -> [u8; 16]
    requires { at + 16 ≤ length bytes.now }
    ensures { result ≡ take 16 (drop at bytes.now) }
{
    let mut ident = [0u8; 16];
    ident.copy_from_slice(&bytes[at..at + 16]);
    ident
}

pub(crate) fn put_u8(bytes: &mut [u8], at: usize, n: u8)
    requires { at + 1 ≤ length bytes.old }
    ensures { bytes.new ≡ take at bytes.old ++ bytes_of 1 n ++ drop (at + 1) bytes.old }
{
    bytes[at] = n;
}

pub(crate) fn put_u16(bytes: &mut [u8], at: usize, n: u16)
    requires { at + 2 ≤ length bytes.old }
    ensures { bytes.new ≡ take at bytes.old ++ bytes_of 2 n ++ drop (at + 2) bytes.old }
{
    LittleEndian::write_u16(&mut bytes[at..], n);
}

pub(crate) fn put_u32(bytes: &mut [u8], at: usize, n: u32)
    requires { at + 4 ≤ length bytes.old }
    ensures { bytes.new ≡ take at bytes.old ++ bytes_of 4 n ++ drop (at + 4) bytes.old }
{
    LittleEndian::write_u32(&mut bytes[at..], n);
}

pub(crate) fn put_u64(bytes: &mut [u8], at: usize, n: u64)
    requires { at + 8 ≤ length bytes.old }
    ensures { bytes.new ≡ take at bytes.old ++ bytes_of 8 n ++ drop (at + 8) bytes.old }
{
    LittleEndian::write_u64(&mut bytes[at..], n);
}

pub(crate) fn put_i64(bytes: &mut [u8], at: usize, n: i64)
    requires { at + 8 ≤ length bytes.old }
    ensures { bytes.new ≡ take at bytes.old ++ bytes_of 8 (unsigned64 n) ++ drop (at + 8) bytes.old }
{
    put_u64(bytes, at, n.cast_unsigned());
}

pub(crate) fn put_ident(bytes: &mut [u8], at: usize, ident: &[u8; 16])
    requires { at + 16 ≤ length bytes.old }
    ensures { bytes.new ≡ take at bytes.old ++ ident.now ++ drop (at + 16) bytes.old }
{
    bytes[at..at + 16].copy_from_slice(ident);
}
