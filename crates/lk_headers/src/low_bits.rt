//! The low bits of numbers that are greater than their field.

ghost use Rattle.std.specs.Prelude.{◌≡◌, ◌-◌, ◌%◌, ◌^◌};
ghost use Rattle.lk_headers.specs.LowBits.{low_64};

/// The least number that does not fit a field of eight bytes.
const FIELD_END: u128 = 0x1_0000_0000_0000_0000;

/// The low eight bytes of a number.
pub(crate) fn low_64(n: u128) -> u64
    ensures { result ≡ low_64 n }
{
    (n % FIELD_END) as u64
}

/// The difference of two numbers; 0 where the first is not greater.
pub(crate) fn above(n: u128, least: u128) -> u128
    ensures { result ≡ n - least }
{
    if n < least { 0 } else { n - least }
}

/// The low two bytes of a number.
pub(crate) fn low_16(n: usize) -> u16
    ensures { result ≡ n % 2 ^ 16 }
{
    (n % 0x1_0000) as u16
}

/// The low four bytes of a number.
pub(crate) fn low_32(n: u64) -> u32
    ensures { result ≡ n % 2 ^ 32 }
{
    (n % 0x1_0000_0000) as u32
}
