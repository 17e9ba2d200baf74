//! The low bits of numbers that a field cannot hold.

ghost use Rattle.std.specs.Prelude.{◌≡◌};
ghost use Rattle.lk_model.specs.Amounts.{minus};
ghost use Rattle.lk_dyn.specs.LowBits.{low_64};

/// The first number that a field of eight bytes cannot hold.
const FIELD_END: u128 = 0x1_0000_0000_0000_0000;

/// What a field of eight bytes holds of a number.
pub fn low_64(n: u128) -> u64
    ensures { result ≡ low_64 n }
{
    (n % FIELD_END) as u64
}

/// The distance from an address to a target, modulo 2^64.
pub(crate) fn distance(target: u64, from: u64) -> u64
    ensures { result ≡ minus target from }
{
    target.wrapping_sub(from)
}
