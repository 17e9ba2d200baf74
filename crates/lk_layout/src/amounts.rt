//! Sums, products and multiples of sizes. Sizes of pieces have 64 bits, and their sums may have more, so
//! these numbers have 128. One that has no room in 128 bits is answered as out of memory: it takes more
//! pieces than memory holds.

ghost use Rattle.std.specs.Prelude.{◌≡◌, ◌+◌, ◌-◌, ◌*◌, IfOk};
ghost use Rattle.lk_model.specs.Amounts.{round_up};

use lk_report::NoMemory;

/// The sum of two numbers.
pub(crate) fn plus(a: u128, b: u128) -> Result<u128, NoMemory>
    ensures { IfOk result (λ n. n ≡ a + b) }
{
    match a.checked_add(b) {
        Some(n) => Ok(n),
        None => Err(NoMemory),
    }
}

/// The product of two numbers.
pub(crate) fn times(a: u128, b: u128) -> Result<u128, NoMemory>
    ensures { IfOk result (λ n. n ≡ a * b) }
{
    match a.checked_mul(b) {
        Some(n) => Ok(n),
        None => Err(NoMemory),
    }
}

/// How far a number is above another, 0 where it is not.
pub(crate) fn above(n: u128, least: u128) -> u128
    ensures { result ≡ n - least }
{
    if n < least { 0 } else { n - least }
}

/// The least multiple of the alignment that is not below `n`; 0 where there is no alignment.
pub(crate) fn round_up(n: u128, align: u128) -> Result<u128, NoMemory>
    ensures { IfOk result (λ m. m ≡ round_up n align) }
{
    if align == 0 {
        return Ok(0);
    }
    let reached = plus(n, align - 1)?;
    times(reached / align, align)
}

/// A number in 64 bits.
pub(crate) fn narrow(n: u128) -> Result<u64, NoMemory>
    ensures { IfOk result (λ m. m ≡ n) }
{
    match u64::try_from(n) {
        Ok(n) => Ok(n),
        Err(_) => Err(NoMemory),
    }
}
