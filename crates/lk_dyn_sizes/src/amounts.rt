//! Sums and products of sizes. One that is greater than 64 bits is reported as out of memory, since no memory
//! could have so many bytes.

ghost use Rattle.std.specs.Prelude.{◌≡◌, ◌+◌, ◌*◌, IfOk};

use lk_report::NoMemory;

/// The sum of two numbers of bytes or entries.
pub(crate) fn plus(a: u64, b: u64) -> Result<u64, NoMemory>
    ensures { IfOk result (λ n. n ≡ a + b) }
{
    match a.checked_add(b) {
        Some(n) => Ok(n),
        None => Err(NoMemory),
    }
}

/// The bytes of so many entries of this size each.
pub(crate) fn times(size: u64, count: u64) -> Result<u64, NoMemory>
    ensures { IfOk result (λ n. n ≡ size * count) }
{
    match size.checked_mul(count) {
        Some(n) => Ok(n),
        None => Err(NoMemory),
    }
}
