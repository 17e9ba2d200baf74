//! Why a record is not read.

ghost use Rattle.std.specs.Prelude.{◌≡◌};
ghost use Rattle.lk_records_read.specs.declared.refusals.Refusal.TheVariants as refusal;

use lk_report::NoMemory;

/// Why the records of a section are not read.
#[derive(Clone, Copy, PartialEq, Eq, Debug)]
pub enum Refusal {
    /// The first bad place, by the number of the section's bytes that are left from it on.
    Bad { left: usize },
    /// There was no memory to read them.
    NoMemory,
}

impl From<NoMemory> for Refusal {
    ghost from_gives = { λ _ e. e ≡ refusal.NoMemory };

    fn from(_want: NoMemory) -> Refusal {
        Refusal::NoMemory
    }
}
