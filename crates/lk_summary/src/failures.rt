//! Why bytes give no input.

ghost use Rattle.std.specs.Prelude.{◌≡◌};
ghost use Rattle.lk_summary.specs.declared.failures.ReadFailure.TheVariants as failure;

use lk_report::{InputFault, NoMemory};

/// Why bytes give no object or no shared object.
#[derive(Clone, Copy, PartialEq, Eq, Debug)]
pub enum ReadFailure {
    /// They are no file of that kind that can be linked: the first fault, with its place.
    Input(InputFault),
    /// There was no memory to read them.
    NoMemory,
}

impl From<NoMemory> for ReadFailure {
    ghost from_gives = { λ _ e. e ≡ failure.NoMemory };

    fn from(_want: NoMemory) -> ReadFailure {
        ReadFailure::NoMemory
    }
}
