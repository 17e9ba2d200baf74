//! Why words are no command.

use lk_report::{NoMemory, UsageFault};

/// Why there is no command.
#[derive(Clone, Copy, PartialEq, Eq, Debug)]
pub enum CommandFault {
    /// The first fault of the words.
    Usage(UsageFault),
    /// Out of memory.
    NoMemory,
}

impl From<NoMemory> for CommandFault {
    ghost use Rattle.std.specs.Prelude.{◌≡◌};
    ghost use Rattle.lk_command.specs.declared.command_faults.CommandFault.TheVariants as faults;

    ghost from_gives = { λ _ fault. fault ≡ faults.NoMemory };

    fn from(_want: NoMemory) -> CommandFault {
        CommandFault::NoMemory
    }
}
