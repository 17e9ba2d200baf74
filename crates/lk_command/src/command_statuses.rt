//! The status of a link whose words are no command.

ghost use Rattle.std.specs.Prelude.{◌≡◌};
ghost use Rattle.lk_command.specs.CommandStatuses.{command_status};

use crate::command_faults::CommandFault;
use lk_report::Status;

impl From<CommandFault> for Status {
    ghost from_gives = { λ fault status. status ≡ command_status fault };

    fn from(fault: CommandFault) -> Status {
        match fault {
            CommandFault::Usage(fault) => Status::Usage(fault),
            CommandFault::NoMemory => Status::NoMemory,
        }
    }
}
