//! The exit status of a status.

ghost use Rattle.std.specs.Prelude.{◌≡◌};
ghost use Rattle.lk_report.specs.Exit.{exit_status_of};

use crate::statuses::Status;

impl Status {
    /// The number with which a program ends: 0 where the output is the link that was asked for,
    /// 1 to 8 for the others in the order of the variants.
    pub fn exit_code(&self) -> u8
        ensures { result ≡ exit_status_of self.now }
    {
        match self {
            Status::Done(_) => 0,
            Status::LinkError(_) => 1,
            Status::Usage(_) => 2,
            Status::ReadFault(_) => 3,
            Status::DeviceFault => 4,
            Status::NoMemory => 5,
            Status::Limit(_) => 6,
            Status::NotUpdated(_) => 7,
            Status::NotYet(_) => 8,
        }
    }
}
