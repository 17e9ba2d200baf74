//! What a link answers where there is no placement.

ghost use Rattle.std.specs.Prelude.{◌≡◌};
ghost use Rattle.lk_model.specs.LayoutStatuses.{layout_status};

use crate::layouts::LayoutFault;
use lk_report::Status;

impl From<LayoutFault> for Status {
    ghost from_gives = { λ fault status. status ≡ layout_status fault };

    fn from(fault: LayoutFault) -> Status {
        match fault {
            LayoutFault::Limit(limit) => Status::Limit(limit),
            LayoutFault::NoMemory => Status::NoMemory,
        }
    }
}
