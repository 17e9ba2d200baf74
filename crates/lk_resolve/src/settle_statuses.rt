//! What a link answers where there is no resolution.

ghost use Rattle.std.specs.Prelude.{◌≡◌};
ghost use Rattle.lk_resolve.specs.SettleStatuses.{settle_status};

use crate::settle_faults::SettleFault;
use lk_report::Status;

impl From<SettleFault> for Status {
    ghost from_gives = { λ fault status. status ≡ settle_status fault };

    fn from(fault: SettleFault) -> Status {
        match fault {
            SettleFault::Faults(faults) => Status::LinkError(faults),
            SettleFault::Limit(limit) => Status::Limit(limit),
            SettleFault::NoMemory => Status::NoMemory,
        }
    }
}
