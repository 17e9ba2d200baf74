//! What a link answers where its references are not scanned.

ghost use Rattle.std.specs.Prelude.{◌≡◌};
ghost use Rattle.lk_scan.specs.ScanStatuses.{scan_status};

use crate::scans::ScanFailure;
use lk_report::Status;

impl From<ScanFailure> for Status {
    ghost from_gives = { λ failure status. status ≡ scan_status failure };

    fn from(failure: ScanFailure) -> Status {
        match failure {
            ScanFailure::Faults(faults) => Status::LinkError(faults),
            ScanFailure::NoMemory => Status::NoMemory,
        }
    }
}
