//! A bad place as an offset in its section.

ghost use Rattle.std.specs.Prelude.{◌≡◌};
ghost use Rattle.lk_records_read.specs.ReadAnswers.{fault_in};

use crate::refusals::Refusal;
use lk_model::records::RecordFault;

/// Why a section with these bytes is not read, by its number among the five.
pub(crate) fn fault_in(section: u32, bytes: &[u8], refusal: Refusal) -> RecordFault
    ensures { result ≡ fault_in section bytes.now refusal }
{
    match refusal {
        Refusal::Bad { left } => RecordFault::Bad {
            section,
            offset: bytes.len().saturating_sub(left) as u64,
        },
        Refusal::NoMemory => RecordFault::NoMemory,
    }
}
