//! Why what the added inputs decide is no link.

use lk_report::{FaultList, LimitFault};

/// What settling answers in place of a resolution.
#[derive(PartialEq, Eq, Debug, Drop)]
pub enum SettleFault {
    /// The faults of the names, in order.
    Faults(FaultList),
    /// More names than a link may have, with their whole number.
    Limit(LimitFault),
    /// Out of memory, now or before.
    NoMemory,
}
