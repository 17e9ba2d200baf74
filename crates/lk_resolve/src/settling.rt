//! The state becomes a resolution: the names are counted and made, and their faults are gathered.

ghost use Rattle.std.specs.Prelude.{◌≡◌, nat_lt, length};
ghost use Rattle.lk_resolve.specs.Settling.{SettlesTo};

use crate::resolution::Resolution;
use crate::settle_faults::SettleFault;
use crate::state::ResolverState;
use lk_model::limits::MOST_NAMES;
use lk_report::{FaultList, LimitFault, LimitKind};

/// Whether there is a fault.
fn has_faults(faults: &FaultList) -> bool
    ensures { result ≡ nat_lt 0 (length faults.now) }
{
    faults.as_slice().len() > 0
}

/// Settles the state.
///
/// # Errors
/// Too many names; then the faults of the names; out of memory.
#[tactic(auto, using(crate::proofs::ResolutionFound::settles_faults, crate::proofs::ResolutionFound::settles_ok))]
pub fn settle_state(mut state: ResolverState) -> Result<Resolution, SettleFault>
    ensures { SettlesTo state result }
{
    let number = state.name_count();
    if number > MOST_NAMES {
        return Err(SettleFault::Limit(LimitFault {
            which: LimitKind::Names,
            number: number as u64,
        }));
    }
    let Ok(()) = state.mark_made() else {
        return Err(SettleFault::NoMemory);
    };
    let Ok(faults) = state.faults() else {
        return Err(SettleFault::NoMemory);
    };
    if has_faults(&faults) {
        return Err(SettleFault::Faults(faults));
    }
    let Ok(resolution) = state.into_resolution() else {
        return Err(SettleFault::NoMemory);
    };
    Ok(resolution)
}
