//! Ranges of bytes in memory, gathered from runs that rise in one pass over them.

ghost use Rattle.std.specs.Prelude.{◌≡◌, ◌≤◌, length, IfOk, IfSome};
ghost use Rattle.lk_model.specs.Loads.{bytes_in_memory};
ghost use Rattle.lk_loader.specs.Gathering.{gathered, part_of};
ghost use Rattle.lk_loader.specs.Runs.{RiseFrom, run_memory};

use crate::loads::Run;
use crate::texts::{front_of, rest_from};
use lk_report::{Bytes, NoMemory};
use std::alloc::Global;

/// What a run has from an address on, at most so many bytes.
fn part_of(run: &Run, next: u128, left: u64) -> &[u8]
    ensures { result.now ≡ part_of run.now next left }
{
    let start = u128::from(run.addr);
    if next < start {
        return &[];
    }
    let bytes = run.bytes.as_slice();
    let skipped = next - start;
    if skipped >= bytes.len() as u128 {
        return &[];
    }
    front_of(rest_from(bytes, skipped as usize), left as usize)
}

/// What the runs have from an address on without a gap, at most so many bytes.
fn gathered(alloc: Global, runs: &[Run], address: u64, size: u64) -> Result<Vec<u8>, NoMemory>
    ensures { IfOk result (λ found. found.items ≡ gathered runs.now address size) }
{
    let mut found = Vec::new(alloc);
    for run in runs {
        let next = u128::from(address) + found.len() as u128;
        let part = part_of(run, next, size - found.len() as u64);
        if found.extend_from_slice(part).is_err() {
            return Err(NoMemory);
        }
    }
    Ok(found)
}

/// So many bytes in memory from an address on; none where one of them is not loaded.
#[tactic(auto, using(crate::proofs::RunsGathered::all_gathered, crate::proofs::RunsGathered::not_gathered))]
pub(crate) fn bytes_in_memory(
    alloc: Global,
    runs: &[Run],
    address: u64,
    size: u64,
) -> Result<Option<Bytes>, NoMemory>
    requires rising { RiseFrom 0 runs.now }
    ensures value { IfOk result (λ found. found ≡ bytes_in_memory (run_memory runs.now) address size) }
    ensures long { IfOk result (λ found. IfSome found (λ bytes. length bytes ≡ size)) }
{
    let found = gathered(alloc, runs, address, size)?;
    if found.len() as u64 == size {
        Ok(Some(Bytes::from_vec(found)?))
    } else {
        Ok(None)
    }
}
