//! Copies of what a link keeps of an input, for an object that is to own its summary.

ghost use Rattle.std.specs.Prelude.{◌≡◌, IfOk};

use lk_model::summaries::{Group, GroupList, InputSummary, NumberList};
use lk_report::{List, NoMemory};
use std::alloc::Global;

/// Equal numbers.
fn copy_numbers(alloc: Global, numbers: &[u32]) -> Result<NumberList, NoMemory>
    ensures { IfOk result (λ copy. copy ≡ numbers.now) }
{
    match Vec::from_slice(alloc, numbers) {
        Ok(copy) => Ok(List::from_vec(copy)),
        Err(_) => Err(NoMemory),
    }
}

/// An equal group.
fn copy_group(alloc: Global, group: &Group) -> Result<Group, NoMemory>
    ensures { IfOk result (λ copy. copy ≡ group.now) }
{
    Ok(Group {
        signature: group.signature.copy(alloc)?,
        members: copy_numbers(alloc, group.members.as_slice())?,
    })
}

/// Equal groups.
fn copy_groups(alloc: Global, groups: &[Group]) -> Result<GroupList, NoMemory>
    ensures { IfOk result (λ copy. copy ≡ groups.now) }
{
    let mut copies = List::new(alloc);
    for group in groups {
        copies.push(copy_group(alloc, group)?)?;
    }
    Ok(copies)
}

/// An equal summary: its pieces, symbols and groups with their names.
///
/// # Errors
/// Out of memory alone.
pub fn copy_summary(alloc: Global, summary: &InputSummary) -> Result<InputSummary, NoMemory>
    ensures { IfOk result (λ copy. copy ≡ summary.now) }
{
    Ok(InputSummary {
        kind: summary.kind,
        soname: summary.soname.copy(alloc)?,
        exec_stack: summary.exec_stack,
        pieces: summary.pieces.copy(alloc)?,
        globals: summary.globals.copy(alloc)?,
        groups: copy_groups(alloc, summary.groups.as_slice())?,
    })
}
