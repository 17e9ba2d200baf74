//! The groups of an input (`.gnu_incremental_inputs`): each with its signature and its members.

ghost use Rattle.std.specs.Prelude.{◌≡◌};
ghost use Rattle.lk_model.specs.RecordForms.{read_many};
ghost use Rattle.lk_records_read.specs.InputParts.{read_group, read_member};
ghost use Rattle.lk_records_read.specs.ReadAnswers.{ReadGives};

use crate::counts::{GROUP_SIZE, MEMBER_SIZE, group_fits};
use crate::cursors::Cursor;
use crate::fields::u32_at;
use crate::lists::with_room;
use crate::refusals::Refusal;
use crate::texts::text_at;
use lk_model::summaries::{Group, GroupList, NumberList};
use lk_report::Bytes;
use std::alloc::Global;

/// The next member's number.
///
/// # Errors
/// It is not there.
#[tactic(auto, using(crate::proofs::InputParts::member_short, crate::proofs::InputParts::member_there))]
fn read_member(strtab: &Bytes, cursor: &mut Cursor<'_>) -> Result<u32, Refusal>
    ensures { ReadGives (read_member strtab.now cursor.old) result cursor.new }
{
    let bytes = cursor.take(MEMBER_SIZE)?;
    Ok(u32_at(bytes, 0))
}

/// So many members.
///
/// # Errors
/// The first that is not there; out of memory.
fn members_of(
    alloc: Global,
    strtab: &Bytes,
    cursor: &mut Cursor<'_>,
    count: usize,
) -> Result<NumberList, Refusal>
    ensures { ReadGives (read_many (read_member strtab.now) count cursor.old) result cursor.new }
{
    let mut members = with_room(alloc, count)?;
    for k in 0..count {
        let member = read_member(strtab, cursor)?;
        members.push(member)?;
    }
    Ok(members)
}

/// The next group.
///
/// # Errors
/// A count that does not fit, or a signature that is no text, at the group's head; out of memory.
#[tactic(auto, using(crate::proofs::InputParts::group_short, crate::proofs::InputParts::group_crowded, crate::proofs::InputParts::group_unsigned, crate::proofs::InputParts::group_stops, crate::proofs::InputParts::group_there))]
fn read_group(alloc: Global, strtab: &Bytes, cursor: &mut Cursor<'_>) -> Result<Group, Refusal>
    ensures { ReadGives (read_group strtab.now cursor.old) result cursor.new }
{
    let bytes = cursor.take(GROUP_SIZE)?;
    if !group_fits(bytes) {
        return Err(Refusal::Bad { left: bytes.len() });
    }
    let found = text_at(strtab, u32_at(bytes, 0))?;
    let Some(signature) = found else {
        return Err(Refusal::Bad { left: bytes.len() });
    };
    let members = members_of(alloc, strtab, cursor, u32_at(bytes, 4) as usize)?;
    Ok(Group { signature, members })
}

/// So many groups.
///
/// # Errors
/// The first that is refused; out of memory.
pub(crate) fn groups_of(
    alloc: Global,
    strtab: &Bytes,
    cursor: &mut Cursor<'_>,
    count: usize,
) -> Result<GroupList, Refusal>
    ensures { ReadGives (read_many (read_group strtab.now) count cursor.old) result cursor.new }
{
    let mut groups = with_room(alloc, count)?;
    for k in 0..count {
        let group = read_group(alloc, strtab, cursor)?;
        groups.push(group)?;
    }
    Ok(groups)
}
