//! The search round the members of a lib group: each pass goes through those that wait, in order, and adds
//! each that defines a wanted name at that moment, until a pass adds none. Most groups end within a few
//! passes; where one does not, the search goes on by names.

ghost use Rattle.std.specs.Prelude.{◌≡◌, ◌≤◌, length, IfOk, OnOk};
ghost use Rattle.lk_resolve.specs.Searches.{members_as, numbered_on, searched};

use crate::members::Member;
use crate::name_searches::search_by_names;
use crate::state::ResolverState;
use lk_model::summaries::InputSummary;
use lk_report::{List, NoMemory};
use std::alloc::Global;

/// So many passes go round a group before the search goes on by names.
const PLAIN_PASSES: u32 = 3;

/// The members of a group, numbered from the first; a number that has no room in 32 bits is answered as want
/// of memory.
fn number_members<'m>(
    alloc: Global,
    first: u32,
    summaries: &'m [InputSummary],
) -> Result<List<Member<'m>>, NoMemory>
    ensures { IfOk result (λ members. members_as members ≡ numbered_on first summaries.now) }
{
    let mut members = List::new(alloc);
    for (i, summary) in summaries.iter().enumerate() {
        if i > (u32::MAX - first) as usize {
            return Err(NoMemory);
        }
        let number = first + i as u32;
        members.push(Member { number, summary })?;
    }
    Ok(members)
}

/// Goes through the members that wait, and adds each that is wanted; those that still wait.
fn pass<'m>(
    alloc: Global,
    state: &mut ResolverState,
    waiting: &[Member<'m>],
) -> Result<List<Member<'m>>, NoMemory>
    ensures goes_on { IfOk result (λ left. searched state.new (members_as left) ≡ searched state.old (members_as waiting.now)) }
    ensures fewer { IfOk result (λ left. length left ≤ length waiting.now) }
    ensures ends { IfOk result (λ left. length left ≡ length waiting.now → searched state.old (members_as waiting.now) ≡ state.new) }
{
    let mut left = List::new(alloc);
    for member in waiting {
        if state.add_wanted(member.number, member.summary)? {
            continue;
        }
        left.push(*member)?;
    }
    Ok(left)
}

/// Adds the members of a group that define a wanted name, each when its turn comes.
pub fn add_members(
    alloc: Global,
    state: &mut ResolverState,
    first: u32,
    summaries: &[InputSummary],
) -> Result<(), NoMemory>
    ensures { OnOk result (state.new ≡ searched state.old (numbered_on first summaries.now)) }
{
    let mut waiting = number_members(alloc, first, summaries)?;
    'passes: for _ in 0..PLAIN_PASSES {
        let left = pass(alloc, state, waiting.as_slice())?;
        if left.as_slice().len() == waiting.as_slice().len() {
            return Ok(());
        }
        waiting = left;
    }
    search_by_names(alloc, state, waiting.as_slice())?;
    Ok(())
}
