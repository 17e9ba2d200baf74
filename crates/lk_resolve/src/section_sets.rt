//! Which sections of an input are left in the link: its groups are claimed, and the sections of its pieces
//! that no group drops are in a set.

ghost use Rattle.std.specs.Prelude.{◌≡◌, nat_eq, cond, [], fold, map, is_some, IfOk, OnOk};
ghost use Rattle.lk_comdat.specs.Claims.{holder_of, signatures_of};
ghost use Rattle.lk_comdat.specs.ClaimLaws.{with_claim};
ghost use Rattle.lk_model.specs.Numbered.{distinct, is_number_in, with_new};
ghost use Rattle.lk_resolve.specs.LeftSections.{dropped_once, left_in, sections_without};
ghost use Rattle.lk_resolve.specs.States.{asked_by, asked_for};

use indexmap::IndexSet;
use lk_comdat::{Claim, Groups};
use lk_model::summaries::{Group, InputSummary, PieceInfo};
use lk_report::NoMemory;
use std::alloc::Global;

/// The numbers of sections of one input.
pub type Sections = IndexSet<u32>;

/// Puts sections into a set.
fn insert_sections(sections: &mut Sections, more: &[u32]) -> Result<(), NoMemory>
    ensures { OnOk result (sections.new.keys ≡ fold (with_new nat_eq) sections.old.keys more.now) }
{
    for section in more {
        if sections.insert(*section).is_err() {
            return Err(NoMemory);
        }
    }
    Ok(())
}

/// Claims a group; its members are dropped where another group of its signature was claimed before.
fn claim_group(
    claims: &mut Groups,
    input: u32,
    group: &Group,
    dropped: &mut Sections,
) -> Result<(), NoMemory>
    ensures claimed { OnOk result (claims.new ≡ with_claim claims.old (asked_for input group.now)) }
    ensures dropped { OnOk result (dropped.new.keys ≡ fold (with_new nat_eq) dropped.old.keys (cond (is_some (holder_of claims.old group.now.signature)) group.now.members [])) }
{
    match claims.claim(&group.signature, input)? {
        Claim::First => Ok(()),
        Claim::Dropped(_) => insert_sections(dropped, group.members.as_slice()),
    }
}

/// Claims the groups of an input; the sections that they drop.
fn claim_groups(
    alloc: Global,
    claims: &mut Groups,
    input: u32,
    groups: &[Group],
) -> Result<Sections, NoMemory>
    ensures claimed { OnOk result (claims.new ≡ fold with_claim claims.old (map (asked_for input) groups.now)) }
    ensures dropped { IfOk result (λ d. d.keys ≡ dropped_once (signatures_of claims.old) groups.now) }
{
    let mut dropped = IndexSet::new(alloc);
    for group in groups {
        claim_group(claims, input, group, &mut dropped)?;
    }
    Ok(dropped)
}

/// The sections of pieces that are not dropped.
fn sections_without(
    alloc: Global,
    dropped: &Sections,
    pieces: &[PieceInfo],
) -> Result<Sections, NoMemory>
    ensures { IfOk result (λ left. left.keys ≡ distinct nat_eq (sections_without dropped.now.keys pieces.now)) }
{
    let mut left = IndexSet::new(alloc);
    for piece in pieces {
        if !dropped.contains(&piece.section) {
            if left.insert(piece.section).is_err() {
                return Err(NoMemory);
            }
        }
    }
    Ok(left)
}

/// Claims the groups of an input; the sections of it that are left.
pub fn claim_input(
    alloc: Global,
    claims: &mut Groups,
    input: u32,
    summary: &InputSummary,
) -> Result<Sections, NoMemory>
    ensures claimed { OnOk result (claims.new ≡ fold with_claim claims.old (asked_by (record { number = input; summary = summary.now }))) }
    ensures left { IfOk result (λ left. left.keys ≡ left_in (signatures_of claims.old) summary.now) }
{
    let dropped = claim_groups(alloc, claims, input, summary.groups.as_slice())?;
    sections_without(alloc, &dropped, summary.pieces.as_slice())
}
