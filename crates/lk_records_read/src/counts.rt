//! Whether the counts of the section of inputs fit (`.gnu_incremental_inputs`): the heads alone are looked at, each
//! at its bytes. Time is linear in inputs and groups, and no memory is taken.

ghost use Rattle.std.specs.Prelude.{◌≡◌, ◌*◌, ◌≤◌, not, length, nat_le};
ghost use Rattle.lk_model.specs.InputsCounts.{after_group, after_input, after_inputs};
ghost use Rattle.lk_model.specs.RecordReaders.{after_rows, is_fault_at};
ghost use Rattle.lk_records_read.specs.CountsRead.{AfterGives, after_groups, after_many_inputs};

use crate::cursors::rest_from;
use crate::fields::u32_at;

/// The width of the head of the section, in bytes.
pub(crate) const HEAD_SIZE: usize = 32;
/// The width of an output section's record, in bytes.
pub(crate) const SECTION_SIZE: usize = 48;
/// The width of an input's head, in bytes.
pub(crate) const INPUT_SIZE: usize = 56;
/// The width of a piece's record and of a symbol's, in bytes.
pub(crate) const PIECE_SIZE: usize = 40;
/// The width of a group's head, in bytes.
pub(crate) const GROUP_SIZE: usize = 8;
/// The width of a number of a group's member, in bytes.
pub(crate) const MEMBER_SIZE: usize = 4;

/// Whether so many records of this width are in so many bytes.
fn are_within(count: usize, width: usize, size: usize) -> bool
    ensures { result ≡ nat_le (count * width) size }
{
    match count.checked_mul(width) {
        Some(all) => all <= size,
        None => false,
    }
}

/// The bytes behind so many records of this width.
///
/// # Errors
/// They are not all there: `left`, the number of bytes left at their head.
fn after_rows(left: usize, width: usize, count: usize, bytes: &[u8]) -> Result<&[u8], usize>
    ensures { AfterGives (after_rows left width count bytes.now) result }
{
    if !are_within(count, width, bytes.len()) {
        return Err(left);
    }
    Ok(rest_from(bytes, count * width))
}

/// The bytes behind a group.
///
/// # Errors
/// Its members are not all there: the number of bytes left at its head.
fn after_group(bytes: &[u8]) -> Result<&[u8], usize>
    requires { 8 ≤ length bytes.now }
    ensures { AfterGives (after_group bytes.now) result }
{
    let members = u32_at(bytes, 4) as usize;
    after_rows(
        bytes.len(),
        MEMBER_SIZE,
        members,
        rest_from(bytes, GROUP_SIZE),
    )
}

/// The bytes behind so many groups.
///
/// # Errors
/// A group whose members are not all there, as in `after_group`; or heads that are not all there: `left`.
#[tactic(auto, using(crate::proofs::HeadsWalked::groups_short, crate::proofs::HeadsWalked::groups_refused, crate::proofs::HeadsWalked::groups_next, crate::proofs::HeadsWalked::groups_done))]
fn after_groups(left: usize, count: usize, bytes: &[u8]) -> Result<&[u8], usize>
    ensures { AfterGives (after_groups left count bytes.now) result }
{
    let mut rest = bytes;
    for k in 0..count {
        if !are_within(count - k, GROUP_SIZE, rest.len()) {
            return Err(left);
        }
        rest = after_group(rest)?;
    }
    Ok(rest)
}

/// The bytes behind an input.
///
/// # Errors
/// The number of bytes left at the first head, its own or that of a group, whose counts do not fit.
#[tactic(auto, unfolding(crate::specs::CountsRead::after_groups))]
fn after_input(bytes: &[u8]) -> Result<&[u8], usize>
    requires { 56 ≤ length bytes.now }
    ensures { AfterGives (after_input bytes.now) result }
{
    let left = bytes.len();
    let rows = u32_at(bytes, 40) as usize + u32_at(bytes, 44) as usize;
    let groups = after_rows(left, PIECE_SIZE, rows, rest_from(bytes, INPUT_SIZE))?;
    after_groups(left, u32_at(bytes, 48) as usize, groups)
}

/// The bytes behind so many inputs.
///
/// # Errors
/// An input whose counts do not fit, as in `after_input`; or heads that are not all there: `left`.
#[tactic(auto, using(crate::proofs::HeadsWalked::inputs_short, crate::proofs::HeadsWalked::inputs_refused, crate::proofs::HeadsWalked::inputs_next, crate::proofs::HeadsWalked::inputs_done))]
fn after_many_inputs(left: usize, count: usize, bytes: &[u8]) -> Result<&[u8], usize>
    ensures { AfterGives (after_many_inputs left count bytes.now) result }
{
    let mut rest = bytes;
    for k in 0..count {
        if !are_within(count - k, INPUT_SIZE, rest.len()) {
            return Err(left);
        }
        rest = after_input(rest)?;
    }
    Ok(rest)
}

/// The bytes behind the section's last input.
///
/// # Errors
/// The number of bytes left at the first head whose counts do not fit.
#[tactic(auto, unfolding(crate::specs::CountsRead::after_many_inputs))]
fn after_inputs(bytes: &[u8]) -> Result<&[u8], usize>
    requires { 32 ≤ length bytes.now }
    ensures { AfterGives (after_inputs bytes.now) result }
{
    let left = bytes.len();
    let sections = u32_at(bytes, 28) as usize;
    let inputs = after_rows(left, SECTION_SIZE, sections, rest_from(bytes, HEAD_SIZE))?;
    after_many_inputs(left, u32_at(bytes, 24) as usize, inputs)
}

/// Whether a group's own count fits.
pub(crate) fn group_fits(bytes: &[u8]) -> bool
    requires { 8 ≤ length bytes.now }
    ensures { result ≡ not (is_fault_at (length bytes.now) (after_group bytes.now)) }
{
    match after_group(bytes) {
        Ok(_) => true,
        Err(left) => left != bytes.len(),
    }
}

/// Whether an input's own counts fit.
pub(crate) fn input_fits(bytes: &[u8]) -> bool
    requires { 56 ≤ length bytes.now }
    ensures { result ≡ not (is_fault_at (length bytes.now) (after_input bytes.now)) }
{
    match after_input(bytes) {
        Ok(_) => true,
        Err(left) => left != bytes.len(),
    }
}

/// Whether the counts of the section's head fit.
pub(crate) fn inputs_fit(bytes: &[u8]) -> bool
    requires { 32 ≤ length bytes.now }
    ensures { result ≡ not (is_fault_at (length bytes.now) (after_inputs bytes.now)) }
{
    match after_inputs(bytes) {
        Ok(_) => true,
        Err(left) => left != bytes.len(),
    }
}
