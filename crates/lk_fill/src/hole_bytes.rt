//! The bytes of one hole.

ghost use Rattle.std.specs.Prelude.{◌≡◌, ◌^◌, ◌<◌, ◌≤◌, ◌||◌, IsTrue, length, nat_le, not, replicate};
ghost use Rattle.lk_model.specs.Holes.{fill_bytes, hole_bytes, sequence_hole_bytes};
ghost use Rattle.lk_model.specs.SectionKeys.{is_patched, least_of};
ghost use Rattle.lk_freelist.specs.Filling.{least_for};

use crate::keys::{gap_byte, past_byte};
use lk_freelist::fill;
use lk_model::layouts::{FillKind, SectionRow};
use lk_outsec::{fill_kind, is_patched};

/// The length of the shortest hole that a kind fills.
fn shortest(kind: FillKind) -> u64
    ensures { result ≡ least_for kind }
{
    match kind {
        FillKind::Zero | FillKind::Trap => 1,
        FillKind::Frame => 16,
        FillKind::Unit => 11,
    }
}

/// Fills a hole of a patched section, whose bytes these are. One that is too short, or of 4 GiB or more,
/// stays as it is.
fn fill_patched(kind: FillKind, bytes: &mut [u8])
    ensures { least_for kind ≤ length bytes.old → length bytes.old < 2 ^ 32 → bytes.new ≡ fill_bytes kind (length bytes.old) }
{
    let length = bytes.len() as u64;
    if length < shortest(kind) || length >= 1 << 32 {
        return;
    }
    fill(kind, length, 0, bytes);
}

/// Writes a byte over and over.
fn repeat(bytes: &mut [u8], byte: u8)
    ensures { bytes.new ≡ replicate (length bytes.old) byte }
{
    bytes.fill(byte);
}

/// Fills a hole of a sequence or a table, whose bytes these are; it begins `start` bytes from the section's
/// start. What lies before the section's end is a gap between pieces.
fn fill_sequence(row: &SectionRow, start: u64, bytes: &mut [u8])
    ensures { bytes.new ≡ sequence_hole_bytes row.now (record { start = start; length = length bytes.old }) }
{
    let before = row.size.saturating_sub(start).min(bytes.len() as u64) as usize;
    repeat(bytes, past_byte(&row.key));
    repeat(&mut bytes[..before], gap_byte(&row.key));
}

/// Fills a hole of a section, whose bytes these are; it begins `start` bytes from the section's start. In a
/// patched section a hole that is too short, or of 4 GiB or more, stays as it is.
pub(crate) fn fill_hole(row: &SectionRow, start: u64, bytes: &mut [u8])
    ensures { IsTrue (not (is_patched row.now.key) || nat_le (least_of row.now.key) (length bytes.old))
        → length bytes.old < 2 ^ 32
        → bytes.new ≡ hole_bytes row.now (record { start = start; length = length bytes.old }) }
{
    if is_patched(&row.key) {
        fill_patched(fill_kind(&row.key), bytes);
        return;
    }
    fill_sequence(row, start, bytes);
}
