//! Bytes are written into an image at their places.

ghost use Rattle.std.specs.Prelude.{◌≡◌, ◌+◌, ◌≤◌, length, nat_le};
ghost use Rattle.lk_model.specs.Amounts.{round_up};
ghost use Rattle.lk_model.specs.LinkedBytes.{patch};
ghost use Rattle.lk_image.specs.Writes.{front_writes, part_writes, tail_writes};
ghost use Rattle.lk_law_writes.specs.Written.{written};
ghost use Rattle.lk_law_writes.specs.WrittenLaws.{AllEndWithin};

use crate::placed_tails::PlacedTail;
use lk_incr::TailPart;
use lk_model::images::{SEAL, SEAL_OFFSET};

/// Whether `count` bytes at a place lie in a file of `size` bytes.
fn lies_in(size: usize, at: u64, count: usize) -> bool
    ensures { result ≡ nat_le (at + count) size }
{
    match at.checked_add(count as u64) {
        Some(end) => end <= size as u64,
        None => false,
    }
}

/// Writes bytes at a place in the image.
fn write_at(image: &mut [u8], at: usize, bytes: &[u8])
    requires { at + length bytes.now ≤ length image.old }
    ensures { image.new ≡ patch image.old at bytes.now }
{
    image[at..at + bytes.len()].copy_from_slice(bytes);
}

/// Writes bytes at a place. Bytes that do not lie in the image are not written.
fn put(image: &mut [u8], at: u64, bytes: &[u8])
    ensures { at + length bytes.now ≤ length image.old → image.new ≡ patch image.old at bytes.now }
{
    if lies_in(image.len(), at, bytes.len()) {
        write_at(image, at as usize, bytes);
    }
}

/// Writes the headers and the seal.
pub(crate) fn put_front(image: &mut [u8], front: &[u8])
    ensures { AllEndWithin (length image.old) (front_writes front.now) → image.new ≡ written image.old (front_writes front.now) }
{
    put(image, 0, front);
    put(image, SEAL_OFFSET as u64, SEAL);
}

/// Writes a part of the tail at the next multiple of 8 after a place, and returns its end.
fn put_part(image: &mut [u8], after: u64, bytes: &[u8]) -> u64
    ensures put { round_up after 8 + length bytes.now ≤ length image.old → image.new ≡ patch image.old (round_up after 8) bytes.now }
    ensures end { round_up after 8 + length bytes.now ≤ length image.old → result ≡ round_up after 8 + length bytes.now }
{
    let at = after.saturating_add(7) / 8 * 8;
    put(image, at, bytes);
    at.saturating_add(bytes.len() as u64)
}

/// Writes the parts of a tail that begins at a place.
#[tactic(auto, using(crate::proofs::BytesPut::parts_more))]
fn put_parts(image: &mut [u8], start: u64, parts: &[TailPart])
    ensures { AllEndWithin (length image.old) (part_writes start parts.now) → image.new ≡ written image.old (part_writes start parts.now) }
{
    let mut end = start;
    for part in parts {
        end = put_part(image, end, part.bytes());
    }
}

/// Writes the tail: its parts and the section headers.
pub(crate) fn put_tail(image: &mut [u8], tail: &PlacedTail)
    ensures { AllEndWithin (length image.old) (tail_writes tail.now) → image.new ≡ written image.old (tail_writes tail.now) }
{
    put_parts(image, tail.start, tail.parts.as_slice());
    put(image, tail.headers_at, tail.headers.as_slice());
}
