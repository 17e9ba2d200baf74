//! The records of a section one after another.

ghost use Rattle.std.specs.Prelude.{◌≡◌, ◌+◌, ◌<◌, ◌≤◌, ◌==◌, [], drop, length, position, take, IfErr, IfOk, MatchResult};
ghost use Rattle.std.specs.List.{before_first, position_or_len};
ghost use Rattle.lk_model.specs.TextsReading.{is_end};
ghost use Rattle.lk_records_read.specs.declared.refusals.Refusal.TheVariants as refusal;

use crate::refusals::Refusal;
use std::marker::Model;

/// What is from `at` on; nothing past the end.
pub(crate) fn rest_from(bytes: &[u8], at: usize) -> &[u8]
    ensures { result.now ≡ drop at bytes.now }
{
    if at < bytes.len() { &bytes[at..] } else { &[] }
}

/// At most the first `size` bytes.
fn front_of(bytes: &[u8], size: usize) -> &[u8]
    ensures { result.now ≡ take size bytes.now }
{
    if size < bytes.len() {
        &bytes[..size]
    } else {
        bytes
    }
}

/// The place of the first zero.
pub(crate) fn zero_in(bytes: &[u8]) -> Option<usize>
    ensures { result ≡ position (λ b. b == 0) bytes.now }
{
    bytes.iter().position(|b| *b == 0)
}

/// How many bytes are before the first zero, or all where there is none.
#[tactic(auto, using(crate::proofs::TextsFound::size_found, crate::proofs::TextsFound::size_whole))]
fn text_size(bytes: &[u8]) -> usize
    ensures { result ≡ position_or_len is_end bytes.now }
{
    match zero_in(bytes) {
        Some(size) => size,
        None => bytes.len(),
    }
}

/// A place in a section of records. Contracts see it as the bytes from it on.
#[derive(Drop)]
pub(crate) struct Cursor<'a> {
    rest: &'a [u8],
}

impl<'a> Model for Cursor<'a> {
    ghost use Rattle.std.specs.Prelude.{ℕ, List};

    ghost Value = { List ℕ };

    ghost view = { λ c. c.rest.now };
}

impl<'a> Cursor<'a> {
    /// The first record of a section.
    pub(crate) fn new(bytes: &'a [u8]) -> Self
        ensures { result ≡ bytes.now }
    {
        Cursor { rest: bytes }
    }

    /// The bytes from the next record on, which is so many bytes wide; the cursor goes on behind it.
    ///
    /// # Errors
    /// Fewer bytes are left.
    pub(crate) fn take(&mut self, width: usize) -> Result<&'a [u8], Refusal>
        ensures taken { IfOk result (λ bytes. (width ≤ length self.old) × (bytes.now ≡ self.old) × (self.new ≡ drop width self.old)) }
        ensures short { IfErr result (λ e. (length self.old < width) × (e ≡ refusal.Bad (length self.old))) }
    {
        let bytes = self.rest;
        if bytes.len() < width {
            return Err(Refusal::Bad { left: bytes.len() });
        }
        self.rest = rest_from(bytes, width);
        Ok(bytes)
    }

    /// How many bytes are left.
    pub(crate) fn left(&self) -> usize
        ensures { result ≡ length self.now }
    {
        self.rest.len()
    }

    /// The next text, without its closing zero, which need not be there; the cursor goes on behind it (gABI "String
    /// Table").
    #[tactic(auto, using(crate::proofs::TextsFound::text_passed))]
    pub(crate) fn text(&mut self) -> &'a [u8]
        ensures text { result.now ≡ before_first is_end self.old }
        ensures passed { self.new ≡ drop (length (before_first is_end self.old) + 1) self.old }
    {
        let bytes = self.rest;
        let text = front_of(bytes, text_size(bytes));
        self.rest = rest_from(rest_from(bytes, text.len()), 1);
        text
    }

    /// All bytes of the section are read.
    ///
    /// # Errors
    /// Bytes are left over.
    pub(crate) fn finish(&self) -> Result<(), Refusal>
        ensures { MatchResult result (λ _. self.now ≡ []) (λ e. (0 < length self.now) × (e ≡ refusal.Bad (length self.now))) }
    {
        if self.rest.is_empty() {
            Ok(())
        } else {
            Err(Refusal::Bad {
                left: self.rest.len(),
            })
        }
    }
}
