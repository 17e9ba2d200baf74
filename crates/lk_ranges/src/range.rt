//! One range of a file's bytes.

ghost use Rattle.std.specs.Prelude.{◌≡◌, ◌+◌, ◌-◌, ◌^◌, ◌<◌, ◌≤◌, length, take, drop, MatchResult, IfOk};
ghost use Rattle.lk_ranges.specs.Stretches.{IsParted, end_of, patched, written};

use lk_report::NoMemory;
use std::alloc::Global;
use std::marker::Model;

/// The bytes of a stretch of a file, from an offset on. It ends at 2^64 - 1 at most.
#[derive(Drop, Debug)]
pub struct Range {
    start: u64,
    bytes: Vec<u8>,
}

impl Model for Range {
    ghost use Rattle.std.specs.Prelude.{◌+◌, ◌^◌, ◌<◌, length};
    ghost use Rattle.lk_ranges.specs.Stretches.{Stretch};

    ghost Value = { Stretch };

    ghost view = { λ r. record { start = r.start; bytes = r.bytes.items } };

    ghost invariant = { λ r. r.start + length r.bytes.items < 2 ^ 64 };
}

/// Writes bytes over those from a place on.
fn write_at(into: &mut [u8], at: usize, bytes: &[u8])
    requires { at + length bytes.now ≤ length into.old }
    ensures { into.new ≡ patched into.old at bytes.now }
{
    into[at..at + bytes.len()].copy_from_slice(bytes);
}

impl Range {
    /// The range of a copy of these bytes, which begins at an offset in the file.
    ///
    /// # Errors
    /// Out of memory alone.
    pub fn from_slice(alloc: Global, start: u64, bytes: &[u8]) -> Result<Range, NoMemory>
        requires { start + length bytes.now < 2 ^ 64 }
        ensures { IfOk result (λ r. r ≡ record { start = start; bytes = bytes.now }) }
    {
        match Vec::from_slice(alloc, bytes) {
            Ok(bytes) => Ok(Range { start, bytes }),
            Err(_) => Err(NoMemory),
        }
    }

    /// The offset of the first byte in the file.
    pub fn start(&self) -> u64
        ensures start { result ≡ self.now.start }
        ensures within { end_of self.now < 2 ^ 64 }
    {
        self.start
    }

    /// The bytes.
    pub fn bytes(&self) -> &[u8]
        ensures { result.now ≡ self.now.bytes }
    {
        self.bytes.as_slice()
    }

    /// Writes bytes at an offset in the file, which lie in the range.
    pub fn write(&mut self, at: u64, bytes: &[u8])
        requires from { self.old.start ≤ at }
        requires to { at + length bytes.now ≤ end_of self.old }
        ensures { self.new ≡ written self.old at bytes.now }
    {
        let from = (at - self.start) as usize;
        write_at(self.bytes.as_mut_slice(), from, bytes);
    }

    /// The parts of the range before an offset in the file and from it on.
    ///
    /// # Errors
    /// Out of memory alone. The range is then handed back.
    pub fn split(self, alloc: Global, at: u64) -> Result<(Range, Range), Range>
        requires from { self.start ≤ at }
        requires to { at ≤ end_of self }
        ensures { MatchResult result (λ parts. IsParted self at parts.0 parts.1) (λ range. range ≡ self) }
    {
        let Range { start, mut bytes } = self;
        let from = (at - start) as usize;
        match tail_of(alloc, bytes.as_slice(), from) {
            Ok(tail) => {
                bytes.truncate(from);
                Ok((
                    Range { start, bytes },
                    Range {
                        start: at,
                        bytes: tail,
                    },
                ))
            }
            Err(_) => Err(Range { start, bytes }),
        }
    }
}

/// A copy of the bytes from a place on.
fn tail_of(alloc: Global, bytes: &[u8], from: usize) -> Result<Vec<u8>, NoMemory>
    requires { from ≤ length bytes.now }
    ensures { IfOk result (λ tail. tail.items ≡ drop from bytes.now) }
{
    let (_, tail) = bytes.split_at(from);
    match Vec::from_slice(alloc, tail) {
        Ok(tail) => Ok(tail),
        Err(_) => Err(NoMemory),
    }
}

/// Writes the bytes of a range at their offsets in a file.
pub(crate) fn write_range(file: &mut [u8], range: &Range)
    requires { end_of range.now ≤ length file.old }
    ensures { file.new ≡ patched file.old range.now.start range.now.bytes }
{
    write_at(file, range.start() as usize, range.bytes());
}
