//! Ranges that tasks have handed back.

ghost use Rattle.std.specs.Prelude.{◌≡◌, ◌+◌, ◌<◌, ◌≤◌, true, false, [], length, IfOk};
ghost use Rattle.std.specs.List.{All};
ghost use Rattle.std.specs.List.Sorted.{IsNonDecreasingBy, IsPartitionPoint};
ghost use Rattle.std.specs.Vec.{vec_capacity, vec_len};
ghost use Rattle.lk_ranges.specs.Stretches.{Stretch, begins_by, bytes_of, end_of, handed_back, start_of, with_stretches};

use crate::range::{Range, write_range};
use lk_report::{Bytes, NoMemory};
use std::alloc::Global;
use std::marker::Model;

/// Ranges by rising start. Contracts see their list, and how many more fit in without taking memory.
#[derive(Drop, Debug)]
pub struct Ranges {
    list: Vec<Range>,
}

impl Model for Ranges {
    ghost use Rattle.std.specs.Prelude.{◌-◌};
    ghost use Rattle.std.specs.List.Sorted.{IsNonDecreasingBy};
    ghost use Rattle.std.specs.Vec.{vec_capacity, vec_len};
    ghost use Rattle.lk_ranges.specs.Stretches.{Gathered, start_of};

    ghost Value = { Gathered };

    ghost view = { λ r. record { list = r.list.items; spare = vec_capacity r.list - vec_len r.list } };

    ghost invariant = { λ r. IsNonDecreasingBy start_of r.list.items };
}

/// Whether a range begins at an offset or before it.
fn begins_by(range: &Range, start: u64) -> bool
    ensures { result ≡ begins_by start range.now }
{
    range.start() <= start
}

/// How many ranges begin at an offset or before it.
fn first_after(list: &[Range], start: u64) -> usize
    requires { IsNonDecreasingBy start_of list.now }
    ensures within { result ≤ length list.now }
    ensures parted { IsPartitionPoint (λ (r : Stretch). begins_by start r ≡ true) (λ (r : Stretch). begins_by start r ≡ false) list.now result }
{
    list.partition_point(|range| begins_by(range, start))
}

/// Puts a range behind those that begin where it does or before. Its place is found by halving.
fn put_back(list: &mut Vec<Range>, range: Range)
    requires room { vec_len list.old < vec_capacity list.old }
    requires rising { IsNonDecreasingBy start_of list.old.items }
    ensures put { list.new.items ≡ handed_back list.old.items range }
    ensures spare { vec_len list.new + vec_capacity list.old ≤ vec_capacity list.new + vec_len list.old + 1 }
{
    let at = first_after(list.as_slice(), range.start());
    let _done = list.insert(at, range);
}

/// Writes ranges into the bytes of a file.
fn write_all(file: &mut [u8], list: &[Range])
    requires { All (λ (r : Stretch). end_of r ≤ length file.old) list.now }
    ensures { file.new ≡ with_stretches file.old list.now }
{
    for range in list {
        write_range(file, range);
    }
}

impl Ranges {
    /// No range, with room for so many.
    ///
    /// # Errors
    /// Out of memory alone.
    pub fn reserve(alloc: Global, room: usize) -> Result<Ranges, NoMemory>
        ensures { IfOk result (λ r. (r.list ≡ []) × (room ≤ r.spare)) }
    {
        match Vec::with_capacity(alloc, room) {
            Ok(list) => Ok(Ranges { list }),
            Err(_) => Err(NoMemory),
        }
    }

    /// Adds a range, by its start.
    pub fn hand_back(&mut self, range: Range)
        requires { 0 < self.old.spare }
        ensures list { self.new.list ≡ handed_back self.old.list range }
        ensures spare { self.old.spare ≤ self.new.spare + 1 }
    {
        put_back(&mut self.list, range);
    }

    /// The ranges by rising start.
    pub fn list(&self) -> &[Range]
        ensures list { result.now ≡ self.now.list }
        ensures rising { IsNonDecreasingBy start_of self.now.list }
    {
        self.list.as_slice()
    }

    /// The bytes of a file of this length: those of each range at its start, and 0 elsewhere.
    ///
    /// # Errors
    /// Out of memory alone.
    pub fn as_bytes(&self, alloc: Global, size: u64) -> Result<Bytes, NoMemory>
        requires { All (λ (r : Stretch). end_of r ≤ size) self.now.list }
        ensures { IfOk result (λ bytes. bytes ≡ bytes_of self.now.list size) }
    {
        let Ok(mut bytes) = Vec::from_elem(alloc, 0u8, size as usize) else {
            return Err(NoMemory);
        };
        write_all(bytes.as_mut_slice(), self.list.as_slice());
        Bytes::from_vec(bytes)
    }
}
