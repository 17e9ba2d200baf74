//! The one output file of a link: the trait `Device`.

ghost use Rattle.std.specs.Prelude.{length as list_length};
ghost use Rattle.lk_outside.specs.Disk.{Disk, RangeLiesIn, IsAtMostEnd, LengthGives, ReadAtGives, WriteAtGives, CutGives, SyncGives};

use lk_report::Answer;

/// The answer of a device to the question for its length.
#[derive(Clone, Copy, PartialEq, Eq, Debug)]
pub enum LengthAnswer {
    /// The length in bytes; an absent file has length 0.
    Known(u64),
    /// The question failed, and the count of faults rose.
    Failed,
}

/// The output file. Its meaning is the file's bytes and the ranges written, where it reports these,
/// and a count of faults that never falls. Places and lengths are in bytes from the file's start.
///
/// A device that reports its bytes asks its callers for ranges that lie in the file, so that no caller
/// makes a fault by itself. One that reports nothing answers Failed there and counts it.
pub trait Device {
    /// The file's bytes, the ranges that were written, and how often a call failed.
    ghost disk: { Self → Disk };

    /// The file's length.
    fn length(&mut self) -> LengthAnswer
        ensures { LengthGives (disk self.old) result (disk self.new) };

    /// Fills the slice with the bytes from this place on. After a failure the slice may hold any
    /// bytes.
    fn read_at(&mut self, at: u64, into: &mut [u8]) -> Answer
        requires range_lies_in_the_file { RangeLiesIn at (list_length into.old) (disk self.old) }
        ensures { ReadAtGives (disk self.old) at into.old into.new result (disk self.new) };

    /// Writes the bytes at this place, past the end too. After a failure the range may hold any
    /// bytes, and the file may have grown up to the range's end.
    fn write_at(&mut self, at: u64, bytes: &[u8]) -> Answer
        requires begins_at_most_at_the_end { IsAtMostEnd at (disk self.old) }
        ensures { WriteAtGives (disk self.old) at bytes.now result (disk self.new) };

    /// Cuts the file to this length. After a failure the length is the old or the new one.
    fn cut(&mut self, length: u64) -> Answer
        requires not_longer_than_the_file { IsAtMostEnd length (disk self.old) }
        ensures { CutGives (disk self.old) length result (disk self.new) };

    /// Waits until all that was written and cut would outlast a crash.
    fn sync(&mut self) -> Answer
        ensures { SyncGives (disk self.old) result (disk self.new) };
}
