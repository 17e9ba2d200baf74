//! The commit of ranges of a file.

ghost use Rattle.std.specs.Prelude.{◌<◌, length as list_length};
ghost use Rattle.std.specs.List.{AllByRecursion};
ghost use Rattle.std.specs.Option.{ForSome};
ghost use Rattle.lk_commit.specs.CrashStates.{BeginInTurn, CommitGives, IsBesideSeal, StageGives, sealed, updated};
ghost use Rattle.lk_commit.specs.Stages.{AreWritten, IsUnsealed, IsUpdateWritten, StaysOpen};

use crate::contents::cut_to;
use crate::opening::open_file;
use crate::sealing::put_seal;
use lk_outside::{Answer, Device};
use lk_ranges::Range;

/// Writes ranges into the file of a device, one after another, and gives it this length in bytes, which is above
/// 4,096, and the seal at its place. No range has a byte of the seal, and the file is longer than 4,096 bytes.
///
/// Stopped at any moment it leaves the old file, the new one, or one without a seal. After a failure the file is one
/// of these too.
pub fn commit_update<D: Device>(device: &mut D, writes: &[Range], length: u64) -> Answer
    requires long { 4096 < length }
    requires apart { AllByRecursion IsBesideSeal writes.now }
    requires file { ForSome (D.disk device.old).stored (λ s. 4096 < list_length s.bytes) }
    requires in_turn { ForSome (D.disk device.old).stored (λ s. BeginInTurn (list_length s.bytes) writes.now) }
    ensures { CommitGives (λ old. sealed (updated writes.now length old)) (D.disk device.old) result (D.disk device.new) }
{
    match open_file(device) {
        Answer::Done => match put_ranges(device, writes, length) {
            Answer::Done => put_seal(device),
            Answer::Failed => Answer::Failed,
        },
        Answer::Failed => Answer::Failed,
    }
}

/// Writes the ranges, cuts a longer file, and keeps that.
fn put_ranges<D: Device>(device: &mut D, writes: &[Range], length: u64) -> Answer
    requires long { 4096 < length }
    requires apart { AllByRecursion IsBesideSeal writes.now }
    requires unsealed { ForSome (D.disk device.old).stored IsUnsealed }
    requires in_turn { ForSome (D.disk device.old).stored (λ s. BeginInTurn (list_length s.bytes) writes.now) }
    ensures { StageGives (IsUpdateWritten writes.now length) StaysOpen (D.disk device.old) result (D.disk device.new) }
{
    match write_ranges(device, writes) {
        Answer::Done => match cut_to(device, length) {
            Answer::Done => device.sync(),
            Answer::Failed => Answer::Failed,
        },
        Answer::Failed => Answer::Failed,
    }
}

/// Writes the ranges one after another.
fn write_ranges<D: Device>(device: &mut D, writes: &[Range]) -> Answer
    requires apart { AllByRecursion IsBesideSeal writes.now }
    requires unsealed { ForSome (D.disk device.old).stored IsUnsealed }
    requires in_turn { ForSome (D.disk device.old).stored (λ s. BeginInTurn (list_length s.bytes) writes.now) }
    ensures { StageGives (AreWritten writes.now) StaysOpen (D.disk device.old) result (D.disk device.new) }
{
    for range in writes {
        match device.write_at(range.start(), range.bytes()) {
            Answer::Done => {}
            Answer::Failed => return Answer::Failed,
        }
    }
    Answer::Done
}
