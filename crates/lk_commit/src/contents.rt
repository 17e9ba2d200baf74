//! The second stage of a commit: the contents are written, but for the place of the seal.

ghost use Rattle.std.specs.Prelude.{◌≡◌, ◌≤◌, ◌<◌, drop, length as list_length, take};
ghost use Rattle.std.specs.Option.{ForSome};
ghost use Rattle.lk_commit.specs.CrashStates.{StageGives};
ghost use Rattle.lk_commit.specs.Stages.{IsCutTo, IsImageWritten, IsPartWritten, IsUnsealed, StaysOpen};

use lk_model::images::{SEAL, SEAL_OFFSET};
use lk_outside::{Answer, Device, LengthAnswer};

/// Writes an image in place of what the file has, but for the place of the seal, and keeps that.
pub(crate) fn put_image<D: Device>(device: &mut D, image: &[u8]) -> Answer
    requires long { 4096 < list_length image.now }
    requires unsealed { ForSome (D.disk device.old).stored IsUnsealed }
    ensures { StageGives (IsImageWritten image.now) StaysOpen (D.disk device.old) result (D.disk device.new) }
{
    match write_image(device, image) {
        Answer::Done => match cut_to(device, image.len() as u64) {
            Answer::Done => device.sync(),
            Answer::Failed => Answer::Failed,
        },
        Answer::Failed => Answer::Failed,
    }
}

/// Writes what is before the place of the seal, and what is behind it.
fn write_image<D: Device>(device: &mut D, image: &[u8]) -> Answer
    requires long { 4096 < list_length image.now }
    requires unsealed { ForSome (D.disk device.old).stored IsUnsealed }
    ensures { StageGives (IsPartWritten image.now) StaysOpen (D.disk device.old) result (D.disk device.new) }
{
    let (headers, rest) = image.split_at(SEAL_OFFSET);
    let (_, sections) = rest.split_at(SEAL.len());
    match device.write_at(0, headers) {
        Answer::Done => device.write_at((SEAL_OFFSET + SEAL.len()) as u64, sections),
        Answer::Failed => Answer::Failed,
    }
}

/// Cuts a longer file to this length.
pub(crate) fn cut_to<D: Device>(device: &mut D, length: u64) -> Answer
    requires long { 4096 < length }
    requires unsealed { ForSome (D.disk device.old).stored IsUnsealed }
    ensures { StageGives (IsCutTo length) StaysOpen (D.disk device.old) result (D.disk device.new) }
{
    match device.length() {
        LengthAnswer::Known(now) => {
            if now > length {
                device.cut(length)
            } else {
                Answer::Done
            }
        }
        LengthAnswer::Failed => Answer::Failed,
    }
}
