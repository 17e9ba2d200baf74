//! The commit of a whole image.

ghost use Rattle.std.specs.Prelude.{◌<◌, length};
ghost use Rattle.lk_commit.specs.CrashStates.{CommitGives, sealed};

use crate::contents::put_image;
use crate::opening::open_file;
use crate::sealing::put_seal;
use lk_outside::{Answer, Device};

/// Replaces the file of a device by an image of more than 4,096 bytes, with the seal at its place.
///
/// Stopped at any moment it leaves the old file, the new one, or one without a seal. After a failure the file is one
/// of these too.
pub fn commit_full<D: Device>(device: &mut D, image: &[u8]) -> Answer
    requires { 4096 < length image.now }
    ensures { CommitGives (λ old. sealed image.now) (D.disk device.old) result (D.disk device.new) }
{
    match open_file(device) {
        Answer::Done => match put_image(device, image) {
            Answer::Done => put_seal(device),
            Answer::Failed => Answer::Failed,
        },
        Answer::Failed => Answer::Failed,
    }
}
