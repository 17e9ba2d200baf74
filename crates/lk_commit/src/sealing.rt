//! The last stage of a commit: the seal is written.

ghost use Rattle.std.specs.Prelude.{◌≤◌, length};
ghost use Rattle.std.specs.Option.{ForSome};
ghost use Rattle.lk_commit.specs.CrashStates.{StageGives};
ghost use Rattle.lk_commit.specs.Stages.{HasNoSeal, IsKept, IsSealed, IsUnfinished};

use lk_model::images::{SEAL, SEAL_OFFSET};
use lk_outside::{Answer, Device};

/// Writes the seal at its place in a file that is kept and has none, and keeps that.
pub(crate) fn put_seal<D: Device>(device: &mut D) -> Answer
    requires kept { ForSome (D.disk device.old).stored IsKept }
    requires no_seal { ForSome (D.disk device.old).stored (λ s. HasNoSeal s.bytes) }
    ensures { StageGives IsSealed IsUnfinished (D.disk device.old) result (D.disk device.new) }
{
    match device.write_at(SEAL_OFFSET as u64, SEAL) {
        Answer::Done => device.sync(),
        Answer::Failed => Answer::Failed,
    }
}
