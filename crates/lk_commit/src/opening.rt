//! The first stage of a commit: the old seal is broken.

ghost use Rattle.std.specs.Prelude.{◌≡◌, ◌≤◌, ◌<◌, true, length};
ghost use Rattle.std.specs.Option.{ForSome};
ghost use Rattle.lk_model.specs.Bases.{is_sealed};
ghost use Rattle.lk_commit.specs.CrashStates.{StageGives};
ghost use Rattle.lk_commit.specs.Stages.{IsBroken, IsFileOpened, IsFileUnopened, IsKept, IsKeptOpened, IsKeptUnopened, IsLeftShort, IsMadeZeros, IsUnbroken};

use lk_model::images::{SEAL, SEAL_OFFSET};
use lk_outside::{Answer, Device, LengthAnswer};

/// Where the sections of an image begin, in bytes: a file that ends there or before is no base.
const HEADERS: usize = 4096;

/// Keeps the file as it is, and then breaks its seal, where it has one, and keeps that. A file that is shorter than
/// the headers becomes zeros of their length.
pub(crate) fn open_file<D: Device>(device: &mut D) -> Answer
    ensures { StageGives IsFileOpened IsFileUnopened (D.disk device.old) result (D.disk device.new) }
{
    match device.sync() {
        Answer::Done => open_kept(device),
        Answer::Failed => Answer::Failed,
    }
}

/// The same of a file that is kept.
fn open_kept<D: Device>(device: &mut D) -> Answer
    requires { ForSome (D.disk device.old).stored IsKept }
    ensures { StageGives IsKeptOpened IsKeptUnopened (D.disk device.old) result (D.disk device.new) }
{
    match device.length() {
        LengthAnswer::Known(length) => {
            if length < HEADERS as u64 {
                make_zeros(device)
            } else {
                break_seal(device)
            }
        }
        LengthAnswer::Failed => Answer::Failed,
    }
}

/// Makes a short file zeros of the length of the headers.
fn make_zeros<D: Device>(device: &mut D) -> Answer
    requires kept { ForSome (D.disk device.old).stored IsKept }
    requires short { ForSome (D.disk device.old).stored (λ s. length s.bytes < 4096) }
    ensures { StageGives IsMadeZeros IsLeftShort (D.disk device.old) result (D.disk device.new) }
{
    match device.cut(0) {
        Answer::Done => match device.write_at(0, &[0u8; HEADERS]) {
            Answer::Done => device.sync(),
            Answer::Failed => Answer::Failed,
        },
        Answer::Failed => Answer::Failed,
    }
}

/// Breaks the seal of a file that has the headers, where it has one.
fn break_seal<D: Device>(device: &mut D) -> Answer
    requires kept { ForSome (D.disk device.old).stored IsKept }
    requires long { ForSome (D.disk device.old).stored (λ s. 4096 ≤ length s.bytes) }
    ensures { StageGives IsBroken IsUnbroken (D.disk device.old) result (D.disk device.new) }
{
    let mut found = [0u8; 8];
    match device.read_at(SEAL_OFFSET as u64, &mut found) {
        Answer::Done => {
            if found.as_slice() == SEAL {
                clear_seal(device)
            } else {
                Answer::Done
            }
        }
        Answer::Failed => Answer::Failed,
    }
}

/// Writes zeros over the seal of a file, and keeps that.
fn clear_seal<D: Device>(device: &mut D) -> Answer
    requires kept { ForSome (D.disk device.old).stored IsKept }
    requires long { ForSome (D.disk device.old).stored (λ s. 4096 ≤ length s.bytes) }
    requires sealed { ForSome (D.disk device.old).stored (λ s. is_sealed s.bytes ≡ true) }
    ensures { StageGives IsBroken IsUnbroken (D.disk device.old) result (D.disk device.new) }
{
    match device.write_at(SEAL_OFFSET as u64, &[0u8; 8]) {
        Answer::Done => device.sync(),
        Answer::Failed => Answer::Failed,
    }
}
