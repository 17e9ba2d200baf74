//! The limit that an image has on its length (this project's own).

ghost use Rattle.lk_image.specs.ImageAnswers.{LengthAnswers};

use lk_model::limits::MOST_IMAGE_BYTES;
use lk_report::{LimitFault, LimitKind, Status};

/// Whether an image of `length` bytes is made.
///
/// # Errors
/// The limit on the length of an image.
#[tactic(auto, using(crate::proofs::Refusals::too_long))]
pub(crate) fn check_length(length: u64) -> Result<(), Status>
    ensures { LengthAnswers length result }
{
    if length > MOST_IMAGE_BYTES {
        return Err(Status::Limit(LimitFault {
            which: LimitKind::Image,
            number: length,
        }));
    }
    Ok(())
}
