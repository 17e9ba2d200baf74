//! What the program answers.

ghost use Rattle.std.specs.Prelude.{◌≡◌, Some};
ghost use Rattle.lk_report.specs.FileMap.{FileMap};
ghost use Rattle.lk_inputs.specs.FileAnswers.{StatusCounts, known_map};
ghost use Rattle.lk_probe.specs.Answering.{Answers};

use crate::arguments::Asked;
use crate::file_texts::file_reported;
use crate::load_texts::load_reported;
use crate::resolution_texts::reported;
use crate::rows::places_reported;
use lk_outside::Files;
use lk_report::{Bytes, Status};
use std::alloc::Global;

/// What is said of what is asked for, or the status that is reported in its place.
///
/// # Errors
/// Those of `file_reported`, `load_reported`, `reported` and `places_reported`.
pub fn answer_to<F: Files>(alloc: Global, asked: Asked, files: &mut F) -> Result<Bytes, Status>
    ensures reported { (there : FileMap) → known_map (F.state files.old) ≡ Some there → Answers asked there result }
    ensures faults { StatusCounts (F.state files.old) result (F.state files.new) }
{
    match asked {
        Asked::Read(path) => file_reported(alloc, path, files),
        Asked::Load(path) => load_reported(alloc, path, files),
        Asked::Resolve(words) => reported(alloc, &words, files),
        Asked::Layout(words) => places_reported(alloc, &words, files),
    }
}
