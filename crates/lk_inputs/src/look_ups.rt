//! Looking for a file at one place after another.

ghost use Rattle.std.specs.Prelude.{◌≡◌, ◌∷◌, [], length, Contains, Some, IfOk, IfSome};
ghost use Rattle.lk_report.specs.FileMap.{FileMap};
ghost use Rattle.lk_inputs.specs.Asked.{AskedInTurn, OneMisses, StatAsked, StatLast, StatMisses, UnreadLast, UnreadNamed, looked_up_to, known_stats};
ghost use Rattle.lk_inputs.specs.LookUps.{FirstPlaceReported, PlaceReported};
ghost use Rattle.lk_inputs.specs.FileAnswers.{IsFailed, StatCounts, StatReported, UnreadCounts, known_map, known_reads};

use crate::unread::Unread;
use lk_outside::{Files, StatAnswer};
use lk_report::{Name, NoMemory, Stamp};
use std::alloc::Global;

/// Where a file was found.
#[derive(Drop)]
pub struct FoundFile {
    pub path: Name,
    /// The file's stamp, where it has one.
    pub stamp: Option<Stamp>,
}

/// Looks a path up.
#[tactic(auto, using(crate::proofs::CallsReported::stat_keeps, crate::proofs::CallsReported::stat_unread, crate::proofs::CallsReported::stat_reports, crate::proofs::CallsReported::stat_counts, crate::proofs::CallsAsked::stat_asked, crate::proofs::CallsAsked::stat_last, crate::proofs::CallsAsked::stat_misses))]
fn stat<F: Files>(files: &mut F, path: &Name) -> StatAnswer
    ensures kept { known_map (F.state files.new) ≡ known_map (F.state files.old) }
    ensures unread { known_reads (F.state files.new) ≡ known_reads (F.state files.old) }
    ensures reported { (there : FileMap) → known_map (F.state files.old) ≡ Some there → StatReported there path.now result }
    ensures faults { StatCounts (F.state files.old) path.now result (F.state files.new) }
    ensures asked { StatAsked (known_stats (F.state files.old)) path.now result (known_stats (F.state files.new)) }
    ensures last { StatLast (F.state files.old) result (F.state files.new) }
    ensures misses { StatMisses (F.state files.old) result (F.state files.new) }
{
    files.stat(path)
}

/// A place with a copy of its path.
fn place_at(alloc: Global, path: &Name, stamp: Option<Stamp>) -> Result<FoundFile, NoMemory>
    ensures { IfOk result (λ place. place ≡ record { path = path.now; stamp = stamp }) }
{
    let path = path.copy(alloc)?;
    Ok(FoundFile { path, stamp })
}

/// The answer where a call of this path failed.
pub fn failed_at(alloc: Global, path: &Name) -> Unread
    ensures { IsFailed path.now result }
{
    match path.copy(alloc) {
        Ok(path) => Unread::Failed(path),
        Err(NoMemory) => Unread::NoMemory,
    }
}

/// Looks for a file at one place.
fn look_at<F: Files>(alloc: Global, path: &Name, files: &mut F) -> Result<Option<FoundFile>, Unread>
    ensures kept { known_map (F.state files.new) ≡ known_map (F.state files.old) }
    ensures unread { known_reads (F.state files.new) ≡ known_reads (F.state files.old) }
    ensures reported { (there : FileMap) → known_map (F.state files.old) ≡ Some there → PlaceReported there path.now result }
    ensures faults { UnreadCounts (F.state files.old) result (F.state files.new) }
    ensures asked { AskedInTurn (known_stats (F.state files.old)) (path.now ∷ []) result (known_stats (F.state files.new)) }
    ensures last { UnreadLast (F.state files.old) result (F.state files.new) }
    ensures misses { OneMisses (F.state files.old) result (F.state files.new) }
    ensures named { UnreadNamed (path.now ∷ []) result }
    ensures placed { IfOk result (λ found. IfSome found (λ place. place.path ≡ path.now)) }
{
    match stat(files, path) {
        StatAnswer::Found(stamp) => Ok(Some(place_at(alloc, path, stamp)?)),
        StatAnswer::Absent => Ok(None),
        StatAnswer::Failed => Err(failed_at(alloc, path)),
        StatAnswer::NoMemory => Err(Unread::NoMemory),
    }
}

/// The first place that has a file. Each place is looked at once, until one has a file.
///
/// # Errors
/// A look-up that failed, or out of memory.
pub fn first_place<F: Files>(
    alloc: Global,
    places: &[Name],
    files: &mut F,
) -> Result<Option<FoundFile>, Unread>
    ensures kept { known_map (F.state files.new) ≡ known_map (F.state files.old) }
    ensures unread { known_reads (F.state files.new) ≡ known_reads (F.state files.old) }
    ensures reported { (there : FileMap) → known_map (F.state files.old) ≡ Some there → FirstPlaceReported there places.now result }
    ensures faults { UnreadCounts (F.state files.old) result (F.state files.new) }
    ensures asked { (there : FileMap) → known_map (F.state files.old) ≡ Some there → AskedInTurn (known_stats (F.state files.old)) (looked_up_to there places.now) result (known_stats (F.state files.new)) }
    ensures last { UnreadLast (F.state files.old) result (F.state files.new) }
    ensures misses { length places.now ≡ 1 → OneMisses (F.state files.old) result (F.state files.new) }
    ensures named { UnreadNamed places.now result }
    ensures placed { IfOk result (λ found. IfSome found (λ place. Contains places.now place.path)) }
{
    for path in places {
        if let Some(place) = look_at(alloc, path, files)? {
            return Ok(Some(place));
        }
    }
    Ok(None)
}
