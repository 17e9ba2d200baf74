//! The look-ups of the words of inputs: which files are there, and which are missing.

ghost use Rattle.std.specs.Prelude.{◌≡◌, ◌≤◌, false, nat_lt, length, Contains, None, Some, IfOk, IfSome};
ghost use Rattle.std.specs.List.{AllByRecursion};
ghost use Rattle.lk_report.specs.FileMap.{FileMap};
ghost use Rattle.lk_model.specs.Inputs.{input_words, missing_path};
ghost use Rattle.lk_inputs.specs.Asked.{AskedInTurn, OneMisses, UnreadLast, UnreadNamed, WordsMiss, has_library, known_stats, word_look_ups, word_places, words_look_ups, words_places};
ghost use Rattle.lk_inputs.specs.InputsReading.{InputsLookedUp};
ghost use Rattle.lk_inputs.specs.LookUps.{SoughtGives, WordReported, WordsReported};
ghost use Rattle.lk_inputs.specs.Named.{word_seen, words_seen};
ghost use Rattle.lk_inputs.specs.FileAnswers.{UnreadCounts, known_map, known_reads};

use crate::input_words::{InputWord, input_words};
use crate::look_ups::{FoundFile, first_place};
use crate::places::{missing_path, places_of};
use crate::unread::{Unread, status_of};
use lk_model::commands::{Command, Word};
use lk_model::input_names::{InputName, InputNameList};
use lk_model::limits::MOST_INPUTS;
use lk_outside::Files;
use lk_report::{Fault, FaultList, LimitFault, LimitKind, List, NoMemory, Status};
use std::alloc::Global;

/// The inputs that the look-ups of words found, and those that are missing.
#[derive(Drop)]
pub struct Sought {
    /// The inputs whose files are there.
    pub names: InputNameList,
    /// The faults of the words whose files are not.
    pub missing: FaultList,
}

/// The input of a word whose file was found at a place.
fn name_at(row: InputWord<'_>, place: FoundFile) -> InputName
    ensures { result ≡ record { path = place.path; lib = row.entry.lib; mark = row.entry.word.now.mark; stamp = place.stamp } }
{
    InputName {
        path: place.path,
        lib: row.lib,
        mark: row.word.mark,
        stamp: place.stamp,
    }
}

/// Looks a word up.
fn look_up<F: Files>(
    alloc: Global,
    command: &Command,
    row: InputWord<'_>,
    files: &mut F,
) -> Result<Option<InputName>, Unread>
    ensures kept { known_map (F.state files.new) ≡ known_map (F.state files.old) }
    ensures unread { known_reads (F.state files.new) ≡ known_reads (F.state files.old) }
    ensures reported { (there : FileMap) → known_map (F.state files.old) ≡ Some there → WordReported command.now there (word_seen row.entry) result }
    ensures faults { UnreadCounts (F.state files.old) result (F.state files.new) }
    ensures asked { (there : FileMap) → known_map (F.state files.old) ≡ Some there → AskedInTurn (known_stats (F.state files.old)) (word_look_ups command.now there (word_seen row.entry)) result (known_stats (F.state files.new)) }
    ensures last { UnreadLast (F.state files.old) result (F.state files.new) }
    ensures misses { row.entry.word.now.library ≡ false → OneMisses (F.state files.old) result (F.state files.new) }
    ensures named { UnreadNamed (word_places command.now (word_seen row.entry)) result }
    ensures placed { IfOk result (λ found. IfSome found (λ name. Contains (word_places command.now (word_seen row.entry)) name.path)) }
{
    let places = places_of(alloc, command, row.word)?;
    match first_place(alloc, places.as_slice(), files)? {
        Some(place) => Ok(Some(name_at(row, place))),
        None => Ok(None),
    }
}

/// The fault of a word whose file is not there.
fn missing(alloc: Global, word: &Word) -> Result<Fault, NoMemory>
    ensures { IfOk result (λ fault. fault ≡ Fault.Missing (missing_path word.now)) }
{
    let path = missing_path(alloc, word)?;
    Ok(Fault::Missing { path })
}

/// Looks words up, one after another.
fn look_up_words<F: Files>(
    alloc: Global,
    command: &Command,
    rows: &[InputWord<'_>],
    files: &mut F,
) -> Result<Sought, Unread>
    ensures kept { known_map (F.state files.new) ≡ known_map (F.state files.old) }
    ensures unread { known_reads (F.state files.new) ≡ known_reads (F.state files.old) }
    ensures reported { (there : FileMap) → known_map (F.state files.old) ≡ Some there → WordsReported command.now there (words_seen rows.now) result }
    ensures faults { UnreadCounts (F.state files.old) result (F.state files.new) }
    ensures asked { (there : FileMap) → known_map (F.state files.old) ≡ Some there → AskedInTurn (known_stats (F.state files.old)) (words_look_ups command.now there (words_seen rows.now)) result (known_stats (F.state files.new)) }
    ensures last { UnreadLast (F.state files.old) result (F.state files.new) }
    ensures misses { has_library (words_seen rows.now) ≡ false → WordsMiss (λ sought. sought.missing) (F.state files.old) result (F.state files.new) }
    ensures named { UnreadNamed (words_places command.now (words_seen rows.now)) result }
    ensures placed { IfOk result (λ sought. AllByRecursion (λ name. Contains (words_places command.now (words_seen rows.now)) name.path) sought.names) }
    ensures within { IfOk result (λ sought. length sought.names ≤ length rows.now) }
{
    let mut names = List::new(alloc);
    let mut faults = List::new(alloc);
    for row in rows {
        match look_up(alloc, command, *row, files)? {
            Some(name) => names.push(name)?,
            None => faults.push(missing(alloc, row.word)?)?,
        }
    }
    Ok(Sought {
        names,
        missing: faults,
    })
}

/// Whether there is a fault.
fn has_faults(faults: &FaultList) -> bool
    ensures { result ≡ nat_lt 0 (length faults.now) }
{
    faults.as_slice().len() > 0
}

/// The inputs of a command, where none of them is missing.
///
/// # Errors
/// The faults of all missing inputs.
fn all_found(sought: Sought) -> Result<InputNameList, Status>
    ensures { SoughtGives sought result }
{
    let Sought { names, missing } = sought;
    if has_faults(&missing) {
        return Err(Status::LinkError(missing));
    }
    Ok(names)
}

/// Looks the inputs of a command up, in command order, a library at one place after another.
///
/// # Errors
/// More inputs than 4,096, reported before a look-up; a look-up that failed, as soon as it did; all inputs that
/// are not there, in command order; out of memory.
pub fn look_up_inputs<F: Files>(
    alloc: Global,
    command: &Command,
    files: &mut F,
) -> Result<InputNameList, Status>
    ensures { InputsLookedUp command.now (F.state files.old) result (F.state files.new) }
{
    let Ok(rows) = input_words(alloc, command.items.as_slice()) else {
        return Err(Status::NoMemory);
    };
    let count = rows.as_slice().len();
    if count as u64 > MOST_INPUTS {
        return Err(Status::Limit(LimitFault {
            which: LimitKind::Inputs,
            number: count as u64,
        }));
    }
    match look_up_words(alloc, command, rows.as_slice(), files) {
        Ok(sought) => all_found(sought),
        Err(unread) => Err(status_of(unread)),
    }
}
