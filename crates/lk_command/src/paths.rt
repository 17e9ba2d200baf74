//! The directories that a command names.

ghost use Rattle.std.specs.Prelude.{◌≡◌, ◌∷◌, ◌++◌, IfOk, OnOk, flat_map, map, if◌then◌else◌, option_to_list};
ghost use Rattle.std.specs.List.{join_with_byte};
ghost use Rattle.std.specs.Option.{option_copied};
ghost use Rattle.lk_model.specs.Grammar.{dirs_of as dirs_model, run_dirs_of};
ghost use Rattle.lk_command.specs.Seen.{phrase_seen};

use crate::meanings::Valued;
use crate::phrases::Phrase;
use lk_report::{List, Name, NameList, NoMemory};
use std::alloc::Global;

/// The directory that a phrase adds to the search.
fn dir_of<'a>(phrase: &Phrase<'a>) -> Option<&'a [u8]>
    ensures { option_to_list (option_copied result) ≡ dirs_model (phrase_seen phrase.now) }
{
    match *phrase {
        Phrase::Given(given) => match given.option {
            Valued::Dir => given.value,
            _ => None,
        },
        _ => None,
    }
}

/// The directory that a phrase adds to the run path.
fn run_dir_of<'a>(phrase: &Phrase<'a>) -> Option<&'a [u8]>
    ensures { option_to_list (option_copied result) ≡ run_dirs_of (phrase_seen phrase.now) }
{
    match *phrase {
        Phrase::Given(given) => match given.option {
            Valued::RunPath => given.value,
            _ => None,
        },
        _ => None,
    }
}

/// The directories to search, in order.
pub(crate) fn dirs_of(alloc: Global, phrases: &[Phrase<'_>]) -> Result<NameList, NoMemory>
    ensures { IfOk result (λ dirs. dirs ≡ flat_map dirs_model (map phrase_seen phrases.now)) }
{
    let mut dirs = List::new(alloc);
    for phrase in phrases {
        if let Some(dir) = dir_of(phrase) {
            dirs.push(Name::from_slice(alloc, dir)?)?;
        }
    }
    Ok(dirs)
}

/// Puts a directory after those of a run path, with a colon between.
fn put_dir(path: &mut Vec<u8>, first: bool, dir: &[u8]) -> Result<(), NoMemory>
    ensures { OnOk result (path.new.items ≡ path.old.items ++ (if first then dir.now else 58 ∷ dir.now)) }
{
    if !first && path.push(b':').is_err() {
        return Err(NoMemory);
    }
    match path.extend_from_slice(dir) {
        Ok(()) => Ok(()),
        Err(_) => Err(NoMemory),
    }
}

/// The run path: its directories with a colon between each two.
pub(crate) fn run_path_of(alloc: Global, phrases: &[Phrase<'_>]) -> Result<Name, NoMemory>
    ensures { IfOk result (λ path. path ≡ join_with_byte 58 (flat_map run_dirs_of (map phrase_seen phrases.now))) }
{
    let mut path = Vec::new(alloc);
    let mut first = true;
    for phrase in phrases {
        if let Some(dir) = run_dir_of(phrase) {
            put_dir(&mut path, first, dir)?;
            first = false;
        }
    }
    Name::from_vec(path)
}
