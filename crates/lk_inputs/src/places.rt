//! Where the file of an input's word is looked for: a path at itself, a library `NAME` as `libNAME.so` in
//! the directories of the command and then in the standard ones.

ghost use Rattle.std.specs.Prelude.{◌≡◌, ◌∷◌, [], ◌++◌, ℕ, List, codes, map, IfOk, OnOk};
ghost use Rattle.lk_model.specs.Inputs.{candidates_of, missing_path, places_of, standard_dirs};
ghost use Rattle.lk_inputs.specs.Candidates.{candidate_in};

use lk_model::commands::{Command, Word};
use lk_report::{List, Name, NameList, NoMemory};
use std::alloc::Global;

/// The directories that every search ends with, in order.
const LAST_DIRS: [&[u8]; 2] = [b"/usr/lib", b"/lib"];

/// Puts bytes at the end.
fn put_bytes(out: &mut Vec<u8>, bytes: &[u8]) -> Result<(), NoMemory>
    ensures { OnOk result (out.new.items ≡ out.old.items ++ bytes.now) }
{
    match out.extend_from_slice(bytes) {
        Ok(()) => Ok(()),
        Err(_) => Err(NoMemory),
    }
}

/// The path of a library in a directory.
fn candidate(alloc: Global, dir: &[u8], name: &Name) -> Result<Name, NoMemory>
    ensures { IfOk result (λ path. path ≡ candidate_in name.now dir.now) }
{
    let mut path = Vec::new(alloc);
    put_bytes(&mut path, dir)?;
    put_bytes(&mut path, b"/lib")?;
    put_bytes(&mut path, name.as_slice())?;
    put_bytes(&mut path, b".so")?;
    Name::from_vec(path)
}

/// The paths of a library in directories, in order.
fn candidates_in(alloc: Global, dirs: &[Name], name: &Name) -> Result<NameList, NoMemory>
    ensures { IfOk result (λ places. places ≡ map (candidate_in name.now) dirs.now) }
{
    let mut places = List::new(alloc);
    for dir in dirs {
        places.push(candidate(alloc, dir.as_slice(), name)?)?;
    }
    Ok(places)
}

/// The paths of a library, in order.
fn candidates_of(alloc: Global, command: &Command, name: &Name) -> Result<NameList, NoMemory>
    ensures { IfOk result (λ places. places ≡ candidates_of command.now name.now) }
{
    let [first, last] = LAST_DIRS;
    let mut places = candidates_in(alloc, command.dirs.as_slice(), name)?;
    places.push(candidate(alloc, first, name)?)?;
    places.push(candidate(alloc, last, name)?)?;
    Ok(places)
}

/// The paths where the file of a word is looked for, in order.
///
/// # Errors
/// Out of memory alone.
pub fn places_of(alloc: Global, command: &Command, word: &Word) -> Result<NameList, NoMemory>
    ensures { IfOk result (λ places. places ≡ places_of command.now word.now) }
{
    if word.library {
        return candidates_of(alloc, command, &word.text);
    }
    let mut places = List::new(alloc);
    places.push(word.text.copy(alloc)?)?;
    Ok(places)
}

/// The path by which a fault names a word without a file: its text, or `-lNAME` for a library.
///
/// # Errors
/// Out of memory alone.
pub fn missing_path(alloc: Global, word: &Word) -> Result<Name, NoMemory>
    ensures { IfOk result (λ path. path ≡ missing_path word.now) }
{
    if !word.library {
        return word.text.copy(alloc);
    }
    let mut path = Vec::new(alloc);
    put_bytes(&mut path, b"-l")?;
    put_bytes(&mut path, word.text.as_slice())?;
    Name::from_vec(path)
}
