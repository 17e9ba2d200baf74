//! What the program's arguments ask for.

ghost use Rattle.std.specs.Prelude.{◌≡◌, IfOk, map, drop, string_bytes};
ghost use Rattle.std.specs.Vec.Iter.{into_iter_items};
ghost use Rattle.lk_probe.specs.Asking.{asked_in, file_asked, file_in, image_asked};

use lk_report::{List, Name, NameList, NoMemory};
use std::alloc::Global;
use std::env::Args;

/// What is asked for.
#[derive(Drop)]
pub enum Asked {
    /// What this file is.
    Read(Name),
    /// What a loader makes of this file.
    Load(Name),
    /// What the inputs of these words decide.
    Resolve(NameList),
    /// Where a link of these words, made anew, puts everything.
    Layout(NameList),
}

/// What the arguments after the program's name ask for, where the program knows it.
pub fn what_is_asked(alloc: Global, mut all: Args) -> Result<Option<Asked>, NoMemory>
    ensures { IfOk result (λ asked. asked ≡ asked_in (map string_bytes (drop 1 (into_iter_items all)))) }
{
    let _program = all.next();
    let Some(word) = all.next() else {
        return Ok(None);
    };
    match word.as_str() {
        "read" => asked_file(all),
        "load" => asked_image(all),
        "resolve" => Ok(Some(Asked::Resolve(words_of(alloc, all)?))),
        "layout" => Ok(Some(Asked::Layout(words_of(alloc, all)?))),
        _ => Ok(None),
    }
}

/// The file that is named, where exactly one argument is left.
fn only_file(mut all: Args) -> Result<Option<Name>, NoMemory>
    ensures { IfOk result (λ file. file ≡ file_in (map string_bytes (into_iter_items all))) }
{
    match all.next() {
        Some(file) if all.next().is_none() => Ok(Some(Name::from_vec(file.into_bytes())?)),
        _ => Ok(None),
    }
}

/// The file that is to be read, where exactly one argument is left, which names it.
fn asked_file(all: Args) -> Result<Option<Asked>, NoMemory>
    ensures { IfOk result (λ asked. asked ≡ file_asked (map string_bytes (into_iter_items all))) }
{
    Ok(match only_file(all)? {
        None => None,
        Some(path) => Some(Asked::Read(path)),
    })
}

/// The file that is to be loaded, where exactly one argument is left, which names it.
fn asked_image(all: Args) -> Result<Option<Asked>, NoMemory>
    ensures { IfOk result (λ asked. asked ≡ image_asked (map string_bytes (into_iter_items all))) }
{
    Ok(match only_file(all)? {
        None => None,
        Some(path) => Some(Asked::Load(path)),
    })
}

/// The arguments that are left.
fn words_of(alloc: Global, all: Args) -> Result<NameList, NoMemory>
    ensures { IfOk result (λ words. words ≡ map string_bytes (into_iter_items all)) }
{
    let mut words = List::new(alloc);
    for argument in all {
        words.push(Name::from_vec(argument.into_bytes())?)?;
    }
    Ok(words)
}
