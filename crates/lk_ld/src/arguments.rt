//! The words of the command, from the program's arguments.

ghost use Rattle.std.specs.Prelude.{◌≡◌, IfOk, MatchResult, map, drop, string_bytes};
ghost use Rattle.std.specs.IoError.{error_kind};
ghost use Rattle.std.specs.Vec.Iter.{into_iter_items};
ghost use Rattle.lk_ld.specs.Arguments.{AreWords, unknown};

use lk_report::{List, Name, NameList, NoMemory};
use std::alloc::Global;
use std::env::Args;
use std::io;
use std::io::ErrorKind;

/// What the arguments are.
#[derive(Drop)]
pub enum Arguments {
    /// The words after the program's name.
    Words(NameList),
    /// One of them is no text.
    NoText,
    /// There was no memory for their list.
    NoMemory,
}

/// The program's arguments, by the system's answer.
pub fn arguments_of(alloc: Global, reported: io::Result<Args>) -> Arguments
    ensures { MatchResult reported (λ all. AreWords (map string_bytes (drop 1 (into_iter_items all))) result) (λ error. result ≡ unknown (error_kind error)) }
{
    match reported {
        Ok(all) => match words_of(alloc, all) {
            Ok(words) => Arguments::Words(words),
            Err(NoMemory) => Arguments::NoMemory,
        },
        Err(error) => unread(error),
    }
}

/// The answer where the system has no arguments.
fn unread(error: io::Error) -> Arguments
    ensures { result ≡ unknown (error_kind error) }
{
    match error.kind() {
        ErrorKind::OutOfMemory => Arguments::NoMemory,
        _ => Arguments::NoText,
    }
}

/// The words of all arguments but the first, which is the program's name.
fn words_of(alloc: Global, mut all: Args) -> Result<NameList, NoMemory>
    ensures { IfOk result (λ words. words ≡ map string_bytes (drop 1 (into_iter_items all))) }
{
    let _program = all.next();
    names_of(alloc, all)
}

/// The arguments as names.
fn names_of(alloc: Global, all: Args) -> Result<NameList, NoMemory>
    ensures { IfOk result (λ words. words ≡ map string_bytes (into_iter_items all)) }
{
    let mut words = List::new(alloc);
    for argument in all {
        words.push(Name::from_vec(argument.into_bytes())?)?;
    }
    Ok(words)
}
