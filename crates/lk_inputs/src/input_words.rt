//! The words of a command's inputs in a row, each with the number of its lib group.

ghost use Rattle.std.specs.Prelude.{◌≡◌, ◌+◌, ◌++◌, map, IfOk, OnOk};
ghost use Rattle.lk_model.specs.Inputs.{words_from};
ghost use Rattle.lk_inputs.specs.Named.{in_lib, words_seen};

use lk_model::commands::{Item, Word};
use lk_report::{List, NoMemory};
use std::alloc::Global;

/// The word of an input.
#[derive(Clone, Copy)]
pub struct InputWord<'c> {
    /// The number of its lib group, from 1; 0 outside one.
    pub lib: u32,
    pub word: &'c Word,
}

/// The number of the lib group after this one; a number that has no room in 32 bits is answered as out of
/// memory.
fn next_lib(lib: u32) -> Result<u32, NoMemory>
    ensures { IfOk result (λ next. next ≡ lib + 1) }
{
    match lib.checked_add(1) {
        Some(next) => Ok(next),
        None => Err(NoMemory),
    }
}

/// Puts the words of a lib group at the end.
fn push_members<'c>(
    rows: &mut List<InputWord<'c>>,
    lib: u32,
    words: &'c [Word],
) -> Result<(), NoMemory>
    ensures { OnOk result (words_seen rows.new ≡ words_seen rows.old ++ map (in_lib lib) words.now) }
{
    for word in words {
        rows.push(InputWord { lib, word })?;
    }
    Ok(())
}

/// The words of the inputs of a command's items in order; lib groups are numbered from 1.
///
/// # Errors
/// Out of memory alone.
#[tactic(auto, unfolding(lk_model::specs::Inputs::words_from))]
pub fn input_words<'c>(alloc: Global, items: &'c [Item]) -> Result<List<InputWord<'c>>, NoMemory>
    ensures { IfOk result (λ rows. words_seen rows ≡ words_from 1 items.now) }
{
    let mut rows = List::new(alloc);
    let mut lib = 1;
    for item in items {
        match item {
            Item::One(word) => rows.push(InputWord { lib: 0, word })?,
            Item::Lib(words) => {
                push_members(&mut rows, lib, words.as_slice())?;
                lib = next_lib(lib)?;
            }
        }
    }
    Ok(rows)
}
