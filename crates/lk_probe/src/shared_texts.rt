//! The text of what is said of a shared object.

ghost use Rattle.std.specs.Prelude.{◌≡◌, ◌++◌, codes, flat_map, IfOk, OnOk};
ghost use Rattle.lk_probe.specs.SharedFacts.{count_text, counts_line, definitions_text, name_line, shared_text};

use crate::shared_facts::{SharedFacts, SymbolCounts};
use crate::writing::{put, put_number};
use lk_report::{Bytes, Name, NoMemory};
use std::alloc::Global;

/// Puts a line that begins with a word and ends with a name.
fn put_name(text: &mut Vec<u8>, word: &[u8], name: &Name) -> Result<(), NoMemory>
    ensures { OnOk result (text.new.items ≡ text.old.items ++ name_line word.now name.now) }
{
    put(text, word)?;
    put(text, name.as_slice())?;
    put(text, b"\n")
}

/// Puts a line for each name that is needed.
fn put_needs(text: &mut Vec<u8>, needs: &[Name]) -> Result<(), NoMemory>
    ensures { OnOk result (text.new.items ≡ text.old.items ++ flat_map (name_line (codes "needs: ")) needs.now) }
{
    for need in needs {
        put_name(text, b"needs: ", need)?;
    }
    Ok(())
}

/// Puts a number and the word of what it counts.
#[tactic(auto, unfolding(crate::specs::SharedFacts::count_text))]
fn put_count(alloc: Global, text: &mut Vec<u8>, count: usize, word: &[u8]) -> Result<(), NoMemory>
    ensures { OnOk result (text.new.items ≡ text.old.items ++ count_text count word.now) }
{
    put_number(alloc, text, count)?;
    put(text, word)
}

/// Puts the numbers of definitions, by type.
fn put_definitions(alloc: Global, text: &mut Vec<u8>, counts: &SymbolCounts) -> Result<(), NoMemory>
    ensures { OnOk result (text.new.items ≡ text.old.items ++ definitions_text counts.now) }
{
    put_count(alloc, text, counts.functions, b" functions, ")?;
    put_count(alloc, text, counts.objects, b" objects, ")?;
    put_count(alloc, text, counts.thread_local, b" thread-local, ")?;
    put_count(alloc, text, counts.others, b" others, ")
}

/// Puts the line of the numbers of symbols.
fn put_counts(alloc: Global, text: &mut Vec<u8>, counts: &SymbolCounts) -> Result<(), NoMemory>
    ensures { OnOk result (text.new.items ≡ text.old.items ++ counts_line counts.now) }
{
    put(text, b"symbols: ")?;
    put_definitions(alloc, text, counts)?;
    put_count(alloc, text, counts.references, b" references, ")?;
    put_count(alloc, text, counts.weak, b" weak\n")
}

/// What is said of a shared object with these facts: a line with its name, one for each name that it needs, and
/// one with the numbers of its symbols.
#[tactic(auto, unfolding(crate::specs::SharedFacts::shared_text))]
pub fn shared_text(alloc: Global, facts: &SharedFacts) -> Result<Bytes, NoMemory>
    ensures { IfOk result (λ text. text ≡ shared_text facts.now) }
{
    let mut text = Vec::new(alloc);
    put_name(&mut text, b"shared object: ", &facts.soname)?;
    put_needs(&mut text, facts.needs.as_slice())?;
    put_counts(alloc, &mut text, &facts.symbols)?;
    Bytes::from_vec(text)
}
