//! The inputs of a command and its lib groups, in their order. A mark counts for the inputs after it.

ghost use Rattle.std.specs.Prelude.{◌≡◌, OnOk, IfOk, map};
ghost use Rattle.lk_model.specs.Grammar.{items_of as items_model, with_input};
ghost use Rattle.lk_command.specs.Inputs.{ended_in, flagged_in, listing_seen, put_in};
ghost use Rattle.lk_command.specs.Seen.{flag_seen, phrase_seen};

use crate::meanings::{Flag, Valued};
use crate::phrases::Phrase;
use lk_model::commands::{Item, ItemList, Mark, Word, WordList};
use lk_report::{List, Name, NoMemory};
use std::alloc::Global;

/// The inputs so far.
#[derive(Drop)]
pub(crate) struct Listing {
    /// The mark of the next input.
    mark: Mark,
    /// The words of the lib group that is open.
    group: Option<WordList>,
    /// The inputs and lib groups that are whole.
    items: ItemList,
}

/// Puts an input into the open lib group, or outside one.
#[tactic(auto, unfolding(lk_model::specs::Grammar::put_word))]
fn put_word(listing: &mut Listing, word: Word) -> Result<(), NoMemory>
    ensures { OnOk result (listing_seen listing.new ≡ put_in (listing_seen listing.old) word) }
{
    match &mut listing.group {
        Some(words) => words.push(word),
        None => listing.items.push(Item::One(word)),
    }
}

/// Puts an input with the mark that counts.
fn put_input(
    alloc: Global,
    listing: &mut Listing,
    text: &[u8],
    library: bool,
) -> Result<(), NoMemory>
    ensures { OnOk result (listing_seen listing.new ≡ put_in (listing_seen listing.old) (record { text = text.now; library = library; mark = listing.old.mark })) }
{
    let word = Word {
        text: Name::from_slice(alloc, text)?,
        library,
        mark: listing.mark,
    };
    put_word(listing, word)
}

/// Ends the open lib group, if there is one.
fn end_group(listing: &mut Listing) -> Result<(), NoMemory>
    ensures { OnOk result (listing_seen listing.new ≡ ended_in (listing_seen listing.old)) }
{
    match listing.group.take() {
        Some(words) => listing.items.push(Item::Lib(words)),
        None => Ok(()),
    }
}

/// The inputs after a word that is an option by itself.
fn put_flag(alloc: Global, listing: &mut Listing, flag: Flag) -> Result<(), NoMemory>
    ensures { OnOk result (listing_seen listing.new ≡ flagged_in (listing_seen listing.old) (flag_seen flag)) }
{
    match flag {
        Flag::Marked(mark) => listing.mark = mark,
        Flag::StartLib => listing.group = Some(List::new(alloc)),
        Flag::EndLib => end_group(listing)?,
        Flag::ExportDynamic | Flag::InMode(_) | Flag::Threads | Flag::NoThreads => {}
    }
    Ok(())
}

/// The inputs after one more phrase.
#[tactic(auto, unfolding(lk_model::specs::Grammar::with_input))]
fn put_phrase(alloc: Global, listing: &mut Listing, phrase: &Phrase<'_>) -> Result<(), NoMemory>
    ensures { OnOk result (listing_seen listing.new ≡ with_input (listing_seen listing.old) (phrase_seen phrase.now)) }
{
    match *phrase {
        Phrase::Named(path) => put_input(alloc, listing, path, false),
        Phrase::Flagged(_, flag) => put_flag(alloc, listing, flag),
        Phrase::Given(given) => match (given.option, given.value) {
            (Valued::Library, Some(name)) => put_input(alloc, listing, name, true),
            _ => Ok(()),
        },
        Phrase::Wrong(_) => Ok(()),
    }
}

/// The inputs and lib groups of a command.
pub(crate) fn items_of(alloc: Global, phrases: &[Phrase<'_>]) -> Result<ItemList, NoMemory>
    ensures { IfOk result (λ items. items ≡ items_model (map phrase_seen phrases.now)) }
{
    let mut listing = Listing {
        mark: Mark::Unknown,
        group: None,
        items: List::new(alloc),
    };
    for phrase in phrases {
        put_phrase(alloc, &mut listing, phrase)?;
    }
    Ok(listing.items)
}
