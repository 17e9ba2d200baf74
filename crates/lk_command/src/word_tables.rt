//! The words that are options (own): two tables, and the meaning that they give a word.

ghost use Rattle.std.specs.Prelude.{◌≡◌, map, option_map};
ghost use Rattle.lk_model.specs.Grammar.{beginnings, holds_zero, is_path, meaning_of as meaning_model, whole_words};
ghost use Rattle.lk_command.specs.Seen.{meaning_seen};
ghost use Rattle.lk_command.specs.Tables.{beginning_seen, meaning_in, pair_seen, row_seen, value_in};

use crate::meanings::{Flag, Meaning, Valued};
use lk_model::commands::{Mark, Mode};

/// A word that is an option as it is, and what it means.
#[derive(Clone, Copy)]
pub(crate) struct WholeWord {
    text: &'static [u8],
    meaning: Meaning<'static>,
}

/// The beginning of a word whose rest is the option's value.
#[derive(Clone, Copy)]
pub(crate) struct Beginning {
    text: &'static [u8],
    option: Valued,
}

/// The words that are options as they are.
const WHOLE_WORDS: [WholeWord; 19] = [
    WholeWord {
        text: b"-o",
        meaning: Meaning::Apart(Valued::Output),
    },
    WholeWord {
        text: b"-e",
        meaning: Meaning::Apart(Valued::Entry),
    },
    WholeWord {
        text: b"-L",
        meaning: Meaning::Apart(Valued::Dir),
    },
    WholeWord {
        text: b"-l",
        meaning: Meaning::Apart(Valued::Library),
    },
    WholeWord {
        text: b"-dynamic-linker",
        meaning: Meaning::Apart(Valued::Interp),
    },
    WholeWord {
        text: b"-rpath",
        meaning: Meaning::Apart(Valued::RunPath),
    },
    WholeWord {
        text: b"-m",
        meaning: Meaning::Apart(Valued::Machine),
    },
    WholeWord {
        text: b"--thread-count",
        meaning: Meaning::Apart(Valued::ThreadCount),
    },
    WholeWord {
        text: b"--export-dynamic",
        meaning: Meaning::Alone(Flag::ExportDynamic),
    },
    WholeWord {
        text: b"--incremental",
        meaning: Meaning::Alone(Flag::InMode(Mode::Either)),
    },
    WholeWord {
        text: b"--incremental-full",
        meaning: Meaning::Alone(Flag::InMode(Mode::Full)),
    },
    WholeWord {
        text: b"--incremental-update",
        meaning: Meaning::Alone(Flag::InMode(Mode::Update)),
    },
    WholeWord {
        text: b"--incremental-changed",
        meaning: Meaning::Alone(Flag::Marked(Mark::Changed)),
    },
    WholeWord {
        text: b"--incremental-unchanged",
        meaning: Meaning::Alone(Flag::Marked(Mark::Unchanged)),
    },
    WholeWord {
        text: b"--incremental-unknown",
        meaning: Meaning::Alone(Flag::Marked(Mark::Unknown)),
    },
    WholeWord {
        text: b"--threads",
        meaning: Meaning::Alone(Flag::Threads),
    },
    WholeWord {
        text: b"--no-threads",
        meaning: Meaning::Alone(Flag::NoThreads),
    },
    WholeWord {
        text: b"--start-lib",
        meaning: Meaning::Alone(Flag::StartLib),
    },
    WholeWord {
        text: b"--end-lib",
        meaning: Meaning::Alone(Flag::EndLib),
    },
];

/// The beginnings after which the rest of the word is the value.
const BEGINNINGS: [Beginning; 7] = [
    Beginning {
        text: b"--entry=",
        option: Valued::Entry,
    },
    Beginning {
        text: b"-L",
        option: Valued::Dir,
    },
    Beginning {
        text: b"-l",
        option: Valued::Library,
    },
    Beginning {
        text: b"--dynamic-linker=",
        option: Valued::Interp,
    },
    Beginning {
        text: b"-rpath=",
        option: Valued::RunPath,
    },
    Beginning {
        text: b"--incremental-base=",
        option: Valued::Base,
    },
    Beginning {
        text: b"--incremental-patch=",
        option: Valued::Patch,
    },
];

/// Whether a byte is zero.
pub(crate) fn has_zero(text: &[u8]) -> bool
    ensures { result ≡ holds_zero text.now }
{
    text.iter().any(|byte| *byte == 0)
}

/// Whether there is a first byte that is no dash.
fn begins_as_path(text: &[u8]) -> bool
    ensures { result ≡ is_path text.now }
{
    match text.first() {
        Some(byte) => *byte != b'-',
        None => false,
    }
}

/// The meaning in the first row of a word.
fn row_of(rows: &[WholeWord], word: &[u8]) -> Option<Meaning<'static>>
    ensures { option_map meaning_seen result ≡ meaning_in (map row_seen rows.now) word.now }
{
    for row in rows {
        if row.text == word {
            return Some(row.meaning);
        }
    }
    None
}

/// The option of the first row that a word begins with, and the rest of the word.
fn value_of<'a>(rows: &[Beginning], word: &'a [u8]) -> Option<(Valued, &'a [u8])>
    ensures { option_map pair_seen result ≡ value_in (map beginning_seen rows.now) word.now }
{
    for row in rows {
        if word.starts_with(row.text) {
            return Some((row.option, &word[row.text.len()..]));
        }
    }
    None
}

/// What a word means that is an option as it is.
fn whole_meaning(word: &[u8]) -> Option<Meaning<'static>>
    ensures { option_map meaning_seen result ≡ meaning_in whole_words word.now }
{
    row_of(&WHOLE_WORDS, word)
}

/// The option that a word begins with, and its value.
fn joined_value(word: &[u8]) -> Option<(Valued, &[u8])>
    ensures { option_map pair_seen result ≡ value_in beginnings word.now }
{
    value_of(&BEGINNINGS, word)
}

/// What a word means. One with a zero byte means nothing; an input's path begins with no dash, so
/// only a word with a dash is looked up.
pub(crate) fn meaning_of(word: &[u8]) -> Meaning<'_>
    ensures { meaning_seen result ≡ meaning_model word.now }
{
    if has_zero(word) {
        return Meaning::Meaningless;
    }
    if begins_as_path(word) {
        return Meaning::Path;
    }
    if let Some(meaning) = whole_meaning(word) {
        return meaning;
    }
    match joined_value(word) {
        Some((option, value)) => Meaning::Joined(option, value),
        None => Meaning::Meaningless,
    }
}
