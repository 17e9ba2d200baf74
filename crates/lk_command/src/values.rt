//! The values of which a command has one each: the last that is given counts.

ghost use Rattle.std.specs.Prelude.{◌≡◌, fold, map};
ghost use Rattle.lk_command.specs.Seen.{flag_seen, phrase_seen, valued_seen};
ghost use Rattle.lk_command.specs.Values.{at_first, given_after, flagged_after, values_after, values_seen};

use crate::meanings::{Flag, Valued};
use crate::numbers::decimal;
use crate::phrases::Phrase;
use lk_model::commands::Mode;

/// The values of a command. Texts are in its words.
#[derive(Clone, Copy)]
pub(crate) struct Values<'a> {
    pub output: &'a [u8],
    pub entry: &'a [u8],
    /// Empty where no word gives it.
    pub interp: &'a [u8],
    pub base: Option<&'a [u8]>,
    /// In percent.
    pub patch: u32,
    pub mode: Mode,
    pub export_dynamic: bool,
    pub workers: u32,
}

/// The values where no word gives another.
fn first_values() -> Values<'static>
    ensures { values_seen result ≡ at_first }
{
    Values {
        output: b"a.out",
        entry: b"_start",
        interp: b"",
        base: None,
        patch: 10,
        mode: Mode::Full,
        export_dynamic: false,
        workers: 4,
    }
}

/// The values after an option with its value. A number that is none changes nothing.
fn after_given<'a>(mut values: Values<'a>, option: Valued, value: &'a [u8]) -> Values<'a>
    ensures { values_seen result ≡ given_after (values_seen values.entry) (valued_seen option) value.now }
{
    match option {
        Valued::Output => values.output = value,
        Valued::Entry => values.entry = value,
        Valued::Interp => values.interp = value,
        Valued::Base => values.base = Some(value),
        Valued::Patch => values.patch = decimal(value).unwrap_or(values.patch),
        Valued::ThreadCount => values.workers = decimal(value).unwrap_or(values.workers),
        Valued::Dir | Valued::Library | Valued::RunPath | Valued::Machine => {}
    }
    values
}

/// The values after a word that is an option by itself.
fn after_flag<'a>(mut values: Values<'a>, flag: Flag) -> Values<'a>
    ensures { values_seen result ≡ flagged_after (values_seen values.entry) (flag_seen flag) }
{
    match flag {
        Flag::ExportDynamic => values.export_dynamic = true,
        Flag::InMode(mode) => values.mode = mode,
        Flag::Threads => values.workers = 4,
        Flag::NoThreads => values.workers = 1,
        Flag::Marked(_) | Flag::StartLib | Flag::EndLib => {}
    }
    values
}

/// The values after one more phrase.
fn after_phrase<'a>(values: Values<'a>, phrase: &Phrase<'a>) -> Values<'a>
    ensures { values_seen result ≡ values_after (values_seen values.entry) (phrase_seen phrase.now) }
{
    match *phrase {
        Phrase::Given(given) => match given.value {
            Some(value) => after_given(values, given.option, value),
            None => values,
        },
        Phrase::Flagged(_, flag) => after_flag(values, flag),
        Phrase::Wrong(_) | Phrase::Named(_) => values,
    }
}

/// The values of a command: the last that is given of each counts.
pub(crate) fn values_of<'a>(phrases: &[Phrase<'a>]) -> Values<'a>
    ensures { values_seen result ≡ fold values_after at_first (map phrase_seen phrases.now) }
{
    let mut values = first_values();
    for phrase in phrases {
        values = after_phrase(values, phrase);
    }
    values
}
