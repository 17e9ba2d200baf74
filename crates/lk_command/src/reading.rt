//! The words of a command are read as phrases, from left to right (own). The value of an option that is
//! apart is the next word, whatever that begins with.

ghost use Rattle.std.specs.Prelude.{◌≡◌, ◌+◌, ◌-◌, ◌^◌, ◌<◌, ◌≤◌, length, map, option_map, IfOk, OnOk, [], ◌∷◌, ◌++◌};
ghost use Rattle.lk_model.specs.Grammar as grammar;
ghost use Rattle.lk_model.specs.Grammar.{phrases_of as phrases_model, phrase_ended, waiting_after};
ghost use Rattle.lk_command.specs.Seen.{ended_by, phrase_seen, valued_seen, waits_after};

use crate::meanings::{Meaning, Valued};
use crate::phrases::{Given, Phrase};
use crate::word_tables::meaning_of;
use lk_report::{NameList, NoMemory};
use std::alloc::Global;

/// What a word does.
#[derive(Clone, Copy)]
pub(crate) enum Step<'a> {
    /// It ends a phrase.
    Ends(Phrase<'a>),
    /// It is an option whose value is the next word.
    Waits(Valued),
}

/// What a word does that is no option's value.
fn step_alone(number: u32, word: &[u8]) -> Step<'_>
    ensures ended { ended_by result ≡ phrase_ended number None word.now }
    ensures waits { waits_after result ≡ waiting_after None word.now }
{
    match meaning_of(word) {
        Meaning::Meaningless => Step::Ends(Phrase::Wrong(number)),
        Meaning::Path => Step::Ends(Phrase::Named(word)),
        Meaning::Alone(flag) => Step::Ends(Phrase::Flagged(number, flag)),
        Meaning::Apart(option) => Step::Waits(option),
        Meaning::Joined(option, value) => Step::Ends(Phrase::Given(Given {
            number,
            option,
            at: number,
            value: Some(value),
        })),
    }
}

/// What a word does after an option that may wait for its value.
fn step_after(number: u32, waiting: Option<Valued>, word: &[u8]) -> Step<'_>
    requires { 0 < number }
    ensures ended { ended_by result ≡ phrase_ended number (option_map valued_seen waiting) word.now }
    ensures waits { waits_after result ≡ waiting_after (option_map valued_seen waiting) word.now }
{
    match waiting {
        None => step_alone(number, word),
        Some(option) => Step::Ends(Phrase::Given(Given {
            number: number - 1,
            option,
            at: number,
            value: Some(word),
        })),
    }
}

/// The phrase of an option for whose value no word is left; `number` is that of the missing word.
fn unfinished(number: u32, option: Valued) -> Phrase<'static>
    requires { 0 < number }
    ensures { phrase_seen result ≡ grammar.Given (number - 1) (valued_seen option) number None }
{
    Phrase::Given(Given {
        number: number - 1,
        option,
        at: number,
        value: None,
    })
}

/// The phrases of a command. An option at the end whose value is missing is a phrase too.
#[tactic(auto, unfolding(lk_model::specs::Grammar::phrases_from))]
pub(crate) fn phrases_of(alloc: Global, words: &NameList) -> Result<Vec<Phrase<'_>>, NoMemory>
    requires { length words.now < 2 ^ 32 - 1 }
    ensures { IfOk result (λ phrases. map phrase_seen phrases.items ≡ phrases_model words.now) }
{
    let mut phrases = Vec::new(alloc);
    let mut waiting = None;
    let mut number = 1;
    for word in words.as_slice() {
        waiting = match step_after(number, waiting, word.as_slice()) {
            Step::Ends(phrase) => {
                push(&mut phrases, phrase)?;
                None
            }
            Step::Waits(option) => Some(option),
        };
        number += 1;
    }
    if let Some(option) = waiting {
        push(&mut phrases, unfinished(number, option))?;
    }
    Ok(phrases)
}

/// Puts a phrase after the others.
fn push<'a>(phrases: &mut Vec<Phrase<'a>>, phrase: Phrase<'a>) -> Result<(), NoMemory>
    ensures { OnOk result (phrases.new.items ≡ phrases.old.items ++ phrase.entry ∷ []) }
{
    match phrases.push(phrase) {
        Ok(()) => Ok(()),
        Err(_) => Err(NoMemory),
    }
}
