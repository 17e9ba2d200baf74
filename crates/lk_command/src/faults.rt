//! The faults of a command's words (own). The first in the order of the words counts; after the last word
//! comes a lib group that is not ended, and then that no input is named.
//!
//! A phrase's faults depend on two things of the phrases before it, the number of the lib group that is open and
//! whether an output was named, so one pass with these two finds the first fault.

ghost use Rattle.std.specs.Prelude.{◌≡◌, map, option_map, None, false};
ghost use Rattle.std.specs.List.{list_any};
ghost use Rattle.std.specs.Option.{option_copied};
ghost use Rattle.lk_model.specs.Checks.{first_fault};
ghost use Rattle.lk_model.specs.Grammar.{is_bad_number as is_bad_number_model, is_other_machine as is_other_machine_model, names_input as names_input_model, names_output as names_output_model, open_after as open_model, usage_checks};
ghost use Rattle.lk_command.specs.PhraseFaults.{checks_in, fault_after, flag_checks_in, given_checks_in};
ghost use Rattle.lk_command.specs.Seen.{flag_seen, phrase_seen, valued_seen};

use crate::meanings::{Flag, Valued};
use crate::numbers::is_number;
use crate::phrases::{Given, Phrase};
use crate::word_tables::has_zero;
use lk_report::UsageFault;

/// Whether this is a value of the machine option, and another than the one machine.
fn is_other_machine(option: Valued, value: &[u8]) -> bool
    ensures { result ≡ is_other_machine_model (valued_seen option) value.now }
{
    match option {
        Valued::Machine => value != b"elf_x86_64".as_slice(),
        _ => false,
    }
}

/// Whether the value is to be a number, and is none of the option's range.
fn is_bad_number(option: Valued, value: &[u8]) -> bool
    ensures { result ≡ is_bad_number_model (valued_seen option) value.now }
{
    match option {
        Valued::Patch => !is_number(0, 500, value),
        Valued::ThreadCount => !is_number(1, 16, value),
        _ => false,
    }
}

/// The fault of an option with its value, where an output may have been named before it.
fn given_fault(named: bool, given: Given<'_>) -> Option<UsageFault>
    ensures { result ≡ first_fault (given_checks_in named given.entry.number (valued_seen given.entry.option) given.entry.at (option_copied given.entry.value)) }
{
    let Some(value) = given.value else {
        return Some(UsageFault::MissingValue(given.number));
    };
    if value.is_empty() {
        return Some(UsageFault::MissingValue(given.number));
    }
    if named && given.option == Valued::Output {
        return Some(UsageFault::TwoOutputs(given.number));
    }
    if has_zero(value) || is_other_machine(given.option, value) {
        return Some(UsageFault::UnknownWord(given.at));
    }
    if is_bad_number(given.option, value) {
        return Some(UsageFault::BadNumber(given.at));
    }
    None
}

/// The fault of a word that is an option by itself, where a lib group may be open.
fn flag_fault(group: Option<u32>, number: u32, flag: Flag) -> Option<UsageFault>
    ensures { result ≡ first_fault (flag_checks_in group number (flag_seen flag)) }
{
    match flag {
        Flag::StartLib if group.is_some() => Some(UsageFault::NestedLib(number)),
        Flag::EndLib if group.is_none() => Some(UsageFault::NoLibOpen(number)),
        _ => None,
    }
}

/// The fault of a phrase after others: the number of the lib group that is open, and whether an output was
/// named.
fn phrase_fault(group: Option<u32>, named: bool, phrase: &Phrase<'_>) -> Option<UsageFault>
    ensures { result ≡ first_fault (checks_in group named (phrase_seen phrase.now)) }
{
    match *phrase {
        Phrase::Wrong(number) => Some(UsageFault::UnknownWord(number)),
        Phrase::Named(_) => None,
        Phrase::Flagged(number, flag) => flag_fault(group, number, flag),
        Phrase::Given(given) => given_fault(named, given),
    }
}

/// The number of the lib group that is open after one more phrase.
fn open_after(group: Option<u32>, phrase: &Phrase<'_>) -> Option<u32>
    ensures { result ≡ open_model group (phrase_seen phrase.now) }
{
    match *phrase {
        Phrase::Flagged(number, Flag::StartLib) => Some(number),
        Phrase::Flagged(_, Flag::EndLib) => None,
        _ => group,
    }
}

/// Whether a phrase names the output.
fn names_output(phrase: &Phrase<'_>) -> bool
    ensures { result ≡ names_output_model (phrase_seen phrase.now) }
{
    match *phrase {
        Phrase::Given(given) => given.option == Valued::Output,
        _ => false,
    }
}

/// Whether a phrase names an input.
fn names_input(phrase: &Phrase<'_>) -> bool
    ensures { result ≡ names_input_model (phrase_seen phrase.now) }
{
    match *phrase {
        Phrase::Named(_) => true,
        Phrase::Given(given) => given.option == Valued::Library,
        _ => false,
    }
}

/// Whether an input is named.
fn is_input_named(phrases: &[Phrase<'_>]) -> bool
    ensures { result ≡ list_any (λ phrase. names_input_model (phrase_seen phrase)) phrases.now }
{
    phrases.iter().any(|phrase| names_input(phrase))
}

/// The first fault of the phrases, or of the lib group that they leave open.
fn phrases_fault(phrases: &[Phrase<'_>]) -> Option<UsageFault>
    ensures { result ≡ fault_after None false (map phrase_seen phrases.now) }
{
    let mut group = None;
    let mut named = false;
    for phrase in phrases {
        if let Some(fault) = phrase_fault(group, named, phrase) {
            return Some(fault);
        }
        group = open_after(group, phrase);
        named = named || names_output(phrase);
    }
    group.map(UsageFault::OpenLib)
}

/// The first fault of a command.
pub(crate) fn usage_fault(phrases: &[Phrase<'_>]) -> Option<UsageFault>
    ensures { result ≡ first_fault (usage_checks (map phrase_seen phrases.now)) }
{
    if let Some(fault) = phrases_fault(phrases) {
        return Some(fault);
    }
    if !is_input_named(phrases) {
        return Some(UsageFault::NoInput);
    }
    None
}
