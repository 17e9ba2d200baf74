//! The texts of faults: of the words, of an input and of the link.

ghost use Rattle.lk_report.specs.Goes.{Goes};
ghost use Rattle.lk_report.specs.Texts.{hex_text, site_text, word_text, usage_text, input_fault_text, fault_text, fault_line};
ghost use Rattle.std.specs.Prelude.{◌++◌, codes};

use crate::faults::{Fault, InputFault, Site, UsageFault};
use crate::names::Name;
use crate::numbers::{say_decimal, say_hex, say_numbered};
use crate::saying::{Progress, say_bytes, say_name, say_named};
use crate::sinks::Sink;

/// Says why the words are no command.
#[tactic(auto, unfolding(crate::specs::Texts::usage_text))]
pub fn say_usage<S: Sink>(says: &mut S, progress: Progress, fault: &UsageFault) -> Progress
    ensures { Goes (S.spoken says.old) (S.spoken says.new) (usage_text fault.now) progress result }
{
    match fault {
        UsageFault::UnknownWord(number) => say_word(says, progress, *number, b"unknown"),
        UsageFault::MissingValue(number) => say_word(says, progress, *number, b"value missing"),
        UsageFault::BadNumber(number) => say_word(says, progress, *number, b"bad number"),
        UsageFault::OpenLib(number) => say_word(says, progress, *number, b"lib not ended"),
        UsageFault::NestedLib(number) => say_word(says, progress, *number, b"lib in lib"),
        UsageFault::NoLibOpen(number) => say_word(says, progress, *number, b"no lib"),
        UsageFault::TwoOutputs(number) => say_word(says, progress, *number, b"second output"),
        UsageFault::NoInput => say_bytes(says, progress, b"no input"),
    }
}

// Says the number of a word and its fault.
fn say_word<S: Sink>(says: &mut S, progress: Progress, number: u32, fault: &[u8]) -> Progress
    ensures { Goes (S.spoken says.old) (S.spoken says.new) (word_text number fault.now) progress result }
{
    let progress = say_numbered(says, progress, b"word ", number as u64);
    let progress = say_bytes(says, progress, b": ");
    say_bytes(says, progress, fault)
}

/// Says a fault of the link as its line.
pub fn say_fault_line<S: Sink>(says: &mut S, progress: Progress, fault: &Fault) -> Progress
    ensures { Goes (S.spoken says.old) (S.spoken says.new) (fault_line fault.now) progress result }
{
    let progress = say_bytes(says, progress, b"error: ");
    let progress = say_fault(says, progress, fault);
    say_bytes(says, progress, b"\n")
}

// Says a fault of the link.
#[tactic(auto, unfolding(crate::specs::Texts::fault_text))]
fn say_fault<S: Sink>(says: &mut S, progress: Progress, fault: &Fault) -> Progress
    ensures { Goes (S.spoken says.old) (S.spoken says.new) (fault_text fault.now) progress result }
{
    match fault {
        Fault::Missing { path } => say_named(says, progress, b"missing ", path),
        Fault::Input { path, fault } => say_input(says, progress, path, fault),
        Fault::MultipleDefinition {
            name,
            first,
            second,
        } => say_multiple(says, progress, name, first, second),
        Fault::TlsMismatch { name } => say_named(says, progress, b"tls mismatch of ", name),
        Fault::NoEntry { name } => say_named(says, progress, b"no entry ", name),
        Fault::Undefined { name, site } => say_name_at(says, progress, b"undefined ", name, site),
        Fault::DroppedLocal { site } => say_at(says, progress, b"dropped local at ", site),
        Fault::Unsupported { code, site } => say_unsupported(says, progress, *code, site),
        Fault::CopyOfZero { name, site } => say_name_at(
            says,
            progress,
            b"copy of empty ",
            name,
            site,
        ),
        Fault::ImportedTlsDirect { name, site } => say_name_at(
            says,
            progress,
            b"direct tls import ",
            name,
            site,
        ),
        Fault::Overflow { site, value, .. } => say_overflow_at(says, progress, site, *value),
    }
}

// Says an input's path and its fault.
fn say_input<S: Sink>(says: &mut S, progress: Progress, path: &Name, fault: &InputFault) -> Progress
    ensures { Goes (S.spoken says.old) (S.spoken says.new) (fault_text (Fault.Input path.now fault.now)) progress result }
{
    let progress = say_name(says, progress, path);
    let progress = say_bytes(says, progress, b": ");
    say_input_fault(says, progress, fault)
}

// Says why a file is no input.
#[tactic(auto, unfolding(crate::specs::Texts::input_fault_text))]
fn say_input_fault<S: Sink>(says: &mut S, progress: Progress, fault: &InputFault) -> Progress
    ensures { Goes (S.spoken says.old) (S.spoken says.new) (input_fault_text fault.now) progress result }
{
    match fault {
        InputFault::Archive => say_bytes(says, progress, b"Archive"),
        InputFault::Script => say_bytes(says, progress, b"Script"),
        InputFault::NotElf => say_bytes(says, progress, b"NotElf"),
        InputFault::WrongClass => say_bytes(says, progress, b"WrongClass"),
        InputFault::WrongMachine => say_bytes(says, progress, b"WrongMachine"),
        InputFault::WrongType => say_bytes(says, progress, b"WrongType"),
        InputFault::BadTable(number) => say_numbered(says, progress, b"BadTable ", *number as u64),
        InputFault::BadName(number) => say_numbered(says, progress, b"BadName ", *number as u64),
        InputFault::BadSymbol(number) => say_numbered(
            says,
            progress,
            b"BadSymbol ",
            *number as u64,
        ),
        InputFault::BadRela(section, entry) => say_bad_rela(says, progress, *section, *entry),
        InputFault::BadGroup(number) => say_numbered(says, progress, b"BadGroup ", *number as u64),
        InputFault::Compressed(number) => say_numbered(
            says,
            progress,
            b"Compressed ",
            *number as u64,
        ),
        InputFault::UnsupportedSection(number) => say_numbered(
            says,
            progress,
            b"UnsupportedSection ",
            *number as u64,
        ),
        InputFault::UnknownAlloc(number) => say_numbered(
            says,
            progress,
            b"UnknownAlloc ",
            *number as u64,
        ),
        InputFault::UnsupportedSymbol(number) => say_numbered(
            says,
            progress,
            b"UnsupportedSymbol ",
            *number as u64,
        ),
        InputFault::NoDynamic => say_bytes(says, progress, b"NoDynamic"),
    }
}

// Says a malformed relocation by its section and entry.
fn say_bad_rela<S: Sink>(says: &mut S, progress: Progress, section: u32, entry: u32) -> Progress
    ensures { Goes (S.spoken says.old) (S.spoken says.new) (input_fault_text (InputFault.BadRela section entry)) progress result }
{
    let progress = say_numbered(says, progress, b"BadRela ", section as u64);
    let progress = say_bytes(says, progress, b" ");
    say_decimal(says, progress, entry as u64)
}

// Says a second strong definition of a name, with the paths of both.
fn say_multiple<S: Sink>(
    says: &mut S,
    progress: Progress,
    name: &Name,
    first: &Name,
    second: &Name,
) -> Progress
    ensures { Goes (S.spoken says.old) (S.spoken says.new) (fault_text (Fault.MultipleDefinition name.now first.now second.now)) progress result }
{
    let progress = say_named(says, progress, b"multiple definition of ", name);
    let progress = say_bytes(says, progress, b": ");
    let progress = say_name(says, progress, first);
    let progress = say_bytes(says, progress, b", ");
    say_name(says, progress, second)
}

// Says these bytes, a name and the place that has it.
fn say_name_at<S: Sink>(
    says: &mut S,
    progress: Progress,
    title: &[u8],
    name: &Name,
    site: &Site,
) -> Progress
    ensures { Goes (S.spoken says.old) (S.spoken says.new) (title.now ++ name.now ++ codes " at " ++ site_text site.now) progress result }
{
    let progress = say_named(says, progress, title, name);
    let progress = say_bytes(says, progress, b" at ");
    say_site(says, progress, site)
}

// Says these bytes and a place.
fn say_at<S: Sink>(says: &mut S, progress: Progress, title: &[u8], site: &Site) -> Progress
    ensures { Goes (S.spoken says.old) (S.spoken says.new) (title.now ++ site_text site.now) progress result }
{
    let progress = say_bytes(says, progress, title);
    say_site(says, progress, site)
}

// Says a relocation type that is not supported, and where it is.
fn say_unsupported<S: Sink>(says: &mut S, progress: Progress, code: u32, site: &Site) -> Progress
    ensures { Goes (S.spoken says.old) (S.spoken says.new) (fault_text (Fault.Unsupported code site.now)) progress result }
{
    let progress = say_numbered(says, progress, b"unsupported type ", code as u64);
    let progress = say_bytes(says, progress, b" at ");
    say_site(says, progress, site)
}

// Says where a value does not fit its field, and the value.
fn say_overflow_at<S: Sink>(says: &mut S, progress: Progress, site: &Site, value: u64) -> Progress
    ensures { Goes (S.spoken says.old) (S.spoken says.new) (codes "overflow at " ++ site_text site.now ++ codes ": " ++ hex_text value) progress result }
{
    let progress = say_at(says, progress, b"overflow at ", site);
    let progress = say_bytes(says, progress, b": ");
    say_hex(says, progress, value)
}

// Says a place: the input's path, the section's number in it and the offset.
fn say_site<S: Sink>(says: &mut S, progress: Progress, site: &Site) -> Progress
    ensures { Goes (S.spoken says.old) (S.spoken says.new) (site_text site.now) progress result }
{
    let progress = say_name(says, progress, &site.path);
    let progress = say_bytes(says, progress, b":");
    let progress = say_decimal(says, progress, site.section as u64);
    let progress = say_bytes(says, progress, b"+");
    say_hex(says, progress, site.offset)
}
