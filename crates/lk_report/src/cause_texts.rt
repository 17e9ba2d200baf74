//! The texts of causes: why an update gives way or cannot be made.

ghost use Rattle.lk_report.specs.Goes.{Goes};
ghost use Rattle.lk_report.specs.Texts.{hex_text, cause_text};
ghost use Rattle.std.specs.Prelude.{◌++◌, codes};

use crate::causes::Cause;
use crate::names::Name;
use crate::numbers::{say_decimal, say_hex, say_numbered};
use crate::saying::{Progress, say_bytes, say_name, say_named};
use crate::sinks::Sink;

/// Says a cause.
#[tactic(auto, unfolding(crate::specs::Texts::cause_text))]
pub fn say_cause<S: Sink>(says: &mut S, progress: Progress, cause: &Cause) -> Progress
    ensures { Goes (S.spoken says.old) (S.spoken says.new) (cause_text cause.now) progress result }
{
    match cause {
        Cause::NoBase => say_bytes(says, progress, b"no base"),
        Cause::BaseOpen => say_bytes(says, progress, b"base is open"),
        Cause::NotIncremental => say_bytes(says, progress, b"not an incremental image"),
        Cause::OtherVersion(version) => say_numbered(
            says,
            progress,
            b"other version ",
            *version as u64,
        ),
        Cause::OptionsChanged { .. } => say_bytes(says, progress, b"options changed"),
        Cause::NewSection(name) => say_named(says, progress, b"new section ", name),
        Cause::MoreAlign {
            section,
            have,
            need,
        } => say_alignment(says, progress, section, *have, *need),
        Cause::NoRoom {
            section,
            size,
            align,
        } => say_shortage(
            says,
            progress,
            b"no room in ",
            section,
            *size,
            b" at ",
            *align,
        ),
        Cause::SmallHole { section, size } => say_hole(says, progress, section, *size),
        Cause::NoTableRoom {
            section,
            need,
            reserved,
        } => say_shortage(
            says,
            progress,
            b"no room in table ",
            section,
            *need,
            b" of ",
            *reserved,
        ),
        Cause::UpdateOverflow { p, value, .. } => say_overflow(says, progress, *p, *value),
    }
}

// Says that a piece asks for more alignment than its output section has.
fn say_alignment<S: Sink>(
    says: &mut S,
    progress: Progress,
    section: &Name,
    have: u64,
    need: u64,
) -> Progress
    ensures { Goes (S.spoken says.old) (S.spoken says.new) (cause_text (Cause.MoreAlign section.now have need)) progress result }
{
    let progress = say_named(says, progress, b"alignment of ", section);
    let progress = say_bytes(says, progress, b": ");
    let progress = say_decimal(says, progress, need);
    let progress = say_bytes(says, progress, b" needed, ");
    let progress = say_decimal(says, progress, have);
    say_bytes(says, progress, b" there")
}

// Says what has no room, and two sizes with what is between them.
fn say_shortage<S: Sink>(
    says: &mut S,
    progress: Progress,
    title: &[u8],
    section: &Name,
    first: u64,
    between: &[u8],
    second: u64,
) -> Progress
    ensures { Goes (S.spoken says.old) (S.spoken says.new) (title.now ++ section.now ++ codes ": " ++ hex_text first ++ between.now ++ hex_text second) progress result }
{
    let progress = say_named(says, progress, title, section);
    let progress = say_bytes(says, progress, b": ");
    let progress = say_hex(says, progress, first);
    let progress = say_bytes(says, progress, between);
    say_hex(says, progress, second)
}

// Says that a hole is left that cannot be filled.
fn say_hole<S: Sink>(says: &mut S, progress: Progress, section: &Name, size: u64) -> Progress
    ensures { Goes (S.spoken says.old) (S.spoken says.new) (cause_text (Cause.SmallHole section.now size)) progress result }
{
    let progress = say_bytes(says, progress, b"hole of ");
    let progress = say_hex(says, progress, size);
    let progress = say_bytes(says, progress, b" in ");
    say_name(says, progress, section)
}

// Says the place of a field and the value that does not fit it.
fn say_overflow<S: Sink>(says: &mut S, progress: Progress, p: u64, value: u64) -> Progress
    ensures { Goes (S.spoken says.old) (S.spoken says.new) (codes "overflow at " ++ hex_text p ++ codes ": " ++ hex_text value) progress result }
{
    let progress = say_bytes(says, progress, b"overflow at ");
    let progress = say_hex(says, progress, p);
    let progress = say_bytes(says, progress, b": ");
    say_hex(says, progress, value)
}
