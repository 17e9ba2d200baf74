//! The text of a status, and saying it.

ghost use Rattle.lk_report.specs.Goes.{Goes};
ghost use Rattle.lk_report.specs.Spoken.{Says};
ghost use Rattle.lk_report.specs.Texts.{limit_kind_name, outcome_text, fault_line, waiting_text, text_of};
ghost use Rattle.std.specs.Prelude.{◌≡◌, flat_map};

use crate::cause_texts::say_cause;
use crate::causes::Cause;
use crate::fault_texts::{say_fault_line, say_usage};
use crate::faults::{Fault, UsageFault};
use crate::names::Name;
use crate::numbers::say_decimal;
use crate::saying::{Progress, say_bytes, say_name, say_named};
use crate::sinks::Sink;
use crate::statuses::{LimitFault, LimitKind, Outcome, Status, Waiting};

/// Says the text of a status; takes no memory. Nothing is put after a put that failed, so what was
/// said is then a prefix of the text, and the sink's count rose.
pub fn say<S: Sink>(status: &Status, says: &mut S)
    ensures { Says (S.spoken says.old) (S.spoken says.new) (text_of status.now) }
{
    let _end = say_status(says, Progress::Going, status);
}

// Says each line of a status.
#[tactic(auto, unfolding(crate::specs::Texts::text_of))]
fn say_status<S: Sink>(says: &mut S, progress: Progress, status: &Status) -> Progress
    ensures { Goes (S.spoken says.old) (S.spoken says.new) (text_of status.now) progress result }
{
    match status {
        Status::Done(outcome) => say_done(says, progress, outcome),
        Status::LinkError(faults) => say_faults(says, progress, faults.as_slice()),
        Status::Usage(fault) => say_usage_line(says, progress, fault),
        Status::ReadFault(path) => say_read_fault(says, progress, path),
        Status::DeviceFault => say_bytes(says, progress, b"error: output device failed\n"),
        Status::NoMemory => say_bytes(says, progress, b"error: no memory\n"),
        Status::Limit(fault) => say_limit(says, progress, fault),
        Status::NotUpdated(cause) => say_not_updated(says, progress, cause),
        Status::NotYet(waiting) => say_not_yet(says, progress, waiting),
    }
}

// Says how a link that succeeded was made, as a line.
fn say_done<S: Sink>(says: &mut S, progress: Progress, outcome: &Outcome) -> Progress
    ensures { Goes (S.spoken says.old) (S.spoken says.new) (text_of (Status.Done outcome.now)) progress result }
{
    let progress = say_outcome(says, progress, outcome);
    say_bytes(says, progress, b"\n")
}

// Says how a link that succeeded was made.
#[tactic(auto, unfolding(crate::specs::Texts::outcome_text))]
fn say_outcome<S: Sink>(says: &mut S, progress: Progress, outcome: &Outcome) -> Progress
    ensures { Goes (S.spoken says.old) (S.spoken says.new) (outcome_text outcome.now) progress result }
{
    match outcome {
        Outcome::Full(None) => say_bytes(says, progress, b"full link"),
        Outcome::Full(Some(cause)) => say_full_after(says, progress, cause),
        Outcome::Updated => say_bytes(says, progress, b"updated"),
    }
}

// Says that a full link was made, and the cause why an update gave way.
fn say_full_after<S: Sink>(says: &mut S, progress: Progress, cause: &Cause) -> Progress
    ensures { Goes (S.spoken says.old) (S.spoken says.new) (outcome_text (Outcome.Full (Some cause.now))) progress result }
{
    let progress = say_bytes(says, progress, b"full link: ");
    say_cause(says, progress, cause)
}

// Says a line for each fault.
fn say_faults<S: Sink>(says: &mut S, progress: Progress, faults: &[Fault]) -> Progress
    ensures { Goes (S.spoken says.old) (S.spoken says.new) (flat_map fault_line faults.now) progress result }
{
    let mut progress = progress;
    for fault in faults {
        progress = say_fault_line(says, progress, fault);
    }
    progress
}

// Says why the words are no command, as a line.
fn say_usage_line<S: Sink>(says: &mut S, progress: Progress, fault: &UsageFault) -> Progress
    ensures { Goes (S.spoken says.old) (S.spoken says.new) (text_of (Status.Usage fault.now)) progress result }
{
    let progress = say_bytes(says, progress, b"usage: ");
    let progress = say_usage(says, progress, fault);
    say_bytes(says, progress, b"\n")
}

// Says which file cannot be read, as a line.
fn say_read_fault<S: Sink>(says: &mut S, progress: Progress, path: &Name) -> Progress
    ensures { Goes (S.spoken says.old) (S.spoken says.new) (text_of (Status.ReadFault path.now)) progress result }
{
    let progress = say_named(says, progress, b"error: cannot read ", path);
    say_bytes(says, progress, b"\n")
}

// Says a number that exceeds its limit, as a line.
fn say_limit<S: Sink>(says: &mut S, progress: Progress, fault: &LimitFault) -> Progress
    ensures { Goes (S.spoken says.old) (S.spoken says.new) (text_of (Status.Limit fault.now)) progress result }
{
    let progress = say_bytes(says, progress, b"error: limit ");
    let progress = say_limit_kind(says, progress, fault.which);
    let progress = say_bytes(says, progress, b": ");
    let progress = say_decimal(says, progress, fault.number);
    say_bytes(says, progress, b"\n")
}

// Says the name of a limit.
#[tactic(auto, unfolding(crate::specs::Texts::limit_kind_name))]
fn say_limit_kind<S: Sink>(says: &mut S, progress: Progress, which: LimitKind) -> Progress
    ensures { Goes (S.spoken says.old) (S.spoken says.new) (limit_kind_name which) progress result }
{
    match which {
        LimitKind::Inputs => say_bytes(says, progress, b"Inputs"),
        LimitKind::InputSize => say_bytes(says, progress, b"InputSize"),
        LimitKind::InputTotal => say_bytes(says, progress, b"InputTotal"),
        LimitKind::Names => say_bytes(says, progress, b"Names"),
        LimitKind::References => say_bytes(says, progress, b"References"),
        LimitKind::Sections => say_bytes(says, progress, b"Sections"),
        LimitKind::Headers => say_bytes(says, progress, b"Headers"),
        LimitKind::Image => say_bytes(says, progress, b"Image"),
        LimitKind::Memory => say_bytes(says, progress, b"Memory"),
    }
}

// Says why the update that was demanded cannot be made, as a line.
fn say_not_updated<S: Sink>(says: &mut S, progress: Progress, cause: &Cause) -> Progress
    ensures { Goes (S.spoken says.old) (S.spoken says.new) (text_of (Status.NotUpdated cause.now)) progress result }
{
    let progress = say_bytes(says, progress, b"not updated: ");
    let progress = say_cause(says, progress, cause);
    say_bytes(says, progress, b"\n")
}

// Says what is not built yet, as a line.
fn say_not_yet<S: Sink>(says: &mut S, progress: Progress, waiting: &Waiting) -> Progress
    ensures { Goes (S.spoken says.old) (S.spoken says.new) (text_of (Status.NotYet waiting.now)) progress result }
{
    let progress = say_bytes(says, progress, b"not built yet: ");
    let progress = say_waiting(says, progress, waiting);
    say_bytes(says, progress, b"\n")
}

// Says what is not built yet.
#[tactic(auto, unfolding(crate::specs::Texts::waiting_text))]
fn say_waiting<S: Sink>(says: &mut S, progress: Progress, waiting: &Waiting) -> Progress
    ensures { Goes (S.spoken says.old) (S.spoken says.new) (waiting_text waiting.now) progress result }
{
    match waiting {
        Waiting::Words => say_bytes(says, progress, b"words"),
        Waiting::Form { path } => say_name(says, progress, path),
    }
}
