//! One text after another into a sink, up to the first put that fails.
//!
//! Each function takes the progress so far and gives the progress after it, so that a longer text
//! is said part by part in a straight line; once a put failed, the later parts put nothing.

ghost use Rattle.lk_report.specs.Goes.{Goes};
ghost use Rattle.std.specs.Prelude.{◌++◌};

use crate::names::Name;
use crate::sinks::{Answer, Sink};

/// Whether more may be said.
#[derive(Clone, Copy, PartialEq, Eq, Debug)]
pub enum Progress {
    /// Every put was done.
    Going,
    /// A put failed, so nothing more is said.
    Stopped,
}

/// Says these bytes.
pub fn say_bytes<S: Sink>(says: &mut S, progress: Progress, text: &[u8]) -> Progress
    ensures { Goes (S.spoken says.old) (S.spoken says.new) text.now progress result }
{
    match progress {
        Progress::Going => match says.put(text) {
            Answer::Done => Progress::Going,
            Answer::Failed => Progress::Stopped,
        },
        Progress::Stopped => Progress::Stopped,
    }
}

/// Says a name or a path as it is.
pub fn say_name<S: Sink>(says: &mut S, progress: Progress, name: &Name) -> Progress
    ensures { Goes (S.spoken says.old) (S.spoken says.new) name.now progress result }
{
    say_bytes(says, progress, name.as_slice())
}

/// Says these bytes and then a name.
pub fn say_named<S: Sink>(says: &mut S, progress: Progress, title: &[u8], name: &Name) -> Progress
    ensures { Goes (S.spoken says.old) (S.spoken says.new) (title.now ++ name.now) progress result }
{
    let progress = say_bytes(says, progress, title);
    say_name(says, progress, name)
}
