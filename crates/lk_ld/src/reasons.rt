//! The system's own error where a read or the device failed.

ghost use Rattle.std.specs.Prelude.{◌≡◌, option_map};
ghost use Rattle.lk_ld.specs.Reasons.{IsTextOf, reported_of, reason_in};

use lk_report::{Name, Status};
use std::{io, str};

/// An error of the system, and the path that it is about.
#[derive(Clone, Copy)]
pub struct Reason<'a> {
    /// The path.
    pub path: &'a Name,
    /// The error.
    pub error: io::Error,
}

/// The error to report of a link that ended with this status, by the last errors of the inputs and of the output.
pub fn reason_of<'a>(
    status: &'a Status,
    output: &'a Name,
    read: Option<io::Error>,
    written: Option<io::Error>,
) -> Option<Reason<'a>>
    ensures { option_map (λ r. (r.path.now, r.error)) result ≡ reason_in status.now output.now read written }
{
    match status {
        Status::ReadFault(path) => reported(path, read),
        Status::DeviceFault => reported(output, written),
        _ => None,
    }
}

/// An error with its path, where there is one.
fn reported<'a>(path: &'a Name, error: Option<io::Error>) -> Option<Reason<'a>>
    ensures { option_map (λ r. (r.path.now, r.error)) result ≡ reported_of path.now error }
{
    match error {
        Some(error) => Some(Reason { path, error }),
        None => None,
    }
}

/// The path as text.
pub fn text_of(path: &Name) -> &str
    ensures { IsTextOf path.now result.now }
{
    match str::from_utf8(path.as_slice()) {
        Ok(text) => text,
        Err(_) => "(a path that is no text)",
    }
}
