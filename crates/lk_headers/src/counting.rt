//! The number of program headers (gABI "Program Header"), known before one of them is written.

ghost use Rattle.std.specs.Prelude.{◌≡◌, ◌<◌, ◌^◌, Bool, is_some, length};
ghost use Rattle.lk_model.specs.Segments.{program_headers, tls_segment};
ghost use Rattle.lk_headers.specs.Counts.{count_over, one_if, shown_in};

use crate::loads::has_rows;
use crate::segments::Loaded;
use crate::shown::{Shown, shown_count};
use crate::thread_block::thread_segment;
use lk_model::layouts::Placement;

/// 1 where something is present, else 0.
fn one_if(there: bool) -> u64
    ensures { result ≡ one_if there }
{
    if there { 1 } else { 0 }
}

/// Whether a placement has a thread-local segment (gABI "Thread-Local Storage").
fn has_thread_segment(place: &Placement) -> bool
    ensures { result ≡ is_some (tls_segment place.now) }
{
    thread_segment(place).is_some()
}

/// The number of sections of a placement that have a program header of this kind.
fn shown_in(kind: Shown, place: &Placement) -> u64
    ensures value { result ≡ shown_in kind place.now }
    ensures bound { result < 2 ^ 60 }
{
    shown_count(kind, place.sections.as_slice()) as u64
}

/// The number of the program headers, from their parts.
#[tactic(auto, unfolding(crate::specs::Counts::count_over))]
fn count_over(place: &Placement) -> u64
    ensures { result ≡ count_over place.now }
{
    let interpreters = shown_in(Shown::Interpreter, place);
    let shown = interpreters + shown_in(Shown::Dynamic, place) + shown_in(Shown::Note, place);
    let segments = one_if(has_rows(Loaded::Second, place)) + one_if(has_thread_segment(place));
    one_if(0 < interpreters) + shown + segments + 3
}

/// The number of program headers of a placement.
#[tactic(auto, using(crate::proofs::Counted::counted))]
pub(crate) fn header_count(place: &Placement) -> u64
    ensures { (exec_stack : Bool) → result ≡ length (program_headers place.now exec_stack) }
{
    count_over(place)
}
