//! What a link answers: its status, with the variants of the whole order of work.

use crate::causes::Cause;
use crate::faults::{FaultList, UsageFault};
use crate::memory::NoMemory;
use crate::names::Name;

/// How a link that succeeded was made.
#[derive(PartialEq, Eq, Debug, Drop)]
pub enum Outcome {
    /// Everything was placed anew; with the cause why an update gave way, where there was one.
    Full(Option<Cause>),
    /// The earlier image was updated in place.
    Updated,
}

/// The answer of a link. Each variant has an exit status and a text.
#[derive(PartialEq, Eq, Debug, Drop)]
pub enum Status {
    /// The output is the link that was asked for (exit status 0).
    Done(Outcome),
    /// Faults of the inputs, all that were found in the order of the work (1).
    LinkError(FaultList),
    /// The first faulty word of the command (2).
    Usage(UsageFault),
    /// A file could not be looked up or read; its path (3).
    ReadFault(Name),
    /// The output could not be read or written (4).
    DeviceFault,
    /// The allocator gave no memory (5).
    NoMemory,
    /// A number exceeds its limit (6).
    Limit(LimitFault),
    /// The update that was demanded cannot be made (7).
    NotUpdated(Cause),
    /// A part of the linker that later work adds (8).
    NotYet(Waiting),
}

impl From<NoMemory> for Status {
    ghost use Rattle.std.specs.Prelude.{◌≡◌};
    ghost use Rattle.lk_report.specs.declared.statuses.Status.TheVariants as status;

    ghost from_gives = { λ _ answer. answer ≡ status.NoMemory };

    fn from(_none: NoMemory) -> Status {
        Status::NoMemory
    }
}

/// What is not built yet.
#[derive(PartialEq, Eq, Debug, Drop)]
pub enum Waiting {
    /// A form of the words.
    Words,
    /// A form of an input or of the link; the path of the input that has it.
    Form { path: Name },
}

/// A number that exceeds its limit.
#[derive(Clone, Copy, PartialEq, Eq, Debug)]
pub struct LimitFault {
    /// The limit that is exceeded.
    pub which: LimitKind,
    /// The whole count, or the bytes, that exceed it.
    pub number: u64,
}

/// The limits of a link.
#[derive(Clone, Copy, PartialEq, Eq, Debug)]
pub enum LimitKind {
    /// 4,096 inputs.
    Inputs,
    /// 64 MiB for one input.
    InputSize,
    /// 1 GiB of inputs read.
    InputTotal,
    /// 2^20 global names.
    Names,
    /// 2^22 recorded references.
    References,
    /// 60,000 output sections.
    Sections,
    /// 64 program headers.
    Headers,
    /// An image of 512 MiB.
    Image,
    /// 2 GiB of memory.
    Memory,
}
