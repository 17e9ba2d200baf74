//! Where a status's text goes: a sink of bytes, in memory or the standard output.

ghost use Rattle.lk_report.specs.Spoken.{Spoken, Puts};

/// What a call of the outside answers.
#[derive(Clone, Copy, PartialEq, Eq, Debug)]
pub enum Answer {
    /// The call did what it says.
    Done,
    /// The call failed, and its object counted a fault.
    Failed,
}

/// A place that takes bytes one after another. Its meaning is what it holds, where it shows that,
/// and a count of faults that never falls.
pub trait Sink {
    /// What the sink holds and how often it failed.
    ghost spoken: { Self → Spoken };

    /// Appends the bytes. After a failure only a prefix of them was appended, and the count rose.
    fn put(&mut self, bytes: &[u8]) -> Answer
        ensures { Puts (spoken self.old) (spoken self.new) bytes.now result };
}
