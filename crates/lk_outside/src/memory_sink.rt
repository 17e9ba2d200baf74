//! Text kept in memory.

ghost use Rattle.std.specs.Prelude.{◌≡◌, [], None, Some};
ghost use Rattle.lk_report.specs.Spoken.{Puts};
ghost use Rattle.lk_outside.specs.SinkInMemory.{spoken_of, PutsInMemory};
ghost use Rattle.lk_outside.specs.Counts.{no_calls};

use crate::calls::Calls;
use lk_report::{Answer, Sink};
use std::alloc::Global;
use std::marker::Model;

/// A sink that keeps its bytes in memory, and can be set to fail at a call.
#[derive(Drop, Debug)]
pub struct MemorySink {
    bytes: Vec<u8>,
    calls: Calls,
}

impl Model for MemorySink {
    ghost use Rattle.lk_outside.specs.SinkInMemory.{SinkInMemory};

    ghost Value = { SinkInMemory };

    ghost view = { λ m. record { bytes = m.bytes.items; calls = m.calls } };
}

impl MemorySink {
    /// A sink without bytes, none of whose calls is to fail.
    pub fn new(alloc: Global) -> Self
        ensures { result ≡ record { bytes = []; calls = no_calls } }
    {
        MemorySink {
            bytes: Vec::new(alloc),
            calls: Calls::none(),
        }
    }

    /// Lets the n-th call fail, counted from 1 since the sink was made, in place of an earlier
    /// choice. A call already made stays as it was.
    pub fn fail_call(&mut self, n: u64)
        ensures { self.new ≡ record self.old { calls = record self.old.calls { failing = Some n } } }
    {
        self.calls.failing = Some(n);
    }

    /// The bytes put so far.
    pub fn bytes(&self) -> &[u8]
        ensures { result.now ≡ self.now.bytes }
    {
        self.bytes.as_slice()
    }
}

impl Sink for MemorySink {
    ghost spoken = { spoken_of };

    fn put(&mut self, bytes: &[u8]) -> Answer
        ensures meets { Puts (spoken_of self.old) (spoken_of self.new) bytes.now result }
        ensures exactly { PutsInMemory self.old bytes.now result self.new }
    {
        if self.calls.next_fails() || self.bytes.extend_from_slice(bytes).is_err() {
            self.calls.count_fault();
            return Answer::Failed;
        }
        Answer::Done
    }
}
