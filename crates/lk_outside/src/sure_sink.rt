//! Text kept in memory, which fails by out of memory alone.

ghost use Rattle.std.specs.Prelude.{◌≡◌, []};
ghost use Rattle.lk_report.specs.Spoken.{Puts};
ghost use Rattle.lk_outside.specs.SinkInMemory.{sure_spoken_of, SurePuts};

use crate::memory_sink::MemorySink;
use lk_report::{Answer, Sink};
use std::alloc::Global;
use std::marker::Model;

/// A sink that keeps its bytes in memory. A put fails only where there is no memory for the bytes.
#[derive(Drop, Debug)]
pub struct SureSink {
    sink: MemorySink,
}

impl Model for SureSink {
    ghost use Rattle.std.specs.Prelude.{◌≡◌, None};
    ghost use Rattle.lk_outside.specs.SinkInMemory.{SureSinkInMemory};

    ghost Value = { SureSinkInMemory };

    ghost view = { λ s. record { bytes = s.sink.bytes; faults = s.sink.calls.faults } };

    ghost invariant = { λ s. (s.sink.calls.failing ≡ None) × (s.sink.calls.stopping ≡ None) };
}

impl SureSink {
    /// A sink without bytes.
    pub fn new(alloc: Global) -> Self
        ensures { result ≡ record { bytes = []; faults = 0 } }
    {
        SureSink {
            sink: MemorySink::new(alloc),
        }
    }

    /// The bytes put so far.
    pub fn bytes(&self) -> &[u8]
        ensures { result.now ≡ self.now.bytes }
    {
        self.sink.bytes()
    }
}

impl Sink for SureSink {
    ghost spoken = { sure_spoken_of };

    fn put(&mut self, bytes: &[u8]) -> Answer
        ensures meets { Puts (sure_spoken_of self.old) (sure_spoken_of self.new) bytes.now result }
        ensures exactly { SurePuts self.old bytes.now result self.new }
    {
        self.sink.put(bytes)
    }
}
