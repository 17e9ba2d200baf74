//! The host's standard output: a thin edge over std's, which is trusted and tested alone.

ghost use Rattle.std.specs.Prelude.{◌≡◌, None};
ghost use Rattle.lk_outside.specs.Host.{unknown_spoken};

use lk_report::{Answer, Sink};
use std::io;

/// The standard output. It reports nothing of what was put, and counts its failures.
#[derive(Drop, Debug)]
pub struct HostSink {
    rt: HostRuntime,
    faults: u64,
    last_error: Option<io::Error>,
}

impl HostSink {
    /// The standard output of this runtime. Writes nothing.
    pub fn new(rt: HostRuntime) -> Self
        ensures { result ≡ record { rt = rt; faults = 0; last_error = None } }
    {
        HostSink {
            rt,
            faults: 0,
            last_error: None,
        }
    }

    /// What the system said at the last failure, if there was one.
    pub fn last_error(&self) -> Option<io::Error>
        ensures { result ≡ self.now.last_error }
    {
        self.last_error
    }
}

impl Sink for HostSink {
    ghost spoken = { λ s. unknown_spoken s.faults };

    fn put(&mut self, bytes: &[u8]) -> Answer {
        match self.rt.write_all(bytes) {
            Ok(()) => Answer::Done,
            Err(error) => {
                self.last_error = Some(error);
                self.faults = self.faults.saturating_add(1);
                Answer::Failed
            }
        }
    }
}
