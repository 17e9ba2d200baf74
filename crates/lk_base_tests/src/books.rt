//! A sink in memory that counts its puts, and can be set to fail at one of them.

ghost use Rattle.std.specs.Prelude.{Some};
ghost use Rattle.lk_report.specs.Spoken.{Spoken};

use lk_report::{Answer, Sink};
use std::alloc::Global;

/// A sink whose put of the number `fail_at` fails, and appends nothing.
#[derive(Drop)]
pub struct Book {
    pub bytes: Vec<u8>,
    pub faults: u64,
    pub puts: u64,
    fail_at: u64,
}

impl Book {
    pub fn new(alloc: Global, fail_at: u64) -> Self {
        Book {
            bytes: Vec::new(alloc),
            faults: 0,
            puts: 0,
            fail_at,
        }
    }
}

impl Sink for Book {
    ghost spoken = { λ b. record { said = Some b.bytes.items; faults = b.faults } };

    fn put(&mut self, bytes: &[u8]) -> Answer {
        self.puts = self.puts.wrapping_add(1);
        if self.puts == self.fail_at {
            self.faults = self.faults.saturating_add(1);
            return Answer::Failed;
        }
        match self.bytes.extend_from_slice(bytes) {
            Ok(()) => Answer::Done,
            Err(_) => {
                self.faults = self.faults.saturating_add(1);
                Answer::Failed
            }
        }
    }
}
