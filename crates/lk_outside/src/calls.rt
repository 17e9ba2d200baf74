//! The calls made on an object in memory: how many, which one is to fail, and how many failed.

ghost use Rattle.std.specs.Prelude.{◌≡◌, ◌↔◌, IsTrue};
ghost use Rattle.lk_outside.specs.Counts.{counted, FailsNext, call_made, no_calls};

/// The calls of one object, all kinds together.
#[derive(Clone, Copy, PartialEq, Eq, Debug)]
pub struct Calls {
    /// How many calls were made. Stays at its last value.
    pub made: u64,
    /// The number of the call that is to fail, counted from 1, where one was named.
    pub failing: Option<u64>,
    /// The number of the last call that may succeed, where every call after it is to fail.
    pub stopping: Option<u64>,
    /// How many calls failed. Stays at its last value.
    pub faults: u64,
}

impl Calls {
    /// No call was made, and none is to fail.
    pub fn none() -> Self
        ensures { result ≡ no_calls }
    {
        Calls {
            made: 0,
            failing: None,
            stopping: None,
            faults: 0,
        }
    }

    /// Counts one more call, and reports whether it is to fail.
    pub fn next_fails(&mut self) -> bool
        ensures answer { IsTrue result ↔ FailsNext self.old }
        ensures counted { self.new ≡ call_made self.old }
    {
        let is_named = match self.failing {
            Some(number) => number > self.made && number - self.made == 1,
            None => false,
        };
        let is_after = match self.stopping {
            Some(last) => last <= self.made,
            None => false,
        };
        self.made = self.made.saturating_add(1);
        is_named || is_after
    }

    /// Counts a call that failed.
    pub fn count_fault(&mut self)
        ensures { self.new ≡ record self.old { faults = counted self.old.faults } }
    {
        self.faults = self.faults.saturating_add(1);
    }
}
