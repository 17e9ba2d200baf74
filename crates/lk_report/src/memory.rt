//! Out of memory, the one answer that no contract ties to a cause, and copies, which may give it.

ghost use Rattle.std.specs.Prelude.{◌≡◌, IfOk};

use std::alloc::Global;

/// The allocator gave no memory. Any call that allocates may answer it.
#[derive(Clone, Copy, PartialEq, Eq, Debug)]
pub struct NoMemory;

/// A type whose values can be copied where memory is had.
pub trait TryCopy: Sized {
    /// An equal value, or out of memory.
    fn try_copy(&self, alloc: Global) -> Result<Self, NoMemory>
        ensures { IfOk result (λ c. c ≡ self.now) };
}
