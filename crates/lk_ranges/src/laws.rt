//! What gathered bytes are, as the contract of a function that does nothing.

ghost use Rattle.lk_ranges.specs.Stretches.{BytesAreThese};

/// The bytes of ranges that share no byte and end in the file have the bytes of each range at its start, and 0 at
/// every other offset.
pub fn gathered_bytes_are_the_ranges()
    ensures { BytesAreThese }
{}
