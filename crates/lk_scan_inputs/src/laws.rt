//! Which inputs are objects without a fault, as the contract of a function that does nothing.

ghost use Rattle.lk_scan_inputs.specs.ObjectLaws.{UnrefusedAreObjects};

/// The inputs of a command that are not refused are objects without a fault, as they were read of their files.
pub fn unrefused_are_objects()
    ensures { UnrefusedAreObjects }
{}
