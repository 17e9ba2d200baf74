//! What an open file is to the next link, as the contract of a function that does nothing.

ghost use Rattle.lk_commit.specs.CrashStates.{OpenIsNoBase};

/// A file of at most 4,096 bytes is no base, and one without the seal is an open base: no update begins from either.
pub fn open_files_are_no_base()
    ensures { OpenIsNoBase }
{}
