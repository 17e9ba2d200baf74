//! The input files of a link: the trait `Files` and its answers.

ghost use Rattle.lk_outside.specs.FilesState.{FilesState, StatGives, ReadGives};

use lk_report::{Bytes, Name, Stamp};

/// The answer of a look-up of a path.
#[derive(Clone, Copy, PartialEq, Eq, Debug)]
pub enum StatAnswer {
    /// The file is there. Its stamp, where it has one.
    Found(Option<Stamp>),
    /// No file has this path, and the count of misses rose.
    Absent,
    /// The look-up failed, and the count of faults rose.
    Failed,
    /// There was no memory for the answer.
    NoMemory,
}

/// The answer of a read of a whole file.
#[derive(Drop, Debug)]
pub enum ReadAnswer {
    /// The file's bytes.
    Got(Bytes),
    /// No file has this path, and the count of misses rose.
    Absent,
    /// The read failed, and the count of faults rose.
    Failed,
    /// There was no memory for the bytes.
    NoMemory,
}

/// The input files. Its meaning is a map from paths to bytes and stamps with the paths asked for,
/// where it reports these, and two counts that never fall: the faults and the misses.
pub trait Files {
    /// The map of the files, the paths that were asked for, and the counts.
    ghost state: { Self → FilesState };

    /// Looks a path up without reading the file.
    fn stat(&mut self, path: &Name) -> StatAnswer
        ensures { StatGives (state self.old) path.now result (state self.new) };

    /// Reads the whole file of a path.
    fn read(&mut self, path: &Name) -> ReadAnswer
        ensures { ReadGives (state self.old) path.now result (state self.new) };
}
