//! What single words mean.

use lk_model::commands::{Mark, Mode};

/// The options that have a value.
#[derive(Clone, Copy, PartialEq, Eq, Debug)]
pub(crate) enum Valued {
    /// `-o`: the output's path.
    Output,
    /// `-e`, `--entry=`: the entry symbol.
    Entry,
    /// `-L`: a directory to search for libraries.
    Dir,
    /// `-l`: a library's name.
    Library,
    /// `-dynamic-linker`, `--dynamic-linker=`: the interpreter's path.
    Interp,
    /// `-rpath`: a directory of the run path.
    RunPath,
    /// `-m`: the machine, which is always the same.
    Machine,
    /// `--incremental-base=`: the earlier image.
    Base,
    /// `--incremental-patch=`: the room for growth, 0 to 500 percent.
    Patch,
    /// `--thread-count`: the number of workers, 1 to 16.
    ThreadCount,
}

/// The words that are alone.
#[derive(Clone, Copy, PartialEq, Eq, Debug)]
pub(crate) enum Flag {
    /// Every definition is exported.
    ExportDynamic,
    /// How the output is made.
    InMode(Mode),
    /// The mark of the inputs after it.
    Marked(Mark),
    /// As many workers as there are where no word says another number.
    Threads,
    /// One worker.
    NoThreads,
    /// A lib group begins.
    StartLib,
    /// The lib group ends.
    EndLib,
}

/// What a word is.
#[derive(Clone, Copy)]
pub(crate) enum Meaning<'a> {
    /// No word of a command.
    Meaningless,
    /// An input's path.
    Path,
    /// A word that is alone.
    Alone(Flag),
    /// An option whose value is the next word.
    Apart(Valued),
    /// An option with its value in the same word.
    Joined(Valued, &'a [u8]),
}
