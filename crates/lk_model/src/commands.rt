//! What the words of a command say.

ghost use Rattle.std.specs.Prelude.{◌≡◌, IfOk};

use lk_report::{List, Name, NoMemory, OptionRecord, TryCopy};
use std::alloc::Global;

/// A command: where the output goes, how it is made, and the inputs in their order.
#[derive(PartialEq, Eq, Debug, Drop)]
pub struct Command {
    /// The output's path.
    pub output: Name,
    /// How the output is made.
    pub mode: Mode,
    /// The earlier image; `None` where it is the output itself.
    pub base: Option<Name>,
    /// The options that an image records; `dynamic` is false here.
    pub options: OptionRecord,
    /// The directories to search for libraries, in order, without the standard ones.
    pub dirs: NameList,
    /// The inputs, alone or in lib groups.
    pub items: ItemList,
    /// The number of workers, 1 to 16.
    pub workers: u32,
}

/// How the output is made.
#[derive(Clone, Copy, PartialEq, Eq, Debug)]
pub enum Mode {
    /// Everything anew.
    Full,
    /// An update of the earlier image, or no output.
    Update,
    /// An update where it can be made, else everything anew.
    Either,
}

/// An input outside a lib group, or a lib group with its members.
#[derive(PartialEq, Eq, Debug, Drop)]
pub enum Item {
    One(Word),
    Lib(WordList),
}

/// An input's word.
#[derive(PartialEq, Eq, Debug, Drop)]
pub struct Word {
    /// A path, or a library's name without `-l`.
    pub text: Name,
    /// Whether it is a library's name.
    pub library: bool,
    /// What the command says of its changes.
    pub mark: Mark,
}

impl Word {
    /// An equal word.
    pub fn copy(&self, alloc: Global) -> Result<Self, NoMemory>
        ensures { IfOk result (λ c. c ≡ self.now) }
    {
        Ok(Word {
            text: self.text.copy(alloc)?,
            library: self.library,
            mark: self.mark,
        })
    }
}

impl TryCopy for Word {
    fn try_copy(&self, alloc: Global) -> Result<Self, NoMemory> {
        self.copy(alloc)
    }
}

/// What the command says of an input's changes.
#[derive(Clone, Copy, PartialEq, Eq, Debug)]
pub enum Mark {
    /// The stamps decide.
    Unknown,
    /// It is taken as changed.
    Changed,
    /// It is taken as unchanged.
    Unchanged,
}

/// Words of inputs in order.
pub type WordList = List<Word>;

/// Inputs and lib groups in order.
pub type ItemList = List<Item>;

pub use lk_report::NameList;
