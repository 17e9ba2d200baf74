//! The parts of a file, read once for its checks and for all that is read after them.

use lk_elf::{Ehdr, Shdr, Sym};

/// The header of a file, its section headers, number n at place n, and its symbols, number k at place k.
#[derive(Drop)]
pub(crate) struct FileParts {
    pub(crate) header: Ehdr,
    pub(crate) sections: Vec<Shdr>,
    pub(crate) symbols: Vec<Sym>,
}
