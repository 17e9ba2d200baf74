//! A link in memory: its words and its files, and what it did.

use lk_driver::run_alone;
use lk_outside::{Files, FreeTurnstile, MemoryDevice, MemoryFiles, MemorySink};
use lk_report::{Bytes, Name, NameList};
use std::alloc::Global;
use std::test::Fail;

/// What the output holds before a link.
pub const OLD: &[u8] = b"old";

/// What a link did: the exit status, what was said, and the device.
#[derive(Drop)]
pub struct Ended {
    pub status: u8,
    pub says: MemorySink,
    pub out: MemoryDevice,
}

impl Ended {
    /// Whether it ended with this status and text, and left the output as it was.
    pub fn refused(&self, status: u8, text: &[u8]) -> bool {
        self.says(status, text) && self.out.bytes() == OLD
    }

    /// Whether it ended with this status and text.
    pub fn says(&self, status: u8, text: &[u8]) -> bool {
        self.status == status && self.says.bytes() == text
    }

    /// Whether it was done.
    pub fn is_done(&self) -> bool {
        self.says(0, b"full link\n")
    }

    /// Whether the image holds these bytes at this place.
    pub fn holds(&self, at: usize, bytes: &[u8]) -> bool {
        match self.out.bytes().get(at..) {
            Some(rest) => rest.starts_with(bytes),
            None => false,
        }
    }
}

/// The words that a line has, with a space between two.
pub fn words_of(alloc: Global, line: &str) -> Result<NameList, Fail> {
    let mut words = NameList::new(alloc);
    for word in line.split(' ') {
        words.push(Name::from_slice(alloc, word.as_bytes())?)?;
    }
    Ok(words)
}

/// The output before a link, at whose call of this number, from 1, it fails.
pub fn old_output(alloc: Global, failing: Option<u64>) -> Result<MemoryDevice, Fail> {
    let mut out = MemoryDevice::of(alloc, &Bytes::from_slice(alloc, OLD)?)?;
    if let Some(n) = failing {
        out.fail_call(n);
    }
    Ok(out)
}

/// Links what the words of a line ask for.
pub fn link<F: Files>(alloc: Global, line: &str, files: &mut F) -> Result<Ended, Fail> {
    let out = old_output(alloc, None)?;
    link_onto(alloc, line, files, out)
}

/// Links what the words of a line ask for onto a device.
pub fn link_onto<F: Files>(
    alloc: Global,
    line: &str,
    files: &mut F,
    out: MemoryDevice,
) -> Result<Ended, Fail> {
    let says = MemorySink::new(alloc);
    link_saying(alloc, line, files, out, says)
}

/// Links what the words of a line ask for onto a device, and says it to a sink.
pub fn link_saying<F: Files>(
    alloc: Global,
    line: &str,
    files: &mut F,
    mut out: MemoryDevice,
    mut says: MemorySink,
) -> Result<Ended, Fail> {
    let words = words_of(alloc, line)?;
    let status = run_alone(alloc, &words, files, &mut out, &mut says, &FreeTurnstile).exit_code();
    Ok(Ended { status, says, out })
}

/// These files, and one more.
pub fn with(mut files: MemoryFiles, path: &str, bytes: Bytes) -> Result<MemoryFiles, Fail> {
    files.put(path, bytes, None)?;
    Ok(files)
}

/// The file `a.o`.
pub fn one_file(alloc: Global, a: Bytes) -> Result<MemoryFiles, Fail> {
    with(MemoryFiles::new(alloc), "a.o", a)
}

/// The files `a.o` and `b.o`.
pub fn two_files(alloc: Global, a: Bytes, b: Bytes) -> Result<MemoryFiles, Fail> {
    with(one_file(alloc, a)?, "b.o", b)
}

/// What a link of one file did.
pub fn alone(alloc: Global, file: Bytes) -> Result<Ended, Fail> {
    let mut files = one_file(alloc, file)?;
    link(alloc, "a.o", &mut files)
}
