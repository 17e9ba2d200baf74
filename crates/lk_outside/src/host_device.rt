//! The host's output file: a thin edge over std's files, which is trusted and tested alone.

ghost use Rattle.std.specs.Prelude.{◌≡◌, None, Some, MatchResult};
ghost use Rattle.lk_outside.specs.Counts.{counted};
ghost use Rattle.lk_outside.specs.Host.{unknown_disk};

use crate::devices::{Device, LengthAnswer};
use crate::host_files::path_text;
use lk_report::{Answer, Name};
use std::fs::{File, OpenOptions};
use std::io;
use std::io::ErrorKind;
use std::os::unix::fs::{FileExt, OpenOptionsExt};

/// The output file of the host. It reports nothing of it, and counts its failures.
///
/// An absent file has length 0 and is made at the first write, with the mode 0777 less the umask, so
/// that an image can be run; a file that is there keeps its mode. A range or a cut that lies
/// outside the file is a failure.
#[derive(Drop)]
pub struct HostDevice {
    file: HostFile,
    faults: u64,
    last_error: Option<io::Error>,
}

impl HostDevice {
    /// The file of this path. Touches no file.
    pub fn at(rt: HostRuntime, path: Name) -> Self
        ensures { result ≡ record {
          file = record { rt = rt; path = path; handle = None };
          faults = 0;
          last_error = None;
        } }
    {
        HostDevice {
            file: HostFile {
                rt,
                path,
                handle: None,
            },
            faults: 0,
            last_error: None,
        }
    }

    /// What the system said at the last failure, if there was one.
    pub fn last_error(&self) -> Option<io::Error>
        ensures { result ≡ self.now.last_error }
    {
        self.last_error
    }

    /// Done, or a failure that is counted.
    fn answer(&mut self, outcome: io::Result<()>) -> Answer
        ensures { MatchResult outcome
            (λ _. (result ≡ Answer.Done) × (self.new ≡ self.old))
            (λ e. (result ≡ Answer.Failed) × (self.new ≡ record self.old {
              faults = counted self.old.faults;
              last_error = Some e;
            })) }
    {
        match outcome {
            Ok(()) => Answer::Done,
            Err(error) => {
                self.last_error = Some(error);
                self.faults = self.faults.saturating_add(1);
                Answer::Failed
            }
        }
    }
}

/// The file of a path, opened at its first use.
#[derive(Drop)]
struct HostFile {
    rt: HostRuntime,
    path: Name,
    handle: Option<File>,
}

impl HostFile {
    /// Opens the file, if it is there and was not opened yet.
    fn open_if_there(&mut self) -> io::Result<()> {
        if self.handle.is_some() {
            return Ok(());
        }
        let mut how = OpenOptions::new();
        how.read(true).write(true);
        match how.open(&self.rt, path_text(&self.path)?) {
            Ok(file) => {
                self.handle = Some(file);
                Ok(())
            }
            Err(error) if error.kind() == ErrorKind::NotFound => Ok(()),
            Err(error) => Err(error),
        }
    }

    /// Opens the file, and makes it where it is absent.
    fn open_or_make(&mut self) -> io::Result<()> {
        if self.handle.is_some() {
            return Ok(());
        }
        let mut how = OpenOptions::new();
        how.read(true).write(true).create(true).mode(0o777);
        self.handle = Some(how.open(&self.rt, path_text(&self.path)?)?);
        Ok(())
    }

    /// The length, 0 of an absent file.
    fn length(&mut self) -> io::Result<u64> {
        self.open_if_there()?;
        match &self.handle {
            Some(file) => Ok(file.metadata()?.len()),
            None => Ok(0),
        }
    }

    fn read_at(&mut self, at: u64, into: &mut [u8]) -> io::Result<()> {
        let length = self.length()?;
        if at > length || into.len() as u64 > length - at {
            return Err(outside());
        }
        match &self.handle {
            Some(file) => file.read_exact_at(into, at),
            None => Ok(()),
        }
    }

    fn write_at(&mut self, at: u64, bytes: &[u8]) -> io::Result<()> {
        if at > self.length()? {
            return Err(outside());
        }
        self.open_or_make()?;
        match &self.handle {
            Some(file) => file.write_all_at(bytes, at),
            None => Ok(()),
        }
    }

    fn cut(&mut self, length: u64) -> io::Result<()> {
        if length > self.length()? {
            return Err(outside());
        }
        match &self.handle {
            Some(file) => file.set_len(length),
            None => Ok(()),
        }
    }

    fn sync(&mut self) -> io::Result<()> {
        self.open_if_there()?;
        match &self.handle {
            Some(file) => file.sync_all(),
            None => Ok(()),
        }
    }
}

/// The refusal of a range or a cut outside the file.
fn outside() -> io::Error {
    io::Error::new(ErrorKind::InvalidInput, "the range lies outside the file")
}

impl Device for HostDevice {
    ghost disk = { λ d. unknown_disk d.faults };

    fn length(&mut self) -> LengthAnswer {
        match self.file.length() {
            Ok(length) => LengthAnswer::Known(length),
            Err(error) => {
                self.last_error = Some(error);
                self.faults = self.faults.saturating_add(1);
                LengthAnswer::Failed
            }
        }
    }

    fn read_at(&mut self, at: u64, into: &mut [u8]) -> Answer {
        let outcome = self.file.read_at(at, into);
        self.answer(outcome)
    }

    fn write_at(&mut self, at: u64, bytes: &[u8]) -> Answer {
        let outcome = self.file.write_at(at, bytes);
        self.answer(outcome)
    }

    fn cut(&mut self, length: u64) -> Answer {
        let outcome = self.file.cut(length);
        self.answer(outcome)
    }

    fn sync(&mut self) -> Answer {
        let outcome = self.file.sync();
        self.answer(outcome)
    }
}
