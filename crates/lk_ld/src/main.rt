//! The linker's program: `lk_ld WORDS`.
//!
//! It makes the real files, the output device of the words' output and the standard output, hands all
//! to `run_alone` and ends with the status's number. The status's text goes to the standard output;
//! where a read or the device failed, the system's own reason goes to the standard error.
#![tactic(auto)]

mod arguments;
mod notices;
mod reasons;

use arguments::{Arguments, arguments_of};
use lk_driver::{output_of, run_alone};
use lk_outside::{FreeTurnstile, HostDevice, HostFiles, HostSink};
use lk_report::{NameList, Status, Waiting, say};
use notices::notice_of;
use reasons::{Reason, reason_of, text_of};
use std::env;
use std::process::ExitCode;

fn main(rt: HostRuntime) -> ExitCode {
    match arguments_of(rt.alloc(), env::args(&rt)) {
        Arguments::Words(words) => match notice_of(&words) {
            Some(notice) => say_notice(rt, notice),
            None => link(rt, &words),
        },
        Arguments::NoText => end(rt, &Status::NotYet(Waiting::Words)),
        Arguments::NoMemory => end(rt, &Status::NoMemory),
    }
}

/// Links what the words ask for, to the output that they name.
fn link(rt: HostRuntime, words: &NameList) -> ExitCode {
    let Ok(output) = output_of(rt.alloc(), words) else {
        return end(rt, &Status::NoMemory);
    };
    let Ok(path) = output.copy(rt.alloc()) else {
        return end(rt, &Status::NoMemory);
    };
    let mut files = HostFiles::new(rt);
    let mut out = HostDevice::at(rt, path);
    let mut says = HostSink::new(rt);
    let status = run_alone(
        rt.alloc(),
        words,
        &mut files,
        &mut out,
        &mut says,
        &FreeTurnstile,
    );
    say_reason(
        rt,
        reason_of(&status, &output, files.last_error(), out.last_error()),
    );
    ExitCode::from(status.exit_code())
}

/// Says a status that came before the link, and ends with its number.
fn end(rt: HostRuntime, status: &Status) -> ExitCode {
    say(status, &mut HostSink::new(rt));
    ExitCode::from(status.exit_code())
}

/// Prints a text that was asked for.
fn say_notice(rt: HostRuntime, notice: &str) -> ExitCode {
    let _printed = print!(rt; "{notice}");
    ExitCode::SUCCESS
}

/// Prints an error of the system on the standard error, where there is one.
fn say_reason(rt: HostRuntime, reason: Option<Reason>) {
    if let Some(Reason { path, error }) = reason {
        let path = text_of(path);
        let _printed = eprintln!(rt; "lk_ld: {path}: {error}");
    }
}
