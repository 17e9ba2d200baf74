//! A program for developers, and for whoever wants objects validated or wants to know what a link is made of.
//!
//! `lk_probe read FILE` says `object` with the numbers of the file's section headers and symbols, or `shared object`
//! with its name, the names of the files that it needs and the numbers of its symbols by kind, or the file's first
//! fault as the linker reports it. `lk_probe load FILE` says what a loader makes of an executable: its runs of
//! bytes by address, size and rights, its entry, its thread-local segment, what it needs, and how many symbols
//! and relocations it names; or why a loader takes none. `lk_probe resolve WORDS`, of the words of a link, says
//! which inputs are added, in adding order, and how many names there are, or what the linker reports of the words
//! and the inputs before it looks at relocations. `lk_probe layout WORDS` says where a link of these words, made
//! anew, puts its output sections, and how many pieces it keeps, or what the linker reports before it has an image.
//! It ends with the linker's exit status for what it says: 0, 1 for faults, 2 for words, 3 for a file that cannot
//! be read, 5 for out of memory, 6 for a limit, 8 for what is not built yet.
//!
//! `what_is_asked` (arguments.rt) says what the arguments ask for, `answer_to` (answering.rt) answers it, and
//! `say_answer` (saying.rt) says the answer; `main` hands the host's files and standard output to them.
#![tactic(auto)]

mod answering;
mod arguments;
mod file_texts;
mod laying;
mod load_texts;
mod placing;
mod reading;
mod resolution_texts;
mod resolving;
mod rows;
mod saying;
mod shared_facts;
mod shared_texts;
mod writing;

use answering::answer_to;
use arguments::{Asked, what_is_asked};
use lk_outside::{HostFiles, HostSink};
use lk_report::{Bytes, NoMemory, Status};
use saying::say_answer;
use std::env;
use std::process::ExitCode;

fn main(rt: HostRuntime) -> ExitCode {
    let Ok(all) = env::args(&rt) else {
        return usage(rt);
    };
    match what_is_asked(rt.alloc(), all) {
        Ok(Some(asked)) => answer(rt, asked),
        Ok(None) => usage(rt),
        Err(NoMemory) => end(rt, Err(Status::NoMemory)),
    }
}

/// Says how the program is called.
fn usage(rt: HostRuntime) -> ExitCode {
    let _printed = println!(rt;
        "usage: lk_probe read FILE\n       lk_probe load FILE\n       lk_probe resolve WORDS\n       lk_probe layout WORDS"
    );
    ExitCode::from(2)
}

/// Answers what is asked for, of the files of the host.
fn answer(rt: HostRuntime, asked: Asked) -> ExitCode {
    let mut files = HostFiles::new(rt);
    end(rt, answer_to(rt.alloc(), asked, &mut files))
}

/// Says an answer on the standard output, and ends with its number.
fn end(rt: HostRuntime, answer: Result<Bytes, Status>) -> ExitCode {
    ExitCode::from(say_answer(answer, &mut HostSink::new(rt)))
}
