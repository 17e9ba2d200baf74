//! Commands by their words: those that are refused, those that wait, and the output that they name.

use crate::making::leaf;
use crate::running::{Ended, link, one_file, words_of};
use lk_driver::output_of;
use lk_outside::MemoryFiles;
use std::alloc::Global;
use std::test::Fail;

/// Files in which `a.o` alone is there.
fn object_alone(alloc: Global) -> Result<MemoryFiles, Fail> {
    let a = leaf(alloc, b"0123456789abcdef", b"_start")?;
    one_file(alloc, a)
}

/// What a command did, and how often a file was read.
fn tried(alloc: Global, line: &str) -> Result<(Ended, u32), Fail> {
    let mut files = object_alone(alloc)?;
    let ended = link(alloc, line, &mut files)?;
    Ok((ended, files.reads()))
}

#[test]
fn faulty_words_are_reported_by_their_number(rt: HostRuntime) -> Result<(), Fail> {
    let rows: [(&str, &[u8]); 6] = [
        ("-o out", b"usage: no input\n"),
        ("--start-lib a.o", b"usage: word 1: lib not ended\n"),
        ("--thread-count 17 a.o", b"usage: word 2: bad number\n"),
        ("-o a -o b c.o", b"usage: word 3: second output\n"),
        ("a.o --end-lib", b"usage: word 2: no lib\n"),
        ("a.o --strip", b"usage: word 2: unknown\n"),
    ];
    for (line, text) in rows {
        let (ended, reads) = tried(rt.alloc(), line)?;
        assert!(rt; ended.refused(2, text));
        assert_eq!(rt; reads, 0);
    }
    Ok(())
}

#[test]
fn what_is_not_built_yet_is_reported_before_anything_is_read(rt: HostRuntime) -> Result<(), Fail> {
    for line in [
        "--incremental-update a.o",
        "--incremental -o out a.o",
        "a.o -l m",
        "a.o --start-lib -lm --end-lib",
    ] {
        let (ended, reads) = tried(rt.alloc(), line)?;
        assert!(rt; ended.refused(8, b"not built yet: words\n"));
        assert_eq!(rt; reads, 0);
    }
    Ok(())
}

#[test]
fn options_that_change_nothing_here_are_taken(rt: HostRuntime) -> Result<(), Fail> {
    for line in [
        "a.o -m elf_x86_64 --incremental-base=out",
        "--thread-count 13 --incremental-patch=10 --no-threads -L d a.o",
        "-e _start --incremental-full -o out --incremental-changed a.o",
    ] {
        let (ended, reads) = tried(rt.alloc(), line)?;
        assert!(rt; ended.is_done());
        assert_eq!(rt; reads, 1);
    }
    Ok(())
}

#[test]
fn the_output_is_the_one_that_the_words_name(rt: HostRuntime) -> Result<(), Fail> {
    let rows: [(&str, &[u8]); 4] = [
        ("-o out a.o", b"out"),
        ("a.o -o -out", b"-out"),
        ("a.o", b"a.out"),
        ("-o out", b"a.out"),
    ];
    for (line, path) in rows {
        let output = output_of(rt.alloc(), &words_of(rt.alloc(), line)?)?;
        assert!(rt; output.as_slice() == path);
    }
    Ok(())
}
