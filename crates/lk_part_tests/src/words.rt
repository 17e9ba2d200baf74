//! Words and the commands that they are: every word once, repeated words, marks and lib groups, each fault
//! and the order of two, zero bytes, and sixteen million bytes of words.

use lk_command::{CommandFault, parse_words};
use lk_model::commands::{Command, Item, Mark, Mode, Word};
use lk_report::{List, Name, NameList, NoMemory, UsageFault};
use std::alloc::Global;

/// The answer to a list of words, of which a test has fewer than two million.
fn parse_list(alloc: Global, words: &NameList) -> Result<Command, CommandFault> {
    if words.as_slice().len() > 2_000_000 {
        return Err(CommandFault::NoMemory);
    }
    parse_words(alloc, words)
}

/// Words of these texts.
fn words_of(alloc: Global, texts: &[&[u8]]) -> Result<NameList, NoMemory> {
    let mut words = List::new(alloc);
    for text in texts {
        words.push(Name::from_slice(alloc, text)?)?;
    }
    Ok(words)
}

/// The answer to these words.
fn parse(alloc: Global, texts: &[&[u8]]) -> Result<Command, CommandFault> {
    match words_of(alloc, texts) {
        Ok(words) => parse_list(alloc, &words),
        Err(_) => Err(CommandFault::NoMemory),
    }
}

/// The fault of these words.
fn fault_of(alloc: Global, texts: &[&[u8]]) -> Option<UsageFault> {
    match parse(alloc, texts) {
        Err(CommandFault::Usage(fault)) => Some(fault),
        _ => None,
    }
}

#[test]
fn one_input_has_the_defaults(rt: HostRuntime) -> Result<(), CommandFault> {
    let command = parse(rt.alloc(), &[b"a.o"])?;
    assert_eq!(rt; command.output.as_slice(), b"a.out".as_slice());
    assert_eq!(rt; command.mode, Mode::Full);
    assert!(rt; command.base.is_none());
    assert!(rt; command.dirs.as_slice().is_empty());
    assert_eq!(rt; command.items.as_slice().len(), 1);
    assert_eq!(rt; command.workers, 4);
    Ok(())
}

#[test]
fn one_input_has_the_default_options(rt: HostRuntime) -> Result<(), CommandFault> {
    let options = parse(rt.alloc(), &[b"a.o"])?.options;
    assert_eq!(rt; options.entry.as_slice(), b"_start".as_slice());
    assert!(rt; options.interp.as_slice().is_empty());
    assert!(rt; options.runpath.as_slice().is_empty());
    assert_eq!(rt; options.patch, 10);
    assert!(rt; !options.export_dynamic);
    assert!(rt; !options.dynamic);
    Ok(())
}

/// Each word once.
const EACH: [&[u8]; 24] = [
    b"-o",
    b"-o",
    b"--entry=main",
    b"-L",
    b"one",
    b"-Ltwo",
    b"-dynamic-linker",
    b"/lib/loader",
    b"-rpath",
    b"/r",
    b"-rpath=/s",
    b"--export-dynamic",
    b"-m",
    b"elf_x86_64",
    b"--incremental",
    b"--incremental-base=old",
    b"--incremental-patch=0500",
    b"--thread-count",
    b"16",
    b"a.o",
    b"-l",
    b"m",
    b"-lc",
    b"--incremental-unknown",
];

/// Whether the base is this one.
fn is_base(command: &Command, text: &[u8]) -> bool {
    match &command.base {
        Some(base) => base.as_slice() == text,
        None => false,
    }
}

#[test]
fn each_word_has_its_effect(rt: HostRuntime) -> Result<(), CommandFault> {
    let command = parse(rt.alloc(), &EACH)?;
    assert_eq!(rt; command.output.as_slice(), b"-o".as_slice());
    assert_eq!(rt; command.mode, Mode::Either);
    assert!(rt; is_base(&command, b"old"));
    assert_eq!(rt; command.workers, 16);
    Ok(())
}

#[test]
fn each_option_is_recorded(rt: HostRuntime) -> Result<(), CommandFault> {
    let options = parse(rt.alloc(), &EACH)?.options;
    assert_eq!(rt; options.entry.as_slice(), b"main".as_slice());
    assert_eq!(rt; options.interp.as_slice(), b"/lib/loader".as_slice());
    assert_eq!(rt; options.runpath.as_slice(), b"/r:/s".as_slice());
    assert_eq!(rt; options.patch, 500);
    assert!(rt; options.export_dynamic);
    Ok(())
}

#[test]
fn folders_are_searched_in_order(rt: HostRuntime) -> Result<(), CommandFault> {
    let command = parse(rt.alloc(), &EACH)?;
    let dirs = command.dirs.as_slice();
    assert_eq!(rt; dirs.len(), 2);
    assert_eq!(rt; dirs[0].as_slice(), b"one".as_slice());
    assert_eq!(rt; dirs[1].as_slice(), b"two".as_slice());
    Ok(())
}

/// Whether a word has this text and mark, and names a library or not.
fn is_same(word: &Word, text: &[u8], library: bool, mark: Mark) -> bool {
    word.text.as_slice() == text && word.library == library && word.mark == mark
}

/// Whether an item is this word, outside a lib group.
fn is_word(item: &Item, text: &[u8], library: bool, mark: Mark) -> bool {
    match item {
        Item::One(word) => is_same(word, text, library, mark),
        Item::Lib(_) => false,
    }
}

#[test]
fn inputs_are_at_in_order(rt: HostRuntime) -> Result<(), CommandFault> {
    let command = parse(rt.alloc(), &EACH)?;
    let items = command.items.as_slice();
    assert_eq!(rt; items.len(), 3);
    assert!(rt; is_word(&items[0], b"a.o", false, Mark::Unknown));
    assert!(rt; is_word(&items[1], b"m", true, Mark::Unknown));
    assert!(rt; is_word(&items[2], b"c", true, Mark::Unknown));
    Ok(())
}

#[test]
fn the_last_of_repeated_words_counts(rt: HostRuntime) -> Result<(), CommandFault> {
    let words: [&[u8]; 12] = [
        b"--incremental-base=old",
        b"--incremental-base=out",
        b"--entry=f",
        b"-e",
        b"g",
        b"--incremental-update",
        b"--incremental-full",
        b"--no-threads",
        b"--incremental-patch=1",
        b"--incremental-patch=2",
        b"a.o",
        b"--threads",
    ];
    let command = parse(rt.alloc(), &words)?;
    assert!(rt; is_base(&command, b"out"));
    assert_eq!(rt; command.mode, Mode::Full);
    assert_eq!(rt; command.options.entry.as_slice(), b"g".as_slice());
    assert_eq!(rt; command.options.patch, 2);
    assert_eq!(rt; command.workers, 4);
    Ok(())
}

#[test]
fn a_base_that_is_the_output_is_none(rt: HostRuntime) -> Result<(), CommandFault> {
    let named: [&[u8]; 4] = [b"--incremental-base=out", b"a.o", b"-o", b"out"];
    let default: [&[u8]; 2] = [b"a.o", b"--incremental-base=a.out"];
    assert!(rt; parse(rt.alloc(), &named)?.base.is_none());
    assert!(rt; parse(rt.alloc(), &default)?.base.is_none());
    Ok(())
}

/// Marks before, in and behind a lib group.
const MARKED: [&[u8]; 9] = [
    b"a.o",
    b"--incremental-changed",
    b"b.o",
    b"--start-lib",
    b"c.o",
    b"--incremental-unchanged",
    b"-lm",
    b"--end-lib",
    b"d.o",
];

#[test]
fn a_mark_counts_for_the_inputs_after_it(rt: HostRuntime) -> Result<(), CommandFault> {
    let command = parse(rt.alloc(), &MARKED)?;
    let items = command.items.as_slice();
    assert_eq!(rt; items.len(), 4);
    assert!(rt; is_word(&items[0], b"a.o", false, Mark::Unknown));
    assert!(rt; is_word(&items[1], b"b.o", false, Mark::Changed));
    assert!(rt; is_word(&items[3], b"d.o", false, Mark::Unchanged));
    Ok(())
}

/// The members of a lib group.
fn members(item: &Item) -> &[Word] {
    match item {
        Item::One(_) => &[],
        Item::Lib(members) => members.as_slice(),
    }
}

#[test]
fn a_mark_counts_for_members_after_it(rt: HostRuntime) -> Result<(), CommandFault> {
    let command = parse(rt.alloc(), &MARKED)?;
    let items = command.items.as_slice();
    assert_eq!(rt; items.len(), 4);
    let members = members(&items[2]);
    assert_eq!(rt; members.len(), 2);
    assert!(rt; is_same(&members[0], b"c.o", false, Mark::Changed));
    assert!(rt; is_same(&members[1], b"m", true, Mark::Unchanged));
    Ok(())
}

/// Words that are no command, and their fault.
struct Row {
    words: &'static [&'static [u8]],
    fault: UsageFault,
}

/// Each fault, and which is reported where two are together.
const FAULTS: [Row; 30] = [
    Row {
        words: &[],
        fault: UsageFault::NoInput,
    },
    Row {
        words: &[b"-o", b"out"],
        fault: UsageFault::NoInput,
    },
    Row {
        words: &[b"--start-lib", b"--end-lib"],
        fault: UsageFault::NoInput,
    },
    Row {
        words: &[b"--start-lib", b"a.o"],
        fault: UsageFault::OpenLib(1),
    },
    Row {
        words: &[b"--start-lib"],
        fault: UsageFault::OpenLib(1),
    },
    Row {
        words: &[b"--start-lib", b"a.o", b"--start-lib"],
        fault: UsageFault::NestedLib(3),
    },
    Row {
        words: &[b"a.o", b"--end-lib"],
        fault: UsageFault::NoLibOpen(2),
    },
    Row {
        words: &[b"-o", b"a", b"-o", b"b", b"c.o"],
        fault: UsageFault::TwoOutputs(3),
    },
    Row {
        words: &[b"-o", b"a", b"-o", b"", b"c.o"],
        fault: UsageFault::MissingValue(3),
    },
    Row {
        words: &[b"-o", b"a", b"-o", b"\0"],
        fault: UsageFault::TwoOutputs(3),
    },
    Row {
        words: &[b"a.o", b"-e"],
        fault: UsageFault::MissingValue(2),
    },
    Row {
        words: &[b"-e", b"", b"a.o"],
        fault: UsageFault::MissingValue(1),
    },
    Row {
        words: &[b"--entry=", b"a.o"],
        fault: UsageFault::MissingValue(1),
    },
    Row {
        words: &[b"-m"],
        fault: UsageFault::MissingValue(1),
    },
    Row {
        words: &[b"-m", b"elf_i386", b"a.o"],
        fault: UsageFault::UnknownWord(2),
    },
    Row {
        words: &[b"--thread-count", b"17", b"a.o"],
        fault: UsageFault::BadNumber(2),
    },
    Row {
        words: &[b"--thread-count", b"0", b"a.o"],
        fault: UsageFault::BadNumber(2),
    },
    Row {
        words: &[b"--thread-count", b"00001", b"a.o"],
        fault: UsageFault::BadNumber(2),
    },
    Row {
        words: &[b"--incremental-patch=501", b"a.o"],
        fault: UsageFault::BadNumber(1),
    },
    Row {
        words: &[b"--incremental-patch=+1", b"a.o"],
        fault: UsageFault::BadNumber(1),
    },
    Row {
        words: &[b"a.o", b"-x"],
        fault: UsageFault::UnknownWord(2),
    },
    Row {
        words: &[b"a.o", b"", b"-x"],
        fault: UsageFault::UnknownWord(2),
    },
    Row {
        words: &[b"-", b"a.o"],
        fault: UsageFault::UnknownWord(1),
    },
    Row {
        words: &[b"--thread-count=4", b"a.o"],
        fault: UsageFault::UnknownWord(1),
    },
    Row {
        words: &[b"-oout", b"a.o"],
        fault: UsageFault::UnknownWord(1),
    },
    Row {
        words: &[b"a\0o"],
        fault: UsageFault::UnknownWord(1),
    },
    Row {
        words: &[b"-e", b"\0", b"a.o"],
        fault: UsageFault::UnknownWord(2),
    },
    Row {
        words: &[b"--thread-count", b"99\0", b"a.o"],
        fault: UsageFault::UnknownWord(2),
    },
    Row {
        words: &[b"--end-lib", b"-x"],
        fault: UsageFault::NoLibOpen(1),
    },
    Row {
        words: &[b"--start-lib", b"-x"],
        fault: UsageFault::UnknownWord(2),
    },
];

#[test]
fn words_that_are_no_command_have_their_first_fault(rt: HostRuntime) {
    for row in &FAULTS {
        assert_eq!(rt; fault_of(rt.alloc(), row.words), Some(row.fault));
    }
}

/// The word of an input, so many times.
fn many(alloc: Global, count: u32) -> Result<NameList, NoMemory> {
    let mut words = List::new(alloc);
    for _ in 0..count {
        words.push(Name::from_slice(alloc, b"objects/inputa.o")?)?;
    }
    Ok(words)
}

/// How many items a command of these words has, or their fault.
fn count(alloc: Global, words: &NameList) -> Result<usize, CommandFault> {
    match parse_list(alloc, words) {
        Ok(command) => Ok(command.items.as_slice().len()),
        Err(fault) => Err(fault),
    }
}

#[test]
fn sixteen_million_bytes_of_words_are_taken(rt: HostRuntime) -> Result<(), NoMemory> {
    let mut words = many(rt.alloc(), 1_048_576)?;
    assert_eq!(rt; count(rt.alloc(), &words), Ok(1_048_576));
    words.push(Name::from_slice(rt.alloc(), b"-o")?)?;
    let fault = CommandFault::Usage(UsageFault::MissingValue(1_048_577));
    assert_eq!(rt; count(rt.alloc(), &words), Err(fault));
    Ok(())
}
