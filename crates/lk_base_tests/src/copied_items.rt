//! Each copy is made, with memory at hand, and is equal.

use lk_model::commands::{Mark, Word};
use lk_model::layouts::{Class, SectionKey, SectionRow};
use lk_model::records::NameRow;
use lk_model::summaries::{Contribution, Global, Home, Kind, PieceInfo};
use lk_report::{Name, NoMemory};
use std::alloc::Global as Memory;

fn name(alloc: Memory, text: &[u8]) -> Result<Name, NoMemory> {
    Name::from_slice(alloc, text)
}

fn text_key(alloc: Memory) -> Result<SectionKey, NoMemory> {
    Ok(SectionKey {
        name: name(alloc, b".text")?,
        class: Class::X,
    })
}

#[test]
fn words_and_keys_are_copied(rt: HostRuntime) -> Result<(), NoMemory> {
    let alloc = rt.alloc();
    let word = Word {
        text: name(alloc, b"a.o")?,
        library: false,
        mark: Mark::Changed,
    };
    assert_eq!(rt; word.copy(alloc)?, word);
    let key = text_key(alloc)?;
    assert_eq!(rt; key.copy(alloc)?, key);
    Ok(())
}

#[test]
fn rows_are_copied(rt: HostRuntime) -> Result<(), NoMemory> {
    let alloc = rt.alloc();
    let row = SectionRow {
        key: text_key(alloc)?,
        addr: 0x401000,
        offset: 0x1000,
        size: 16,
        room: 64,
        align: 16,
    };
    assert_eq!(rt; row.copy(alloc)?, row);
    let named = NameRow {
        name: name(alloc, b"f")?,
        winner: 1,
        input: Some(3),
    };
    assert_eq!(rt; named.copy(alloc)?, named);
    Ok(())
}

#[test]
fn symbols_and_pieces_are_copied(rt: HostRuntime) -> Result<(), NoMemory> {
    let alloc = rt.alloc();
    let piece = PieceInfo {
        section: 1,
        name: name(alloc, b".text.hot")?,
        key: text_key(alloc)?,
        size: 32,
        align: 16,
        terminator: false,
    };
    assert_eq!(rt; piece.copy(alloc)?, piece);
    let symbol = Contribution {
        input: 2,
        kind: Kind::Object,
        global: Global {
            symbol: 5,
            name: name(alloc, b"f")?,
            binding: 1,
            code: 2,
            visibility: 0,
            home: Home::Section(1),
            value: 8,
            size: 4,
        },
    };
    assert_eq!(rt; symbol.copy(alloc)?, symbol);
    Ok(())
}
