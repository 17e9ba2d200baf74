//! Symbol tables and their answers by the rules: each check once, beside it its neighbour just inside the
//! limit, and which of two faults is reported.

ghost use Rattle.std.specs.Prelude.{◌+◌, ◌≤◌, ◌<◌, ◌^◌, length};

use crate::headers::{Answer, NO_SECTION, NO_SYMBOL};
use lk_elf::numbers::{
    SHF_ALLOC, SHF_EXECINSTR, SHF_TLS, SHF_WRITE, SHN_ABS, SHN_COMMON, SHN_UNDEF, SHN_XINDEX,
    SHT_PROGBITS, SHT_STRTAB, SHT_SYMTAB,
};
use lk_elf::{Shdr, Sym};
use lk_model::summaries::{Global as Symbol, GlobalList, Home, Local};
use lk_obj_parts::{
    globals_of, local_of, read_symbols, symbol_table, symbol_table_fault, symbols_fault,
};
use lk_report::{Bytes, InputFault, Name, NoMemory};
use std::alloc::Global;

/// The names of symbols; the last has no closing zero.
const NAMES: [u8; 10] = *b"\0a\0bc\0open";

const EMPTY_NAME: u32 = 5;

const OPEN_NAME: u32 = 6;

const PAST_NAME: u32 = 10;

/// The size of the file: the names with six zeros, three symbols.
const SIZE: usize = 88;

const NULL: Shdr = Shdr {
    sh_addralign: 1,
    ..NO_SECTION
};

const TEXT: Shdr = Shdr {
    sh_type: SHT_PROGBITS,
    sh_flags: SHF_ALLOC + SHF_EXECINSTR,
    ..NULL
};

const THREAD: Shdr = Shdr {
    sh_type: SHT_PROGBITS,
    sh_flags: SHF_ALLOC + SHF_WRITE + SHF_TLS,
    ..NULL
};

const TABLE: Shdr = Shdr {
    sh_type: SHT_SYMTAB,
    sh_offset: 16,
    sh_size: 72,
    sh_link: 4,
    sh_info: 2,
    sh_entsize: 24,
    ..NULL
};

const STRINGS: Shdr = Shdr {
    sh_type: SHT_STRTAB,
    sh_size: 10,
    ..NULL
};

/// Symbol 1, below the first that is not LOCAL: a LOCAL function `a` of section 1.
const LOCAL: Sym = Sym {
    st_name: 1,
    st_info: 0x02,
    st_shndx: 1,
    st_value: 3,
    st_size: 5,
    ..NO_SYMBOL
};

/// Symbol 2, the first that is not LOCAL: a GLOBAL object `bc` of section 1, HIDDEN.
const GLOBAL: Sym = Sym {
    st_name: 3,
    st_info: 0x11,
    st_other: 2,
    st_shndx: 1,
    st_value: 7,
    st_size: 9,
};

fn put_symbol(bytes: &mut [u8; SIZE], at: usize, symbol: &Sym)
    requires { at + 24 ≤ 88 }
{
    symbol.write_at(bytes, at);
}

/// A file with these symbols 1 and 2.
fn file(local: &Sym, global: &Sym) -> [u8; SIZE] {
    let mut bytes = [0u8; SIZE];
    put_symbol(&mut bytes, 40, local);
    put_symbol(&mut bytes, 64, global);
    bytes[0..10].copy_from_slice(&NAMES);
    bytes
}

/// The sections: 1 of code, 2 thread-local, 3 the symbol table, 4 the names, and a fifth.
fn sections(table: &Shdr, fifth: &Shdr) -> [Shdr; 6] {
    [NULL, TEXT, THREAD, *table, STRINGS, *fifth]
}

/// The first fault of a symbol table and of its symbols.
fn reported(alloc: Global, table: &Shdr, fifth: &Shdr, local: &Sym, global: &Sym) -> Answer {
    let bytes = file(local, global);
    let sections = sections(table, fifth);
    let symbols = read_symbols(alloc, &bytes, &sections)?;
    match symbol_table_fault(&sections, &symbols) {
        Some(fault) => Ok(Some(fault)),
        None => Ok(symbols_fault(&bytes, &sections, &symbols)),
    }
}

/// The fault of a file with this section 3.
fn table_reported(alloc: Global, table: Shdr) -> Answer {
    reported(alloc, &table, &TEXT, &LOCAL, &GLOBAL)
}

/// The fault of a file with this symbol 1.
fn local_reported(alloc: Global, local: Sym) -> Answer {
    reported(alloc, &TABLE, &TEXT, &local, &GLOBAL)
}

/// The fault of a file with this symbol 2.
fn global_reported(alloc: Global, global: Sym) -> Answer {
    reported(alloc, &TABLE, &TEXT, &LOCAL, &global)
}

fn entries_of(sh_entsize: u64) -> Shdr {
    Shdr {
        sh_entsize,
        ..TABLE
    }
}

fn sized(sh_size: u64) -> Shdr {
    Shdr { sh_size, ..TABLE }
}

fn linked(sh_link: u32) -> Shdr {
    Shdr { sh_link, ..TABLE }
}

fn from_number(sh_info: u32) -> Shdr {
    Shdr { sh_info, ..TABLE }
}

fn named(st_name: u32) -> Sym {
    Sym { st_name, ..GLOBAL }
}

/// A symbol 1 with this binding and type, of this section.
fn local(st_info: u8, st_shndx: u16) -> Sym {
    Sym {
        st_info,
        st_shndx,
        ..LOCAL
    }
}

/// A symbol 2 with this binding and type, of this section.
fn global(st_info: u8, st_shndx: u16) -> Sym {
    Sym {
        st_info,
        st_shndx,
        ..GLOBAL
    }
}

/// A common block with this alignment.
fn common(st_value: u64) -> Sym {
    Sym {
        st_shndx: SHN_COMMON,
        st_value,
        ..GLOBAL
    }
}

#[test]
fn a_symbol_table_is_reported(rt: HostRuntime) {
    let bad = Some(InputFault::BadTable(3));
    let cases = [
        (TABLE, None),
        (TEXT, None),
        (entries_of(23), bad),
        (entries_of(25), bad),
        (sized(71), bad),
        (sized(48), None),
        (sized(0), bad),
        (linked(0), bad),
        (linked(3), bad),
        (linked(6), bad),
        (from_number(4), bad),
        (from_number(3), Some(InputFault::BadSymbol(2))),
    ];
    for (table, wanted) in cases {
        assert_eq!(rt; table_reported(rt.alloc(), table), Ok(wanted));
    }
}

#[test]
fn a_symbol_name_is_reported(rt: HostRuntime) {
    let bad = Some(InputFault::BadSymbol(2));
    let cases = [
        (4, None),
        (EMPTY_NAME, bad),
        (OPEN_NAME, bad),
        (PAST_NAME, bad),
        (u32::MAX, bad),
    ];
    for (name, wanted) in cases {
        assert_eq!(rt; global_reported(rt.alloc(), named(name)), Ok(wanted));
    }
}

#[test]
fn a_local_symbol_may_be_nameless(rt: HostRuntime) {
    let nameless = Sym {
        st_name: EMPTY_NAME,
        ..LOCAL
    };
    assert_eq!(rt; local_reported(rt.alloc(), nameless), Ok(None));
}

#[test]
fn a_symbol_section_is_reported(rt: HostRuntime) {
    let bad = Some(InputFault::BadSymbol(2));
    let cases = [
        (SHN_XINDEX, Some(InputFault::UnsupportedSymbol(2))),
        (5, None),
        (6, bad),
        (SHN_ABS - 1, bad),
        (SHN_ABS, None),
        (SHN_COMMON + 1, bad),
        (SHN_UNDEF, None),
    ];
    for (section, wanted) in cases {
        assert_eq!(rt;
            global_reported(rt.alloc(), global(0x10, section)),
            Ok(wanted)
        );
    }
}

#[test]
fn a_binding_is_reported(rt: HostRuntime) {
    let refused = Some(InputFault::UnsupportedSymbol(2));
    let cases = [
        (0x00, Some(InputFault::BadSymbol(2))),
        (0x20, None),
        (0x30, refused),
        (0x19, None),
        (0x1a, refused),
    ];
    for (info, wanted) in cases {
        assert_eq!(rt; global_reported(rt.alloc(), global(info, 1)), Ok(wanted));
    }
}

#[test]
fn a_common_block_is_reported(rt: HostRuntime) {
    let bad = Some(InputFault::BadSymbol(2));
    let cases = [
        (common(1), None),
        (common(0), bad),
        (common(3), bad),
        (common(1 << 20), None),
        (common(1 << 21), bad),
        (
            global(0x16, SHN_COMMON),
            Some(InputFault::UnsupportedSymbol(2)),
        ),
    ];
    for (block, wanted) in cases {
        assert_eq!(rt; global_reported(rt.alloc(), block), Ok(wanted));
    }
}

#[test]
fn a_thread_local_symbol_is_reported(rt: HostRuntime) {
    let bad = Some(InputFault::BadSymbol(2));
    let cases = [
        (global(0x16, 2), None),
        (global(0x16, 1), bad),
        (global(0x15, 1), None),
        (global(0x16, SHN_ABS), bad),
        (global(0x16, SHN_UNDEF), None),
    ];
    for (symbol, wanted) in cases {
        assert_eq!(rt; global_reported(rt.alloc(), symbol), Ok(wanted));
    }
}

#[test]
fn a_local_symbol_is_reported(rt: HostRuntime) {
    let bad = Some(InputFault::BadSymbol(1));
    let refused = Some(InputFault::UnsupportedSymbol(1));
    let cases = [
        (local(0x10, 1), bad),
        (local(0x0a, 1), refused),
        (local(0x01, SHN_COMMON), refused),
        (local(0x06, 2), None),
        (local(0x06, SHN_UNDEF), bad),
    ];
    for (symbol, wanted) in cases {
        assert_eq!(rt; local_reported(rt.alloc(), symbol), Ok(wanted));
    }
}

/// A symbol 2 of a section whose number is elsewhere, and whose name has no end.
const OPEN: Sym = Sym {
    st_name: OPEN_NAME,
    st_shndx: SHN_XINDEX,
    ..GLOBAL
};

#[test]
fn the_earlier_fault_of_a_symbol_is_reported(rt: HostRuntime) {
    let nameless = Sym {
        st_info: 0x30,
        ..named(EMPTY_NAME)
    };
    let block = Sym {
        st_info: 0x16,
        ..common(3)
    };
    let unsupported = InputFault::UnsupportedSymbol(2);
    let bad = InputFault::BadSymbol(2);
    let cases = [
        (OPEN, bad),
        (global(0x00, SHN_XINDEX), unsupported),
        (global(0x30, 6), bad),
        (global(0x0a, 1), bad),
        (nameless, bad),
        (block, unsupported),
    ];
    for (symbol, fault) in cases {
        assert_eq!(rt; global_reported(rt.alloc(), symbol), Ok(Some(fault)));
    }
}

#[test]
fn the_earlier_fault_of_symbols_is_reported(rt: HostRuntime) {
    let cases = [
        (TABLE, TEXT, local(0x06, 1), InputFault::BadSymbol(1)),
        (
            from_number(4),
            TEXT,
            local(0x06, 1),
            InputFault::BadTable(3),
        ),
        (entries_of(23), TABLE, LOCAL, InputFault::BadTable(5)),
    ];
    for (table, fifth, local, fault) in cases {
        assert_eq!(rt;
            reported(rt.alloc(), &table, &fifth, &local, &OPEN),
            Ok(Some(fault))
        );
    }
}

#[test]
fn symbols_are_read(rt: HostRuntime) -> Result<(), NoMemory> {
    let sections = sections(&TABLE, &TEXT);
    let symbols = read_symbols(rt.alloc(), &file(&LOCAL, &GLOBAL), &sections)?;
    assert_eq!(rt; symbol_table(&sections), Some((3, TABLE)));
    assert_eq!(rt; symbols.len(), 3);
    let null = Local {
        home: Home::Undefined,
        value: 0,
        size: 0,
        code: 0,
    };
    let first = Local {
        home: Home::Section(1),
        value: 3,
        size: 5,
        code: 2,
    };
    assert_eq!(rt; local_of(&symbols, 0), null);
    assert_eq!(rt; local_of(&symbols, 1), first);
    assert_eq!(rt; local_of(&symbols, 3), null);
    Ok(())
}

/// The symbols of the file that are not LOCAL.
fn globals(alloc: Global) -> Result<GlobalList, NoMemory> {
    let bytes = file(&LOCAL, &GLOBAL);
    let sections = sections(&TABLE, &TEXT);
    let symbols = read_symbols(alloc, &bytes, &sections)?;
    globals_of(
        alloc,
        &Bytes::from_slice(alloc, &bytes)?,
        &sections,
        &symbols,
    )
}

/// What symbol 2 is.
fn second(alloc: Global) -> Result<Symbol, NoMemory> {
    Ok(Symbol {
        symbol: 2,
        name: Name::from_slice(alloc, b"bc")?,
        binding: 1,
        code: 1,
        visibility: 2,
        home: Home::Section(1),
        value: 7,
        size: 9,
    })
}

#[test]
fn symbols_that_are_not_local_are_read(rt: HostRuntime) -> Result<(), NoMemory> {
    let globals = globals(rt.alloc())?;
    let wanted = [second(rt.alloc())?];
    assert_eq!(rt; globals.as_slice(), wanted.as_slice());
    Ok(())
}

#[test]
fn a_table_past_the_file_has_no_symbols(rt: HostRuntime) -> Result<(), NoMemory> {
    let bytes = file(&LOCAL, &GLOBAL);
    for table in [sized(73), TEXT] {
        let symbols = read_symbols(rt.alloc(), &bytes, &sections(&table, &TEXT))?;
        assert_eq!(rt; symbols.len(), 0);
    }
    Ok(())
}
