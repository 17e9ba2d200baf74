//! Symbols of a few names: which definition wins, what is hidden, what the linker makes, and symbols for
//! which memory was wanted once.

use lk_model::summaries::{Global as Symbol, Home, Kind, Winner};
use lk_report::{Name, NoMemory};
use lk_symtab::SymTab;
use std::alloc::Global;

/// A symbol of the one name of a table.
#[derive(Clone, Copy)]
struct Given {
    input: u32,
    kind: Kind,
    number: u32,
    is_weak: bool,
    visibility: u32,
    home: Home,
    size: u64,
    align: u64,
}

/// A GLOBAL reference in an object.
const REFERENCE: Given = Given {
    input: 0,
    kind: Kind::Object,
    number: 1,
    is_weak: false,
    visibility: 0,
    home: Home::Undefined,
    size: 0,
    align: 0,
};

/// A definition in an object.
fn definition(input: u32, number: u32, is_weak: bool) -> Given {
    Given {
        input,
        number,
        is_weak,
        home: Home::Section(1),
        ..REFERENCE
    }
}

/// A common block of an object.
fn common(size: u64, align: u64) -> Given {
    Given {
        home: Home::Common,
        size,
        align,
        ..REFERENCE
    }
}

/// A definition in a shared input.
fn export(input: u32, number: u32) -> Given {
    Given {
        input,
        kind: Kind::Shared,
        number,
        home: Home::Shared,
        ..REFERENCE
    }
}

/// The symbol with its name.
fn named(alloc: Global, name: &Name, given: &Given) -> Result<Symbol, NoMemory> {
    Ok(Symbol {
        symbol: given.number,
        name: name.copy(alloc)?,
        binding: if given.is_weak { 2 } else { 1 },
        code: 0,
        visibility: given.visibility,
        home: given.home,
        value: given.align,
        size: given.size,
    })
}

/// Adds a symbol where there is room for its name.
fn add_once(
    names: &mut SymTab,
    name: &Name,
    symbol: &Symbol,
    given: &Given,
) -> Result<u32, NoMemory> {
    if names.len() == u32::MAX {
        return Err(NoMemory);
    }
    names.add(name, given.input, given.kind, symbol)
}

/// Adds a symbol, and once more where memory was wanted.
fn add_twice(
    alloc: Global,
    names: &mut SymTab,
    name: &Name,
    given: &Given,
) -> Result<u32, NoMemory> {
    let symbol = named(alloc, name, given)?;
    match add_once(names, name, &symbol, given) {
        Ok(number) => Ok(number),
        Err(_) => add_once(names, name, &symbol, given),
    }
}

/// The table of these symbols of one name.
fn table_of(alloc: Global, name: &Name, all: &[Given]) -> Result<SymTab, NoMemory> {
    let mut names = SymTab::new(alloc);
    for given in all {
        add_twice(alloc, &mut names, name, given)?;
    }
    Ok(names)
}

/// Says that the linker makes a name, where it does.
fn make_where(names: &mut SymTab, number: u32, is_made: bool) {
    if is_made && number < names.len() {
        names.make(number);
    }
}

/// What a name means that has these symbols, where the linker makes it or not.
fn winner_among(alloc: Global, all: &[Given], is_made: bool) -> Result<Option<Winner>, NoMemory> {
    let name = Name::from_slice(alloc, b"name")?;
    let mut names = table_of(alloc, &name, all)?;
    let number = names.find(&name).unwrap_or(0);
    make_where(&mut names, number, is_made);
    if number < names.len() {
        return Ok(Some(names.winner(number)));
    }
    Ok(None)
}

#[test]
fn a_common_is_at_before_a_weak_definition(rt: HostRuntime) {
    let all = [definition(0, 4, true), common(8, 4), common(4, 16)];
    let merged = Winner::Common { size: 8, align: 16 };
    assert_eq!(rt; winner_among(rt.alloc(), &all, false), Ok(Some(merged)));
}

#[test]
fn the_first_of_two_strong_definitions_wins(rt: HostRuntime) {
    let all = [
        common(64, 64),
        definition(3, 7, false),
        definition(2, 1, false),
    ];
    let first = Winner::Strong {
        input: 3,
        symbol: 7,
    };
    assert_eq!(rt; winner_among(rt.alloc(), &all, true), Ok(Some(first)));
}

#[test]
fn a_shown_name_is_imported(rt: HostRuntime) {
    let shown = [REFERENCE, export(1, 9), export(2, 3)];
    let first = Winner::Import {
        input: 1,
        symbol: 9,
    };
    assert_eq!(rt; winner_among(rt.alloc(), &shown, false), Ok(Some(first)));
}

#[test]
fn a_hidden_name_is_not_imported(rt: HostRuntime) {
    let hidden = Given {
        visibility: 2,
        ..REFERENCE
    };
    assert_eq!(rt;
        winner_among(rt.alloc(), &[export(1, 9), hidden], false),
        Ok(Some(Winner::Nothing))
    );
}

#[test]
fn the_linker_makes_what_no_object_defines(rt: HostRuntime) {
    assert_eq!(rt;
        winner_among(rt.alloc(), &[REFERENCE, export(1, 9)], true),
        Ok(Some(Winner::Made))
    );
}

#[test]
fn the_linker_does_not_make_what_an_object_defines(rt: HostRuntime) {
    let weak = Winner::Weak {
        input: 0,
        symbol: 4,
    };
    assert_eq!(rt;
        winner_among(rt.alloc(), &[definition(0, 4, true)], true),
        Ok(Some(weak))
    );
}

/// Adds a symbol for each of 200 names; whether each had the number of its name.
fn add_each(alloc: Global, names: &mut SymTab, given: &Given) -> Result<bool, NoMemory> {
    for k in 0..200u32 {
        let name = Name::from_slice(alloc, &k.to_le_bytes())?;
        if add_twice(alloc, names, &name, given)? != k {
            return Ok(false);
        }
    }
    Ok(true)
}

/// The number of a name, where it is in the table.
fn number(alloc: Global, names: &SymTab, name: &[u8]) -> Result<Option<u32>, NoMemory> {
    let name = Name::from_slice(alloc, name)?;
    Ok(names.find(&name))
}

#[test]
fn names_are_numbered_by_their_first_symbols(rt: HostRuntime) {
    let mut names = SymTab::new(rt.alloc());
    assert_eq!(rt; add_each(rt.alloc(), &mut names, &REFERENCE), Ok(true));
    assert_eq!(rt; add_each(rt.alloc(), &mut names, &export(1, 2)), Ok(true));
    assert_eq!(rt; names.len(), 200);
    assert_eq!(rt; names.at(199).list.as_slice().len(), 2);
    assert_eq!(rt; number(rt.alloc(), &names, b"none"), Ok(None));
}
