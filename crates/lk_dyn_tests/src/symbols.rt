//! The hash table of two names, and the path of the dynamic linker.

use lk_dyn::{hash_table, interp_table, sysv_hash};
use lk_model::summaries::{Global as Symbol, Home, Kind};
use lk_report::{Name, NoMemory};
use lk_symtab::SymTab;
use std::alloc::Global;

/// A function of a shared input under a name.
fn function(alloc: Global, symbol: u32, name: &[u8]) -> Result<Symbol, NoMemory> {
    let name = Name::from_slice(alloc, name)?;
    Ok(Symbol {
        symbol,
        name,
        binding: 1,
        code: 2,
        visibility: 0,
        home: Home::Shared,
        value: 0,
        size: 0,
    })
}

/// Adds a function of a shared input, where there is room for its name.
fn add_function(alloc: Global, names: &mut SymTab, name: &[u8]) -> Result<u32, NoMemory> {
    if names.len() == u32::MAX {
        return Err(NoMemory);
    }
    let symbol = function(alloc, 1, name)?;
    names.add(&symbol.name, 0, Kind::Shared, &symbol)
}

/// The names `exit` and `puts`.
fn two_names(alloc: Global) -> Result<SymTab, NoMemory> {
    let mut names = SymTab::new(alloc);
    add_function(alloc, &mut names, b"exit")?;
    add_function(alloc, &mut names, b"puts")?;
    Ok(names)
}

#[test]
fn hashes_of_names(rt: HostRuntime) {
    assert_eq!(rt; sysv_hash(b"exit"), 0x0006_cf04);
    assert_eq!(rt; sysv_hash(b""), 0);
}

#[test]
fn the_hash_table_of_two_names(rt: HostRuntime) -> Result<(), NoMemory> {
    let names = two_names(rt.alloc())?;
    let table = hash_table(rt.alloc(), &names, [0, 1].as_slice())?;
    let wanted: [u8; 24] = [
        1, 0, 0, 0, 3, 0, 0, 0, 2, 0, 0, 0, 0, 0, 0, 0, 0, 0, 0, 0, 1, 0, 0, 0,
    ];
    assert_eq!(rt; table.as_slice(), wanted.as_slice());
    Ok(())
}

#[test]
fn the_usual_dynamic_linker(rt: HostRuntime) -> Result<(), NoMemory> {
    let none = Name::from_slice(rt.alloc(), b"")?;
    let table = interp_table(rt.alloc(), &none)?;
    assert_eq!(rt;
        table.as_slice(),
        b"/lib64/ld-linux-x86-64.so.2\0".as_slice()
    );
    Ok(())
}
