//! Symbols, lists and resolvers, as several tests make them.

use lk_model::summaries::{Global as Symbol, GlobalList, Home, SummaryList};
use lk_report::{List, Name, NoMemory};
use lk_resolve::{Resolution, Resolver};
use std::alloc::Global;

/// A GLOBAL symbol.
pub fn symbol(alloc: Global, number: u32, name: &[u8], home: Home) -> Result<Symbol, NoMemory> {
    Ok(Symbol {
        symbol: number,
        name: Name::from_slice(alloc, name)?,
        binding: 1,
        code: 0,
        visibility: 0,
        home,
        value: 0,
        size: 0,
    })
}

/// GLOBAL symbols of these names, by their numbers from 1.
pub fn symbols(alloc: Global, rows: &[(&[u8], Home)]) -> Result<GlobalList, NoMemory> {
    let mut symbols = List::new(alloc);
    let mut number = 0u32;
    for row in rows {
        number = number.saturating_add(1);
        symbols.push(symbol(alloc, number, row.0, row.1)?)?;
    }
    Ok(symbols)
}

/// A list of one item.
pub fn only<X: Drop>(alloc: Global, item: X) -> Result<List<X>, NoMemory> {
    let mut list = List::new(alloc);
    list.push(item)?;
    Ok(list)
}

/// A list of two items.
pub fn both<X: Drop>(alloc: Global, first: X, second: X) -> Result<List<X>, NoMemory> {
    let mut list = List::new(alloc);
    list.push(first)?;
    list.push(second)?;
    Ok(list)
}

/// A resolver with the entry `_start`.
pub fn resolver(alloc: Global) -> Result<Resolver, NoMemory> {
    let entry = Name::from_slice(alloc, b"_start")?;
    Resolver::new(alloc, &entry)
}

/// The resolver to which these inputs were added, with their numbers from 0.
pub fn added(mut resolver: Resolver, inputs: &SummaryList) -> Result<Resolver, NoMemory> {
    let mut number = 0u32;
    for input in inputs.as_slice() {
        resolver.add_input(number, input)?;
        number = number.saturating_add(1);
    }
    Ok(resolver)
}

/// The resolution of the inputs that were added, where no name has a fault.
pub fn resolved(resolver: Resolver) -> Result<Resolution, NoMemory> {
    match resolver.settle() {
        Ok(resolution) => Ok(resolution),
        Err(_) => Err(NoMemory),
    }
}
