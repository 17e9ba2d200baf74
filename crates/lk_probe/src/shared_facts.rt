//! What is said of a shared object: its name, what it needs, and how many symbols of each kind it has.

ghost use Rattle.std.specs.Prelude.{◌≡◌, ◌≤◌, length, filter};
ghost use Rattle.lk_model.specs.SharedChecks.{shared_fault};
ghost use Rattle.lk_summary.specs.Readings.{ReadGives};
ghost use Rattle.lk_probe.specs.SharedFacts.{facts_of, is_counted_type, is_definition_of, is_other_definition, is_reference, is_weak, symbol_counts};

use lk_elf::numbers::{STB_WEAK, STT_FUNC, STT_OBJECT, STT_TLS};
use lk_model::summaries::{Global as Symbol, Home};
use lk_report::{Bytes, Name, NameList};
use lk_so_read::{ReadFailure, needs_of, read_shared};
use std::alloc::Global;

/// What is said of a shared object.
#[derive(Drop)]
pub struct SharedFacts {
    /// The name by which an image needs it.
    pub soname: Name,
    /// The names of the files that it needs.
    pub needs: NameList,
    /// How many symbols it has of each kind.
    pub symbols: SymbolCounts,
}

/// How many of the symbols that other files may mean are of each kind: definitions by type, references, and those
/// of both that are WEAK (gABI "Symbol Table").
#[derive(Clone, Copy)]
pub struct SymbolCounts {
    /// Definitions of type FUNC.
    pub functions: usize,
    /// Definitions of type OBJECT.
    pub objects: usize,
    /// Definitions of type TLS.
    pub thread_local: usize,
    /// Definitions of any other type.
    pub others: usize,
    /// Symbols that the shared object does not define.
    pub references: usize,
    /// Definitions and references of binding WEAK.
    pub weak: usize,
}

/// Whether the shared object does not define a symbol.
fn is_reference(symbol: &Symbol) -> bool
    ensures { result ≡ is_reference symbol.now }
{
    symbol.home == Home::Undefined
}

/// Whether a symbol is a definition of a type.
fn is_definition_of(symbol: &Symbol, code: u8) -> bool
    ensures { result ≡ is_definition_of code symbol.now }
{
    !is_reference(symbol) && symbol.code == u32::from(code)
}

/// Whether there is a count of a type.
fn is_counted_type(code: u32) -> bool
    ensures { result ≡ is_counted_type code }
{
    code == u32::from(STT_FUNC) || code == u32::from(STT_OBJECT) || code == u32::from(STT_TLS)
}

/// Whether a symbol is a definition of any other type.
fn is_other_definition(symbol: &Symbol) -> bool
    ensures { result ≡ is_other_definition symbol.now }
{
    !is_reference(symbol) && !is_counted_type(symbol.code)
}

/// Whether a symbol has the binding WEAK.
fn is_weak(symbol: &Symbol) -> bool
    ensures { result ≡ is_weak symbol.now }
{
    symbol.binding == u32::from(STB_WEAK)
}

/// How many definitions of a type there are.
fn definitions_of(symbols: &[Symbol], code: u8) -> usize
    ensures { result ≡ length (filter (is_definition_of code) symbols.now) }
{
    symbols
        .iter()
        .filter(|symbol| is_definition_of(symbol, code))
        .count()
}

/// How many definitions of any other type there are.
fn other_definitions(symbols: &[Symbol]) -> usize
    ensures { result ≡ length (filter is_other_definition symbols.now) }
{
    symbols
        .iter()
        .filter(|symbol| is_other_definition(symbol))
        .count()
}

/// How many references there are.
fn references(symbols: &[Symbol]) -> usize
    ensures { result ≡ length (filter is_reference symbols.now) }
{
    symbols.iter().filter(|symbol| is_reference(symbol)).count()
}

/// How many symbols of binding WEAK there are.
fn weak_symbols(symbols: &[Symbol]) -> usize
    ensures { result ≡ length (filter is_weak symbols.now) }
{
    symbols.iter().filter(|symbol| is_weak(symbol)).count()
}

/// How many of these symbols are of each kind.
#[tactic(auto, unfolding(crate::specs::SharedFacts::symbol_counts))]
fn counts_of(symbols: &[Symbol]) -> SymbolCounts
    ensures { result ≡ symbol_counts symbols.now }
{
    SymbolCounts {
        functions: definitions_of(symbols, STT_FUNC),
        objects: definitions_of(symbols, STT_OBJECT),
        thread_local: definitions_of(symbols, STT_TLS),
        others: other_definitions(symbols),
        references: references(symbols),
        weak: weak_symbols(symbols),
    }
}

/// What is said of the shared object of these bytes, at a path.
///
/// # Errors
/// The first fault of the file, or out of memory.
#[tactic(auto, unfolding(crate::specs::SharedFacts::facts_of, lk_model::specs::SharedObjects::shared_summary_in))]
pub fn facts_of(alloc: Global, file: &Bytes, path: &Name) -> Result<SharedFacts, ReadFailure>
    requires headed { 64 ≤ length file.now }
    ensures { ReadGives (shared_fault file.now) (λ facts. facts ≡ facts_of path.now file.now) result }
{
    let summary = read_shared(alloc, file, path)?;
    let needs = needs_of(alloc, file.as_slice())?;
    let symbols = counts_of(summary.globals.as_slice());
    Ok(SharedFacts {
        soname: summary.soname,
        needs,
        symbols,
    })
}
