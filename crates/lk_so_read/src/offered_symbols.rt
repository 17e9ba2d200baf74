//! Which symbols of a shared object other files may mean (gABI "Symbol Table"; STB_GNU_UNIQUE and
//! STT_GNU_IFUNC of the GNU gABI), and that of two definitions of one name the first counts.

ghost use Rattle.std.specs.Prelude.{◌≡◌, [], ◌∷◌, ◌++◌, IfOk, OnOk, Some};
ghost use Rattle.lk_model.specs.SharedObjects.{is_offered, is_outer_binding, is_seen, shared_binding, shared_global, shared_home, shared_type};
ghost use Rattle.lk_obj_parts.specs.SymbolParts.{name_in};
ghost use Rattle.lk_so_read.specs.OfferedSymbols.{IsNoted, SymbolNoted, texts_in, with_symbol};

use crate::string_texts::SymbolNames;
use indexmap::IndexSet;
use lk_elf::Sym;
use lk_elf::numbers::{
    SHN_UNDEF, STB_GLOBAL, STB_WEAK, STT_FUNC, STT_GNU_IFUNC, STV_DEFAULT, STV_PROTECTED,
};
use lk_model::summaries::{Global as Symbol, GlobalList, Home};
use lk_report::{Name, NoMemory};
use std::alloc::Global;
use std::marker::Model;

/// The binding of a symbol that is one in all of a process (GNU gABI, STB_GNU_UNIQUE).
const STB_GNU_UNIQUE: u8 = 10;

/// Whether a binding reaches other files.
fn is_outer_binding(binding: u8) -> bool
    ensures { result ≡ is_outer_binding binding }
{
    binding == STB_GLOBAL || binding == STB_WEAK || binding == STB_GNU_UNIQUE
}

/// Whether a visibility lets other files see a symbol.
fn is_seen(visibility: u8) -> bool
    ensures { result ≡ is_seen visibility }
{
    visibility == STV_DEFAULT || visibility == STV_PROTECTED
}

/// Whether other files may mean a symbol.
fn is_offered(symbol: &Sym) -> bool
    ensures { result ≡ is_offered symbol.now }
{
    is_outer_binding(symbol.st_info / 16) && is_seen(symbol.st_other % 4)
}

/// The binding that counts: a symbol that is one in all of a process is GLOBAL.
fn shared_binding(symbol: &Sym) -> u8
    ensures { result ≡ shared_binding symbol.now }
{
    let binding = symbol.st_info / 16;
    if binding == STB_GNU_UNIQUE {
        STB_GLOBAL
    } else {
        binding
    }
}

/// The type that counts: an indirect function is a function.
fn shared_type(symbol: &Sym) -> u8
    ensures { result ≡ shared_type symbol.now }
{
    let code = symbol.st_info % 16;
    if code == STT_GNU_IFUNC {
        STT_FUNC
    } else {
        code
    }
}

/// Where a symbol is defined, by its section number.
fn shared_home(number: u16) -> Home
    ensures { result ≡ shared_home number }
{
    if number == SHN_UNDEF {
        Home::Undefined
    } else {
        Home::Shared
    }
}

/// A symbol of a shared object, by its number and name.
#[tactic(auto, unfolding(lk_model::specs::SharedObjects::shared_global))]
fn shared_global(k: u32, symbol: &Sym, name: Name) -> Symbol
    ensures { result ≡ shared_global k symbol.now name }
{
    Symbol {
        symbol: k,
        name,
        binding: u32::from(shared_binding(symbol)),
        code: u32::from(shared_type(symbol)),
        visibility: u32::from(symbol.st_other % 4),
        home: shared_home(symbol.st_shndx),
        value: symbol.st_value,
        size: symbol.st_size,
    }
}

/// Notes that a name is defined: whether it was not before.
fn note_name<'a>(defined: &mut IndexSet<&'a [u8]>, name: &'a [u8]) -> Result<bool, NoMemory>
    ensures { IfOk result (λ is_first. IsNoted (texts_in defined.old.keys) name.now is_first (texts_in defined.new.keys)) }
{
    let Ok(is_first) = defined.insert(name) else {
        return Err(NoMemory);
    };
    Ok(is_first)
}

/// Whether a symbol is a reference, or the first definition of its name; which is then defined.
fn note_symbol<'a>(
    defined: &mut IndexSet<&'a [u8]>,
    symbol: &Sym,
    name: &'a [u8],
) -> Result<bool, NoMemory>
    ensures { IfOk result (λ is_kept. SymbolNoted (texts_in defined.old.keys) symbol.now name.now is_kept (texts_in defined.new.keys)) }
{
    if symbol.st_shndx == SHN_UNDEF {
        return Ok(true);
    }
    note_name(defined, name)
}

/// Puts a symbol at the end.
fn keep(kept: &mut Vec<Symbol>, symbol: Symbol) -> Result<(), NoMemory>
    ensures { OnOk result (kept.new.items ≡ kept.old.items ++ symbol ∷ []) }
{
    match kept.push(symbol) {
        Ok(()) => Ok(()),
        Err(_) => Err(NoMemory),
    }
}

/// The symbols that are kept of those that were looked at: references, and the first definition of each name.
/// Contracts see them with the names that are defined, in the order of their definitions.
#[derive(Drop)]
pub(crate) struct Offered<'a> {
    kept: Vec<Symbol>,
    defined: IndexSet<&'a [u8]>,
}

impl<'a> Model for Offered<'a> {
    ghost use Rattle.lk_so_read.specs.OfferedSymbols.{Kept, texts_in};

    ghost Value = { Kept };

    ghost view = { λ o. (o.kept.items, texts_in o.defined.keys) };
}

impl<'a> Offered<'a> {
    /// No symbol, with room for as many as there may be.
    pub(crate) fn with_capacity(alloc: Global, count: usize) -> Result<Self, NoMemory>
        ensures { IfOk result (λ o. o ≡ ([], [])) }
    {
        let Ok(kept) = Vec::with_capacity(alloc, count) else {
            return Err(NoMemory);
        };
        let Ok(defined) = IndexSet::with_capacity(alloc, count) else {
            return Err(NoMemory);
        };
        Ok(Offered { kept, defined })
    }

    /// Looks at one more symbol with its number and name, which is one of these: it is kept if other files may mean
    /// it, and no symbol before it defines the name that it defines.
    pub(crate) fn add(
        &mut self,
        k: u32,
        symbol: &Sym,
        text: &'a [u8],
        names: &SymbolNames<'_>,
    ) -> Result<(), NoMemory>
        requires named { name_in names.now.file.now names.now.sections.now names.now.strings symbol.now.st_name ≡ Some text.now }
        ensures { OnOk result (self.new ≡ with_symbol self.old k symbol.now text.now) }
    {
        if !is_offered(symbol) {
            return Ok(());
        }
        if !note_symbol(&mut self.defined, symbol, text)? {
            return Ok(());
        }
        let found = names.name(symbol.st_name)?;
        let Some(name) = found else { unreachable!() };
        keep(&mut self.kept, shared_global(k, symbol, name))
    }

    /// The symbols that are kept, by rising number.
    pub(crate) fn into_list(self) -> GlobalList
        ensures { result ≡ self.entry.0 }
    {
        let Offered { kept, .. } = self;
        GlobalList::from_vec(kept)
    }
}
