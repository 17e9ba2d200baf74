//! A section of an object of a link, and the numbers of its relocations (psABI x86-64 "Relocation Types").

ghost use Rattle.std.specs.Prelude.{◌≡◌, [], get_or, IfOk};
ghost use Rattle.lk_model.specs.SymbolValues.{numbers_of};
ghost use Rattle.lk_model.specs.Views.{Resolved};
ghost use Rattle.lk_relocate.specs.Faults.{overflow_at};
ghost use Rattle.lk_relocate.specs.NumbersOfSymbols.{AreNumbersAt, relocation_at};
ghost use Rattle.lk_relocate.specs.ObjectSections.{IsReady, IsSectionOf, section_reference};
ghost use Rattle.lk_symbol_values.specs.SymbolNumbering.{low_numbers};

use crate::numbers_of_symbols::{find_numbers, symbol_numbers_at};
use crate::object_tables::ObjectTables;
use lk_elf::Rela;
use lk_model::layouts::Numbers;
use lk_obj_read::Object;
use lk_report::{Fault, Name, NoMemory, Site};
use lk_resolve::Resolution;
use lk_symbol_values::{Relocation, SymbolNumbers, Values, place_at};
use std::alloc::Global;

/// A section of an object of a link (gABI "Sections").
#[derive(Drop)]
pub(crate) struct ObjectSection<'a> {
    /// The values of symbols, with the resolution and the placement.
    pub(crate) values: &'a Values<'a>,
    pub(crate) object: &'a Object,
    /// The tables of the object.
    pub(crate) tables: &'a ObjectTables,
    /// The number of the object's input.
    pub(crate) input: u32,
    /// The section header index of the section in the object.
    pub(crate) section: u32,
    /// The address of the section; none for one that is not placed.
    pub(crate) start: Option<u64>,
}

/// A relocation at its place, in a section with this address.
fn relocation_at(start: Option<u64>, rela: &Rela) -> Relocation
    ensures { result ≡ relocation_at start rela.now }
{
    Relocation {
        address: place_at(start, rela.r_offset),
        code: rela.r_type(),
        addend: rela.r_addend,
    }
}

/// The path of the input with a number; empty for a number without an input.
fn path_of(alloc: Global, resolution: &Resolution, input: u32) -> Result<Name, NoMemory>
    ensures { IfOk result (λ path. path ≡ get_or resolution.now.paths input []) }
{
    if input < resolution.inputs() {
        resolution.path(input).copy(alloc)
    } else {
        Name::from_slice(alloc, &[])
    }
}

impl<'a> ObjectSection<'a> {
    /// The numbers of a symbol of its object: the noted ones, else found anew.
    fn symbol_numbers(&self, symbol: u32) -> SymbolNumbers
        requires { IsReady self.now }
        ensures { AreNumbersAt self.now.values.now self.now.input self.now.object.now symbol result }
    {
        match symbol_numbers_at(&self.tables.numbers_by_symbol, symbol) {
            Some(symbol_numbers) => symbol_numbers,
            None => find_numbers(self.values, self.object, self.input, symbol),
        }
    }

    /// The numbers of one of its relocations, by their low 64 bits; S is exact.
    pub(crate) fn relocation_numbers(&self, rela: &Rela) -> Numbers
        requires { IsReady self.now }
        ensures numbers { (r : Resolved) → IsSectionOf self.now r → result ≡ low_numbers (numbers_of r self.now.values.now.place (section_reference r self.now rela.now)) }
        ensures exact { (r : Resolved) → IsSectionOf self.now r → result.s ≡ (numbers_of r self.now.values.now.place (section_reference r self.now rela.now)).s }
    {
        let relocation = relocation_at(self.start, rela);
        let symbol = rela.r_symbol();
        let symbol_numbers = self.symbol_numbers(symbol);
        self.values.numbers(&relocation, &symbol_numbers)
    }

    /// The fault of one of its relocations with these numbers, whose value does not fit its field.
    pub(crate) fn overflow(
        &self,
        alloc: Global,
        rela: &Rela,
        numbers: Numbers,
        value: u64,
    ) -> Result<Fault, NoMemory>
        ensures { IfOk result (λ fault. fault ≡ overflow_at (get_or self.now.values.now.resolution.paths self.now.input []) self.now.section rela.now.r_offset numbers.p numbers.s numbers.a value) }
    {
        let site = Site {
            path: path_of(alloc, self.values.resolution(), self.input)?,
            section: self.section,
            offset: rela.r_offset,
        };
        Ok(Fault::Overflow {
            site,
            p: numbers.p,
            s: numbers.s,
            a: numbers.a,
            value,
        })
    }
}
