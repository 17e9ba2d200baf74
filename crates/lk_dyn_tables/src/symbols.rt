//! The entries that the names of a link have in its symbol tables (gABI "Symbol Table").

ghost use Rattle.std.specs.Prelude.{◌≡◌, ◌<◌, List, IfOk, length};
ghost use Rattle.std.specs.Option.{option_copied};
ghost use Rattle.lk_elf.specs.Records.{sym_bytes};
ghost use Rattle.lk_report.specs.declared.causes.OptionRecord.{OptionRecord};
ghost use Rattle.lk_model.specs.Lawful.{Lawful};
ghost use Rattle.lk_model.specs.Numbered.{is_number_in};
ghost use Rattle.lk_model.specs.Resolving.{resolve};
ghost use Rattle.lk_model.specs.SymbolValues.{name_of};
ghost use Rattle.lk_model.specs.Texts.{offset_in};
ghost use Rattle.lk_model.specs.Views.{Input};
ghost use Rattle.lk_resolve.specs.Given.{IsGiven};
ghost use Rattle.lk_dyn_tables.specs.SymbolEntries.{as_sym};
ghost use Rattle.lk_dyn_tables.specs.SymbolTables.{definition_in, dynsym_import_in, entry_bytes, entry_in, fields_of, import_in, made_in, symtab_import_in, uncopied_in};

use crate::bindings::import_binding;
use crate::number_sets::{NumberSet, has_number, number_set};
use crate::symbol_entries::{
    NULL_ENTRY, NameFields, SymbolEntry, common_entry, copy_entry, definition_entry,
    imported_entry, made_entry, undefined_entry,
};
use crate::symbol_places::SymbolPlaces;
use lk_elf::numbers::SHN_UNDEF;
use lk_model::layouts::{Needs, PieceId};
use lk_model::summaries::{Global as Symbol, Winner};
use lk_report::NoMemory;
use lk_string_table::StringTable;
use lk_symbol_values::Values;
use std::alloc::Global;
use std::marker::Model;

/// Which of the two symbol tables an entry is in.
#[derive(Clone, Copy)]
pub(crate) enum SymbolTable {
    /// `.dynsym`, of the dynamic names.
    Dynsym,
    /// `.symtab`, of all names that have a winner.
    Symtab,
}

/// The names of a link with what its symbol tables say of them. Contracts see it as what the values of symbols are
/// made of, and the needs.
#[derive(Drop)]
pub struct Symbols<'a> {
    values: &'a Values<'a>,
    needs: &'a Needs,
    places: SymbolPlaces<'a>,
    /// The imports that are copied.
    copied: NumberSet,
    /// The imports whose PLT entry is the function's address.
    addressed: NumberSet,
}

impl<'a> Model for Symbols<'a> {
    ghost use Rattle.lk_dyn_tables.specs.SymbolTables.{AreSymbols, SymbolInputs};

    ghost Value = { SymbolInputs };

    ghost view = { λ s. record { resolution = s.values.now.resolution; summaries = s.values.now.summaries; place = s.places; needs = s.needs.now } };

    ghost invariant = { λ s. AreSymbols s.places s.copied.keys s.addressed.keys s.values.now.place s.needs.now };
}

/// The entry of a symbol that the linker makes; `.dynsym` has none.
fn made_in(table: SymbolTable, name: NameFields) -> SymbolEntry
    ensures { result ≡ made_in table name }
{
    match table {
        SymbolTable::Dynsym => NULL_ENTRY,
        SymbolTable::Symtab => made_entry(name),
    }
}

impl<'a> Symbols<'a> {
    /// The names of a link at a placement, by the values of its symbols and its needs.
    ///
    /// # Errors
    /// Out of memory.
    pub fn new(alloc: Global, values: &'a Values<'a>, needs: &'a Needs) -> Result<Self, NoMemory>
        ensures { IfOk result (λ symbols. symbols ≡ record { resolution = values.now.resolution; summaries = values.now.summaries; place = values.now.place; needs = needs.now }) }
    {
        let places = SymbolPlaces::new(alloc, values.placement())?;
        let copied = number_set(alloc, needs.copies.as_slice())?;
        let addressed = number_set(alloc, needs.address.as_slice())?;
        Ok(Symbols {
            values,
            needs,
            places,
            copied,
            addressed,
        })
    }

    /// Whether an import is copied.
    fn is_copied(&self, number: u32) -> bool
        ensures { result ≡ is_number_in self.now.needs.copies number }
    {
        has_number(&self.copied, number)
    }

    /// Whether the PLT entry of an import is the function's address (psABI x86-64 "Function Addresses").
    fn is_addressed(&self, number: u32) -> bool
        ensures { result ≡ is_number_in self.now.needs.address number }
    {
        has_number(&self.addressed, number)
    }

    /// The low bits of the value of an import without a copy: the address of its PLT entry where that is the
    /// function's address, else 0.
    fn uncopied_value(&self, number: u32) -> u64
        ensures { result ≡ uncopied_in self.now number }
    {
        if self.is_addressed(number) {
            self.places.plt_address(number)
        } else {
            0
        }
    }

    /// The entry of an import in `.dynsym`.
    fn dynsym_import(&self, text: u64, binding: u32, number: u32, global: &Symbol) -> SymbolEntry
        ensures { result ≡ dynsym_import_in self.now text binding number global.now }
    {
        if self.is_copied(number) {
            copy_entry(&self.places, text, binding, number, global)
        } else {
            undefined_entry(text, binding, self.uncopied_value(number), global)
        }
    }

    /// The entry of an import in `.symtab`.
    fn symtab_import(&self, name: NameFields, number: u32, global: &Symbol) -> SymbolEntry
        ensures { result ≡ symtab_import_in self.now name number global.now }
    {
        if self.is_copied(number) {
            let copy = PieceId::Copy { name: number };
            let shndx = self.places.header_number(copy);
            imported_entry(name, shndx, self.places.address(copy), global)
        } else {
            let value = self.uncopied_value(number);
            imported_entry(name, u64::from(SHN_UNDEF), value, global)
        }
    }

    /// The entry of an import that is a symbol of an input.
    fn import(
        &self,
        table: SymbolTable,
        name: NameFields,
        binding: u32,
        number: u32,
        global: Option<&Symbol>,
    ) -> SymbolEntry
        ensures { result ≡ import_in self.now table name binding number (option_copied global.entry) }
    {
        match global {
            None => NULL_ENTRY,
            Some(global) => match table {
                SymbolTable::Dynsym => self.dynsym_import(name.text, binding, number, global),
                SymbolTable::Symtab => self.symtab_import(name, number, global),
            },
        }
    }

    /// The entry of a definition that is a symbol of an input.
    fn definition(&self, name: NameFields, input: u32, global: Option<&Symbol>) -> SymbolEntry
        ensures { result ≡ definition_in self.now name input (option_copied global.entry) }
    {
        match global {
            None => NULL_ENTRY,
            Some(global) => definition_entry(&self.places, name, input, global),
        }
    }

    /// The entry of a name with a number and a winner; the null symbol for a name that has none in this table.
    fn entry_by_winner(
        &self,
        table: SymbolTable,
        name: NameFields,
        binding: u32,
        number: u32,
        winner: Winner,
    ) -> SymbolEntry
        ensures { result ≡ entry_in self.now table name binding number winner }
    {
        match winner {
            Winner::Nothing => NULL_ENTRY,
            Winner::Strong { input, symbol } | Winner::Weak { input, symbol } => {
                self.definition(name, input, self.values.global(input, symbol))
            }
            Winner::Common { size, .. } => common_entry(&self.places, name, number, size),
            Winner::Made => made_in(table, name),
            Winner::Import { input, symbol } => {
                let global = self.values.global(input, symbol);
                self.import(table, name, binding, number, global)
            }
        }
    }

    /// What a name alone decides of its entry.
    fn fields(&self, texts: &StringTable<'_>, number: u32) -> NameFields
        requires { number < length self.now.resolution.rows }
        ensures { (options : OptionRecord) (xs : List Input) → IsGiven self.now.resolution self.now.summaries self.now.needs options xs → Lawful (resolve options xs) self.now.place → result ≡ fields_of (resolve options xs) self.now.place (offset_in texts.now (name_of (resolve options xs) number)) number }
    {
        let resolution = self.values.resolution();
        NameFields {
            text: texts.offset(resolution.names().at(number).name.as_slice()),
            visibility: resolution.visibility(number),
            value: self.values.name_numbers(number).value,
        }
    }

    /// The entry of the name with a number; the null symbol for a number that no name has.
    pub(crate) fn entry(
        &self,
        table: SymbolTable,
        texts: &StringTable<'_>,
        number: u32,
    ) -> SymbolEntry
        ensures { (options : OptionRecord) (xs : List Input) → IsGiven self.now.resolution self.now.summaries self.now.needs options xs → Lawful (resolve options xs) self.now.place → sym_bytes (as_sym result) ≡ entry_bytes table (resolve options xs) self.now.place texts.now number }
    {
        let names = self.values.resolution().names();
        if number >= names.len() {
            return NULL_ENTRY;
        }
        let name = self.fields(texts, number);
        let binding = import_binding(names.at(number));
        self.entry_by_winner(table, name, binding, number, names.winner(number))
    }
}
