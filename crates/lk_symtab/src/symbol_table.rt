//! The table of the names, and which name each added symbol has.

ghost use Rattle.std.specs.Prelude.{◌≡◌, ◌-◌, ◌^◌, ◌<◌, [], length, slice_get, Some, IfOk, IfSome};
ghost use Rattle.std.specs.List.{IsDistinct};
ghost use Rattle.std.specs.Option.{option_map};
ghost use Rattle.std.specs.Str.{bytes_eq};
ghost use Rattle.lk_model.specs.References.{number_of_name};
ghost use Rattle.lk_symtab.specs.NameRows.{all_symbols, row_names, number_of, row_needed, row_referred, row_visibility, row_winner, symbols_in, with_made, AddGives};
ghost use Rattle.lk_symtab.specs.NamesOfSymbols.{name_of_symbol};

use crate::name_table::NameTable;
use crate::names_by_symbol::NamesBySymbol;
use lk_model::summaries::{Contribution, Contributions, Global as Symbol, Home, Kind, Winner};
use lk_report::{Name, NoMemory};
use std::alloc::Global;
use std::marker::Model;

/// The names of the added inputs with their symbols. Contracts see it as the list of its rows, the row of
/// name n at place n.
#[derive(Drop)]
pub struct SymTab {
    alloc: Global,
    table: NameTable,
    symbols: NamesBySymbol,
}

impl Model for SymTab {
    ghost use Rattle.std.specs.Prelude.{List};
    ghost use Rattle.lk_symtab.specs.NameRows.{NameRow};
    ghost use Rattle.lk_symtab.specs.NamesOfSymbols.{AreNamesOf};

    ghost Value = { List NameRow };

    ghost view = { λ t. t.table };

    ghost invariant = { λ t. AreNamesOf t.table t.symbols };
}

/// A symbol with another home.
fn copy_at_home(alloc: Global, global: &Symbol, home: Home) -> Result<Symbol, NoMemory>
    ensures { IfOk result (λ g. g ≡ record global.now { home = home }) }
{
    let mut copied = global.copy(alloc)?;
    copied.home = home;
    Ok(copied)
}

impl SymTab {
    /// No name. What is added later is copied by this allocator.
    #[tactic(auto, using(crate::proofs::SymbolsNoted::none_noted))]
    pub fn new(alloc: Global) -> Self
        ensures { result ≡ [] }
    {
        SymTab {
            alloc,
            table: NameTable::new(alloc),
            symbols: NamesBySymbol::new(alloc),
        }
    }

    /// The number of names, each of which has one row.
    pub fn len(&self) -> u32
        ensures count { result ≡ length self.now }
        ensures distinct { IsDistinct bytes_eq (row_names self.now) }
    {
        self.table.len()
    }

    /// The number of a name; none exactly where no symbol was added under it.
    pub fn find(&self, name: &Name) -> Option<u32>
        ensures number { result ≡ number_of self.now name.now }
        ensures within { IfSome result (λ number. number < length self.now) }
    {
        self.table.find(name)
    }

    /// The number of a name, or how many names there are where no symbol was added under it.
    #[tactic(auto, using(crate::proofs::NamesNumbered::number_reported))]
    pub fn number_of(&self, name: &Name) -> u32
        ensures { result ≡ number_of_name (all_symbols self.now) name.now }
    {
        self.find(name).unwrap_or(self.len())
    }

    /// The number of the name of an added symbol, by its input and symbol number (gABI "Symbol Table"): the first
    /// name that has such a symbol. No text is looked at.
    pub fn name_of_symbol(&self, input: u32, symbol: u32) -> Option<u32>
        ensures { result ≡ name_of_symbol (all_symbols self.now) input symbol }
    {
        self.symbols.name_at(input, symbol)
    }

    /// Makes room for the symbols of an input with numbers up to this one. No name changes.
    ///
    /// # Errors
    /// Out of memory.
    #[tactic(auto, using(crate::proofs::SymbolsNoted::still_noted))]
    pub fn make_room(&mut self, input: u32, symbol: u32) -> Result<(), NoMemory>
        ensures { self.new ≡ self.old }
    {
        self.symbols.make_room(input, symbol)
    }

    /// Adds a symbol of an input under a name, after all that were added before it: the name's number, which
    /// is the next one where the name is new. `kind` says what the input is.
    ///
    /// # Errors
    /// Out of memory. The table is then unchanged.
    pub fn add(
        &mut self,
        name: &Name,
        input: u32,
        kind: Kind,
        global: &Symbol,
    ) -> Result<u32, NoMemory>
        requires { length self.old < 2 ^ 32 - 1 }
        ensures { AddGives self.old name.now (record { input = input; kind = kind; global = global.now }) result self.new }
    {
        self.add_at_home(name, input, kind, global, global.home)
    }

    /// Adds a symbol as `add` does, with another home: one in a section that the link drops is a reference.
    ///
    /// # Errors
    /// Out of memory. The table is then unchanged.
    pub fn add_at_home(
        &mut self,
        name: &Name,
        input: u32,
        kind: Kind,
        global: &Symbol,
        home: Home,
    ) -> Result<u32, NoMemory>
        requires { length self.old < 2 ^ 32 - 1 }
        ensures { AddGives self.old name.now (record { input = input; kind = kind; global = record global.now { home = home } }) result self.new }
    {
        let global = copy_at_home(self.alloc, global, home)?;
        self.add_symbol(
            name,
            Contribution {
                input,
                kind,
                global,
            },
        )
    }

    /// Adds a symbol under a name, and notes the name's number for it.
    #[tactic(auto, using(crate::proofs::SymbolsNoted::still_noted, crate::proofs::SymbolsNoted::one_noted))]
    fn add_symbol(&mut self, name: &Name, contribution: Contribution) -> Result<u32, NoMemory>
        requires { length self.old < 2 ^ 32 - 1 }
        ensures { AddGives self.old name.now contribution result self.new }
    {
        let input = contribution.input;
        let symbol = contribution.global.symbol;
        self.symbols.make_room(input, symbol)?;
        let number = self.table.add(name, contribution)?;
        self.symbols.note(input, symbol, number);
        Ok(number)
    }

    /// The symbols of the name with a number, in the order in which they were added.
    pub fn at(&self, number: u32) -> &Contributions
        requires { number < length self.now }
        ensures { option_map symbols_in (slice_get self.now number) ≡ Some result.now }
    {
        self.table.row(number).contributions()
    }

    /// The definition that the name with a number means.
    pub fn winner(&self, number: u32) -> Winner
        requires { number < length self.now }
        ensures { option_map row_winner (slice_get self.now number) ≡ Some result }
    {
        self.table.row(number).winner()
    }

    /// The visibility of the name with a number: the most constraining one of its symbols in objects.
    pub fn visibility(&self, number: u32) -> u32
        requires { number < length self.now }
        ensures { option_map row_visibility (slice_get self.now number) ≡ Some result }
    {
        self.table.row(number).visibility()
    }

    /// Whether an object refers to the name with a number.
    pub fn is_referred(&self, number: u32) -> bool
        requires { number < length self.now }
        ensures { option_map row_referred (slice_get self.now number) ≡ Some result }
    {
        self.table.row(number).is_referred()
    }

    /// Whether an object has an undefined GLOBAL symbol of the name with a number.
    pub fn is_needed(&self, number: u32) -> bool
        requires { number < length self.now }
        ensures { option_map row_needed (slice_get self.now number) ≡ Some result }
    {
        self.table.row(number).is_needed()
    }

    /// Says that the linker makes the name with a number.
    #[tactic(auto, using(crate::proofs::SymbolsNoted::noted_when_made))]
    pub fn make(&mut self, number: u32)
        requires { number < length self.old }
        ensures { self.new ≡ with_made self.old number }
    {
        self.table.make(number);
    }
}
