//! The names by hash: a map from each name to its row. A name's number is the place of its row, and rows are
//! never taken out, so a number stays.

ghost use Rattle.std.specs.Prelude.{◌≡◌, ◌-◌, ◌^◌, ◌<◌, [], length, slice_get, None, Some, IfSome};
ghost use Rattle.std.specs.List.{IsDistinct};
ghost use Rattle.std.specs.Str.{bytes_eq};
ghost use Rattle.lk_symtab.specs.NameRows.{row_names, number_of, with_made, AddGives, AddsAt};

use crate::rows::Row;
use indexmap::IndexMap;
use lk_model::summaries::Contribution;
use lk_report::{Name, NoMemory};
use std::alloc::Global;
use std::marker::Model;

/// Names with their rows. Contracts see it as the list of the rows, the row of name n at place n.
#[derive(Drop)]
pub(crate) struct NameTable {
    alloc: Global,
    rows: IndexMap<Name, Row>,
}

impl Model for NameTable {
    ghost use Rattle.std.specs.Prelude.{List};
    ghost use Rattle.indexmap.specs.IndexMap.{values};
    ghost use Rattle.lk_symtab.specs.NameRows.{NameRow};
    ghost use Rattle.lk_symtab.specs.RowEntries.{IsTable};

    ghost Value = { List NameRow };

    ghost view = { λ t. values t.rows };

    ghost invariant = { λ t. IsTable t.rows.entries };
}

impl NameTable {
    /// No name. What is added later is copied by this allocator.
    pub(crate) fn new(alloc: Global) -> Self
        ensures { result ≡ [] }
    {
        NameTable {
            alloc,
            rows: IndexMap::new(alloc),
        }
    }

    /// The number of names, each of which has one row.
    pub(crate) fn len(&self) -> u32
        ensures count { result ≡ length self.now }
        ensures distinct { IsDistinct bytes_eq (row_names self.now) }
    {
        self.rows.len() as u32
    }

    /// The number of a name; none exactly where no symbol was added under it.
    #[tactic(auto, using(crate::proofs::Entries::number_is))]
    pub(crate) fn find(&self, name: &Name) -> Option<u32>
        ensures number { result ≡ number_of self.now name.now }
        ensures within { IfSome result (λ number. number < length self.now) }
    {
        match self.rows.get_index_of(name) {
            Some(n) => Some(n as u32),
            None => None,
        }
    }

    /// Adds a symbol under a name, after all that were added before it: the name's number, which is the next one
    /// where the name is new.
    ///
    /// # Errors
    /// Out of memory. The table is then unchanged.
    #[tactic(auto, using(crate::proofs::Entries::number_is))]
    pub(crate) fn add(&mut self, name: &Name, symbol: Contribution) -> Result<u32, NoMemory>
        requires { length self.old < 2 ^ 32 - 1 }
        ensures { AddGives self.old name.now symbol result self.new }
    {
        match self.rows.get_index_of(name) {
            Some(n) => self.add_again(n, symbol),
            None => self.add_first(name, symbol),
        }
    }

    /// Adds a symbol to a row that is there.
    fn add_again(&mut self, n: usize, symbol: Contribution) -> Result<u32, NoMemory>
        requires { n < length self.old }
        ensures { AddsAt self.old n symbol result self.new }
    {
        let (_, row) = self.rows.pair_mut(n);
        row.push(symbol)?;
        Ok(n as u32)
    }

    /// Adds the first symbol of a name.
    fn add_first(&mut self, name: &Name, symbol: Contribution) -> Result<u32, NoMemory>
        requires few { length self.old < 2 ^ 32 - 1 }
        requires absent { number_of self.old name.now ≡ None }
        ensures { AddGives self.old name.now symbol result self.new }
    {
        let row = Row::first(self.alloc, name, symbol)?;
        let key = name.copy(self.alloc)?;
        let Ok((number, _)) = self.rows.insert_full(key, row) else {
            return Err(NoMemory);
        };
        Ok(number as u32)
    }

    /// Says that the linker makes the name with a number.
    pub(crate) fn make(&mut self, number: u32)
        requires { number < length self.old }
        ensures { self.new ≡ with_made self.old number }
    {
        let (_, row) = self.rows.pair_mut(number as usize);
        row.make();
    }

    /// The row with a number.
    pub(crate) fn row(&self, number: u32) -> &Row
        requires { number < length self.now }
        ensures { slice_get self.now number ≡ Some result.now }
    {
        &self.rows[number as usize]
    }
}
