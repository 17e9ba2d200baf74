//! The tables of the object whose pieces are linked: which sections are its pieces, and the numbers of its symbols.
//! The pieces of an object are together, so that the tables are made once for all of them, and the same lists serve
//! one object after another.

ghost use Rattle.std.specs.Prelude.{◌≡◌, ℕ, List, Option, Some, IsTrue, OnOk};
ghost use Rattle.std.specs.Option.{option_copied};
ghost use Rattle.lk_symbol_values.specs.SymbolNumbering.{ValueInputs};
ghost use Rattle.lk_relocate.specs.ObjectsOfInputs.{object_in};
ghost use Rattle.lk_relocate.specs.ObjectTables.{AreCurrent, AreTablesOf};

use crate::numbers_of_symbols::{NumbersOfSymbols, learn_symbols};
use crate::piece_marks::mark_pieces;
use lk_marks::Marks;
use lk_obj_read::Object;
use lk_report::NoMemory;
use lk_symbol_values::Values;
use std::alloc::Global;

/// The tables of one object.
#[derive(Drop)]
pub(crate) struct ObjectTables {
    /// The number of the object's input; none before the first one.
    pub(crate) input: Option<u32>,
    /// The numbers of its symbols, as far as its relocations asked for them.
    pub(crate) numbers_by_symbol: NumbersOfSymbols,
    /// Which of its sections are its pieces.
    pub(crate) marks: Marks,
}

/// The object of the input with a number, if it has one.
pub(crate) fn object_at(objects: &[Option<Object>], input: u32) -> Option<&Object>
    ensures { option_copied result ≡ object_in objects.now input }
{
    match objects.get(input as usize) {
        Some(Some(object)) => Some(object),
        Some(None) => None,
        None => None,
    }
}

impl ObjectTables {
    /// The tables of no object.
    pub(crate) fn none(alloc: Global) -> Self
        ensures { (known : ValueInputs) (objects : List (Option (List ℕ))) → AreCurrent known objects result }
    {
        ObjectTables {
            input: None,
            numbers_by_symbol: Vec::new(alloc),
            marks: Marks::new(alloc),
        }
    }

    /// Whether they are those of the object of this input.
    fn is_at(&self, input: u32) -> bool
        ensures { IsTrue result → self.now.input ≡ Some input }
    {
        match self.input {
            Some(at) => at == input,
            None => false,
        }
    }

    /// Turns to the object of an input, unless the tables are its tables already.
    fn turn_to(&mut self, values: &Values<'_>, object: &Object, input: u32) -> Result<(), NoMemory>
        requires { self.old.input ≡ Some input → AreTablesOf values.now input object.now self.old }
        ensures tables { OnOk result (AreTablesOf values.now input object.now self.new) }
        ensures at { OnOk result (self.new.input ≡ Some input) }
    {
        if self.is_at(input) {
            return Ok(());
        }
        self.numbers_by_symbol.clear();
        mark_pieces(&mut self.marks, object.summary().pieces.as_slice())?;
        self.input = Some(input);
        Ok(())
    }

    /// Learns the numbers of the symbols that the relocations of a section of the object go through, if it is a piece.
    fn learn(
        &mut self,
        values: &Values<'_>,
        object: &Object,
        input: u32,
        section: u32,
    ) -> Result<(), NoMemory>
        requires { AreTablesOf values.now input object.now self.old }
        ensures tables { OnOk result (AreTablesOf values.now input object.now self.new) }
        ensures at { self.new.input ≡ self.old.input }
    {
        if self.marks.is_marked(section) {
            let relas = object.relocations(section);
            learn_symbols(&mut self.numbers_by_symbol, values, object, input, relas)?;
            Ok(())
        } else {
            Ok(())
        }
    }

    /// Gets ready for a section of the object of an input: turns to the object, and learns the numbers of the symbols
    /// that the relocations of the section go through.
    pub(crate) fn get_ready(
        &mut self,
        values: &Values<'_>,
        object: &Object,
        input: u32,
        section: u32,
    ) -> Result<(), NoMemory>
        requires { self.old.input ≡ Some input → AreTablesOf values.now input object.now self.old }
        ensures tables { OnOk result (AreTablesOf values.now input object.now self.new) }
        ensures at { OnOk result (self.new.input ≡ Some input) }
    {
        self.turn_to(values, object, input)?;
        self.learn(values, object, input, section)?;
        Ok(())
    }
}
