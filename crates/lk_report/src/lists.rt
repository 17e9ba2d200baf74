//! Lists, which contracts see as the list of their items.

ghost use Rattle.std.specs.Prelude.{◌≡◌, ◌∷◌, ◌++◌, List, [], length, OnOk, OnErr, IfOk};

use crate::memory::{NoMemory, TryCopy};
use std::alloc::Global;
use std::marker::Model;

/// A list of items in their order. Contracts see it as that list.
#[derive(Drop, Debug)]
pub struct List<X> {
    items: Vec<X>,
}

impl<X> Model for List<X> {
    ghost Value = { List X };

    ghost view = { λ l. l.items.items };
}

impl<X: Drop> List<X> {
    /// The empty list. Takes no memory; later pushes do.
    pub fn new(alloc: Global) -> Self
        ensures { result ≡ [] }
    {
        List {
            items: Vec::new(alloc),
        }
    }

    /// The list of these items.
    pub fn from_vec(items: Vec<X>) -> Self
        ensures { result ≡ items.items }
    {
        List { items }
    }

    /// The items, given back without taking memory.
    pub fn into_vec(self) -> Vec<X>
        ensures { result.items ≡ self }
    {
        let List { items } = self;
        items
    }

    /// The items in order.
    pub fn as_slice(&self) -> &[X]
        ensures { result.now ≡ self.now }
    {
        self.items.as_slice()
    }

    /// Puts an item at the end; the list is unchanged after out of memory.
    pub fn push(&mut self, item: X) -> Result<(), NoMemory>
        ensures pushed { OnOk result (self.new ≡ self.old ++ item ∷ []) }
        ensures unchanged { OnErr result (self.new ≡ self.old) }
    {
        match self.items.push(item) {
            Ok(()) => Ok(()),
            Err(_) => Err(NoMemory),
        }
    }
}

impl<X: TryCopy + Drop> List<X> {
    /// An equal list.
    pub fn copy(&self, alloc: Global) -> Result<Self, NoMemory>
        ensures { IfOk result (λ l. l ≡ self.now) }
    {
        let mut items = Vec::new(alloc);
        for item in self.items.as_slice() {
            let one = item.try_copy(alloc)?;
            if items.push(one).is_err() {
                return Err(NoMemory);
            }
        }
        Ok(List { items })
    }
}

impl<X: TryCopy + Drop> TryCopy for List<X> {
    fn try_copy(&self, alloc: Global) -> Result<Self, NoMemory> {
        self.copy(alloc)
    }
}

impl<X: PartialEq> PartialEq for List<X> {
    ghost use Rattle.std.specs.Cmp.Lexicographic.{pointwise, lists_per};

    ghost eq = { pointwise X.eq };

    ghost laws = { lists_per X.laws };

    fn eq(&self, other: &Self) -> bool {
        self.items == other.items
    }
}

impl<X: Eq> Eq for List<X> {
    ghost use Rattle.std.specs.Cmp.Lexicographic.{lists_equiv};

    ghost laws = { lists_equiv X.Eq.laws };
}

/// Names in order.
pub type NameList = List<crate::names::Name>;
