//! The kept pieces, each in the group of its output section. A section is looked up by hash.

ghost use Rattle.std.specs.Prelude.{◌≡◌, ◌<◌, ◌++◌, ◌∷◌, [], length, slice_get, position, Some, None, OnOk, IfSome};
ghost use Rattle.lk_model.specs.SectionKeys.{same_key};
ghost use Rattle.lk_layout.specs.Grouping.{keys_in, no_groups, with_piece, PutsAs};

use crate::kept::Kept;
use crate::key_refs::KeyRef;
use indexmap::IndexMap;
use lk_model::layouts::SectionKey;
use lk_report::NoMemory;
use std::alloc::Global;
use std::marker::Model;

/// The pieces of one output section, in their order.
#[derive(Drop)]
pub(crate) struct Pieces<'p> {
    pieces: Vec<Kept<'p>>,
}

impl<'p> Model for Pieces<'p> {
    ghost use Rattle.std.specs.Prelude.{List};
    ghost use Rattle.lk_model.specs.Views.{KeptPiece};

    ghost Value = { List KeptPiece };

    ghost view = { λ p. p.pieces.items };
}

impl<'p> Pieces<'p> {
    /// No piece.
    fn new(alloc: Global) -> Self
        ensures { result ≡ [] }
    {
        Pieces {
            pieces: Vec::new(alloc),
        }
    }

    /// Puts a piece at the end.
    fn push(&mut self, piece: Kept<'p>) -> Result<(), NoMemory>
        ensures { OnOk result (self.new ≡ self.old ++ piece.entry ∷ []) }
    {
        if self.pieces.push(piece).is_err() {
            return Err(NoMemory);
        }
        Ok(())
    }

    /// The pieces.
    pub(crate) fn as_slice(&self) -> &[Kept<'p>]
        ensures { result.now ≡ self.now }
    {
        self.pieces.as_slice()
    }
}

/// Kept pieces by output section. Contracts see the groups in order of their first piece, and the number of
/// each piece's group in the order of all pieces.
#[derive(Drop)]
pub(crate) struct Grouped<'p> {
    alloc: Global,
    sections: IndexMap<KeyRef<'p>, Pieces<'p>>,
    order: Vec<usize>,
}

impl<'p> Model for Grouped<'p> {
    ghost use Rattle.lk_layout.specs.Grouping.{Groups};

    ghost Value = { Groups };

    ghost view = { λ g. record { sections = g.sections.entries; order = g.order.items } };
}

impl<'p> Grouped<'p> {
    /// No piece.
    pub(crate) fn new(alloc: Global) -> Self
        ensures { result ≡ no_groups }
    {
        Grouped {
            alloc,
            sections: IndexMap::new(alloc),
            order: Vec::new(alloc),
        }
    }

    /// Puts a piece after all others.
    pub(crate) fn push(&mut self, piece: Kept<'p>) -> Result<(), NoMemory>
        ensures { OnOk result (self.new ≡ with_piece self.old piece.entry) }
    {
        let number = match self.find(piece.key()) {
            Some(number) => self.push_again(number, piece)?,
            None => self.push_first(piece)?,
        };
        if self.order.push(number).is_err() {
            return Err(NoMemory);
        }
        Ok(())
    }

    /// Puts a piece into a group that is there; the group's number.
    fn push_again(&mut self, number: usize, piece: Kept<'p>) -> Result<usize, NoMemory>
        requires { position (same_key piece.key) (keys_in self.old.sections) ≡ Some number }
        ensures { PutsAs self.old piece.entry result self.new }
    {
        let (_, pieces) = self.sections.pair_mut(number);
        pieces.push(piece)?;
        Ok(number)
    }

    /// Puts the first piece into a new group; the group's number.
    fn push_first(&mut self, piece: Kept<'p>) -> Result<usize, NoMemory>
        requires { position (same_key piece.key) (keys_in self.old.sections) ≡ None }
        ensures { PutsAs self.old piece.entry result self.new }
    {
        let key = KeyRef { key: piece.key() };
        let mut pieces = Pieces::new(self.alloc);
        pieces.push(piece)?;
        let Ok((number, _)) = self.sections.insert_full(key, pieces) else {
            return Err(NoMemory);
        };
        Ok(number)
    }

    /// The number of the group of an output section.
    pub(crate) fn find(&self, key: &SectionKey) -> Option<usize>
        ensures number { result ≡ position (same_key key.now) (keys_in self.now.sections) }
        ensures within { IfSome result (λ number. number < length self.now.sections) }
    {
        self.sections.get_index_of(&KeyRef { key })
    }

    /// The number of groups.
    pub(crate) fn len(&self) -> usize
        ensures { result ≡ length self.now.sections }
    {
        self.sections.len()
    }

    /// The group with a number: its output section and its pieces.
    pub(crate) fn group(&self, number: usize) -> (&SectionKey, &[Kept<'p>])
        requires { number < length self.now.sections }
        ensures { slice_get self.now.sections number ≡ Some (result.0.now, result.1.now) }
    {
        let (key, pieces) = self.sections.get_index(number).unwrap();
        (key.key, pieces.as_slice())
    }

    /// The numbers of the pieces' groups, in the order of all pieces.
    pub(crate) fn order(&self) -> &[usize]
        ensures { result.now ≡ self.now.order }
    {
        self.order.as_slice()
    }
}
