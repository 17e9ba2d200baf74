//! What the table knows of a name: its symbols, whether the linker makes it, and the best of its symbols.

ghost use Rattle.std.specs.Prelude.{◌≡◌, [], ◌∷◌, IfOk, OnErr, OnOk};
ghost use Rattle.lk_symtab.specs.NameRows.{made_row, new_row, row_needed, row_referred, row_visibility, row_winner, row_with};

use crate::bests::Best;
use lk_model::summaries::{Contribution, ContributionList, Contributions, Winner};
use lk_report::{List, Name, NoMemory};
use std::alloc::Global;
use std::marker::Model;

/// A name with its symbols. Contracts see it without the best, which is always that of the symbols.
#[derive(Drop)]
pub struct Row {
    contributions: Contributions,
    is_made: bool,
    best: Best,
}

impl Model for Row {
    ghost use Rattle.std.specs.Prelude.{◌≡◌};
    ghost use Rattle.lk_symtab.specs.Bests.{best_of};
    ghost use Rattle.lk_symtab.specs.NameRows.{NameRow};

    ghost Value = { NameRow };

    ghost view = { λ r. record { contributions = r.contributions; is_made = r.is_made } };

    ghost invariant = { λ r. r.best ≡ best_of r.contributions };
}

/// The list of one symbol, with no room to spare: most names have no second one.
fn list_of(alloc: Global, symbol: Contribution) -> Result<ContributionList, NoMemory>
    ensures { IfOk result (λ list. list ≡ symbol ∷ []) }
{
    let Ok(mut list) = Vec::with_capacity(alloc, 1) else {
        return Err(NoMemory);
    };
    match list.push(symbol) {
        Ok(()) => Ok(List::from_vec(list)),
        Err(_) => Err(NoMemory),
    }
}

impl Row {
    /// The row of a name whose first symbol this is; the linker does not make it.
    pub fn first(alloc: Global, name: &Name, symbol: Contribution) -> Result<Row, NoMemory>
        ensures { IfOk result (λ row. row ≡ new_row name.now symbol) }
    {
        let best = Best::none().with(&symbol);
        let name = name.copy(alloc)?;
        let list = list_of(alloc, symbol)?;
        Ok(Row {
            contributions: Contributions { name, list },
            is_made: false,
            best,
        })
    }

    /// Puts a symbol at the end of the name's list; the row is unchanged after out of memory.
    #[tactic(auto, using(crate::proofs::BestsKept::best_pushed))]
    pub fn push(&mut self, symbol: Contribution) -> Result<(), NoMemory>
        ensures pushed { OnOk result (self.new ≡ row_with self.old symbol) }
        ensures unchanged { OnErr result (self.new ≡ self.old) }
    {
        let best = self.best.with(&symbol);
        self.contributions.list.push(symbol)?;
        self.best = best;
        Ok(())
    }

    /// Says that the linker makes the name.
    pub fn make(&mut self)
        ensures { self.new ≡ made_row self.old }
    {
        self.is_made = true;
    }

    /// The name and its symbols, in the order in which they came.
    pub fn contributions(&self) -> &Contributions
        ensures { result.now ≡ self.now.contributions }
    {
        &self.contributions
    }

    /// The definition that the name means.
    #[tactic(auto, using(crate::proofs::BestsKept::picked_is))]
    pub fn winner(&self) -> Winner
        ensures { result ≡ row_winner self.now }
    {
        self.best.winner(self.is_made)
    }

    /// The most constraining visibility of the symbols in objects.
    #[tactic(auto, unfolding(crate::specs::Bests::best_of))]
    pub fn visibility(&self) -> u32
        ensures { result ≡ row_visibility self.now }
    {
        self.best.visibility
    }

    /// Whether an object refers to the name.
    #[tactic(auto, unfolding(crate::specs::Bests::best_of))]
    pub fn is_referred(&self) -> bool
        ensures { result ≡ row_referred self.now }
    {
        self.best.is_referred
    }

    /// Whether an object has an undefined GLOBAL symbol of the name.
    #[tactic(auto, unfolding(crate::specs::Bests::best_of))]
    pub fn is_needed(&self) -> bool
        ensures { result ≡ row_needed self.now }
    {
        self.best.is_needed
    }
}
