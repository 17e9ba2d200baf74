//! The best of a name's symbols, kind by kind, kept up to date with each symbol that comes, so that the
//! winner of a name is picked without looking at its list again.

ghost use Rattle.std.specs.Prelude.{◌≡◌};
ghost use Rattle.lk_model.specs.Winners.{stricter};
ghost use Rattle.lk_symtab.specs.Bests.{best_with, block_and, block_with, picked, place_with, visibility_with};
ghost use Rattle.lk_symtab.specs.Bests as bests;

use crate::symbol_kinds::{
    is_global_reference, is_object_common, is_object_reference, is_of_object, is_shared_definition,
    is_strong_definition, is_weak_definition,
};
use lk_elf::numbers::STV_DEFAULT;
use lk_model::summaries::{Contribution, Winner};

/// Where a symbol is: its input and its number there.
#[derive(Clone, Copy)]
pub struct SymbolId {
    pub input: u32,
    pub symbol: u32,
}

/// A common block (gABI "Common Symbols").
#[derive(Clone, Copy)]
pub struct Block {
    /// The size in bytes.
    pub size: u64,
    /// The alignment.
    pub align: u64,
}

/// What the winner of a name is picked from.
#[derive(Clone, Copy)]
pub struct Best {
    /// The first strong definition in an object.
    pub strong: Option<SymbolId>,
    /// The merged common of the objects.
    pub common: Option<Block>,
    /// The first weak definition in an object.
    pub weak: Option<SymbolId>,
    /// The first definition in a shared input.
    pub import: Option<SymbolId>,
    /// The most constraining visibility of the symbols in objects.
    pub visibility: u32,
    /// Whether an object refers to the name.
    pub is_referred: bool,
    /// Whether an object has an undefined GLOBAL symbol of the name.
    pub is_needed: bool,
}

impl Best {
    /// The best of no symbols.
    pub fn none() -> Best
        ensures { result ≡ bests.none }
    {
        Best {
            strong: None,
            common: None,
            weak: None,
            import: None,
            visibility: STV_DEFAULT as u32,
            is_referred: false,
            is_needed: false,
        }
    }

    /// The best with one more symbol after the others.
    #[tactic(auto, unfolding(crate::specs::Bests::best_with))]
    pub fn with(&self, symbol: &Contribution) -> Best
        ensures { result ≡ best_with self.now symbol.now }
    {
        Best {
            strong: place_with(self.strong, is_strong_definition(symbol), symbol),
            common: block_with(self.common, is_object_common(symbol), symbol),
            weak: place_with(self.weak, is_weak_definition(symbol), symbol),
            import: place_with(self.import, is_shared_definition(symbol), symbol),
            visibility: visibility_with(self.visibility, is_of_object(symbol), symbol),
            is_referred: self.is_referred || is_object_reference(symbol),
            is_needed: self.is_needed || is_global_reference(symbol),
        }
    }

    /// The winner of the name, which the linker makes or not.
    #[tactic(auto, unfolding(crate::specs::Bests::picked))]
    pub fn winner(&self, is_made: bool) -> Winner
        ensures { result ≡ picked self.now is_made }
    {
        if let Some(SymbolId { input, symbol }) = self.strong {
            return Winner::Strong { input, symbol };
        }
        if let Some(Block { size, align }) = self.common {
            return Winner::Common { size, align };
        }
        if let Some(SymbolId { input, symbol }) = self.weak {
            return Winner::Weak { input, symbol };
        }
        if is_made {
            return Winner::Made;
        }
        match self.import {
            Some(SymbolId { input, symbol }) if self.visibility == STV_DEFAULT as u32 => {
                Winner::Import { input, symbol }
            }
            _ => Winner::Nothing,
        }
    }
}

/// The first place, where one more symbol passes a test or not.
fn place_with(place: Option<SymbolId>, passes: bool, symbol: &Contribution) -> Option<SymbolId>
    ensures { result ≡ place_with place passes symbol.now }
{
    if place.is_none() && passes {
        return Some(SymbolId {
            input: symbol.input,
            symbol: symbol.global.symbol,
        });
    }
    place
}

/// A merged block with one more common: the greater size and the greater alignment.
fn block_and(block: Option<Block>, size: u64, align: u64) -> Block
    ensures { result ≡ block_and block size align }
{
    match block {
        None => Block { size, align },
        Some(block) => Block {
            size: block.size.max(size),
            align: block.align.max(align),
        },
    }
}

/// A merged block with one more symbol, which is a common of an object or not.
fn block_with(block: Option<Block>, is_more: bool, symbol: &Contribution) -> Option<Block>
    ensures { result ≡ block_with block is_more symbol.now }
{
    if is_more {
        return Some(block_and(block, symbol.global.size, symbol.global.value));
    }
    block
}

/// The more constraining of two visibilities (gABI "Symbol Table", st_other).
fn stricter(one: u32, other: u32) -> u32
    ensures { result ≡ stricter one other }
{
    if one == STV_DEFAULT as u32 {
        return other;
    }
    if other == STV_DEFAULT as u32 {
        return one;
    }
    one.min(other)
}

/// A visibility with one more symbol, which is one of an object or not.
fn visibility_with(visibility: u32, is_more: bool, symbol: &Contribution) -> u32
    ensures { result ≡ visibility_with visibility is_more symbol.now }
{
    if is_more {
        return stricter(visibility, symbol.global.visibility);
    }
    visibility
}
