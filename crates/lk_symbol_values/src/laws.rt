//! The values of relocations by the low 64 bits of their numbers, as contracts of functions that do nothing.

ghost use Rattle.lk_symbol_values.specs.ValueLaws.{LowNumbersServe, PlacesAreExact, PlacesAreReported, ReferencesAreServed};

/// A relocation has the same value by the low 64 bits of its numbers, and so has every reference at any placement
/// (psABI x86-64 "Relocation Types": values are taken modulo 2^64).
pub fn low_numbers_serve()
    ensures relocations { LowNumbersServe }
    ensures references { ReferencesAreServed }
{}

/// The address of an offset in a section is one that a field holds. At a lawful placement within the limits it is the
/// piece's address and the offset, for offsets up to the piece's size.
pub fn places_are_exact()
    ensures reported { PlacesAreReported }
    ensures exact { PlacesAreExact }
{}
