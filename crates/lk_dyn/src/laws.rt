//! What the tables are for, as contracts of functions that do nothing.

ghost use Rattle.lk_dyn.specs.CallLaws.{JumpsBySlot, SlotPointsBack};
ghost use Rattle.lk_dyn.specs.HashLookUps.{FindsEachName, WordsAreATable};
ghost use Rattle.lk_dyn.specs.RelocationLaws.{FillsCopies, FillsEachImport, FillsJumpSlots, FillsNoMore, FillsSlots};

/// In `.hash` the look-up of the gABI ("Hash Table") finds each dynamic name, and no name that is not one.
pub fn look_ups_find_each_name()
    ensures table { WordsAreATable }
    ensures found { FindsEachName }
{}

/// Each entry of `.plt` jumps by its slot, and its slot in `.got.plt` leads back to the entry's second
/// instruction until the dynamic linker fills it (psABI x86-64 "Procedure Linkage Table").
pub fn entries_jump_by_their_slots()
    ensures jump { JumpsBySlot }
    ensures back { SlotPointsBack }
{}

/// Each relocation that the dynamic linker does fills a slot or a copy by the name that this is of (gABI "Relocation";
/// psABI x86-64 "Relocation Types"): the slot of an entry of `.plt`, a slot of `.got`, the copy of an import. The tables
/// have no other relocation, and none of these is left out.
pub fn relocations_name_what_they_fill()
    ensures jump_slots { FillsJumpSlots }
    ensures slots { FillsSlots }
    ensures each_import { FillsEachImport }
    ensures copies { FillsCopies }
    ensures no_more { FillsNoMore }
{}
