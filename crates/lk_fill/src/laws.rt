//! What lawful placements have to do with the fill, as the contract of a function that does nothing.

ghost use Rattle.lk_fill.specs.Filled.{LawfulCanBeFilled};

/// The holes of a lawful placement can be filled in every file of less than 4 GiB that holds its rooms.
pub fn lawful_placements_can_be_filled()
    ensures { LawfulCanBeFilled }
{}
