//! What is known of the placement of a link made anew, as the contract of a function that does nothing.

ghost use Rattle.lk_law_placement.specs.LawfulPlaces.{CommandIsLawful, InputsAreLawful, SoundIsLawful};

/// Where a link made anew puts everything is a placement that a link may have: of a command and its files
/// in which no input has a fault; of any inputs that hold what was read of files without a fault; and of
/// whatever resolution finds, where the kept pieces are sound and no slot and no entry is needed twice.
pub fn full_placement_is_lawful()
    ensures pieces { SoundIsLawful }
    ensures inputs { InputsAreLawful }
    ensures command { CommandIsLawful }
{}
