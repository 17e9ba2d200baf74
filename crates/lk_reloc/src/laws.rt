//! The range tests are those of the psABI: a law, as the contract of a function that does nothing.

ghost use Rattle.lk_reloc.specs.FieldLaws.{SignGivesBack, WholeGivesBack, ZerosGiveBack};

/// A value fits a field exactly where the field, read and extended, is the value (psABI x86-64, "Relocation
/// Types"): extended by zeros where zeros extend it, by its sign where its sign does; and a field of eight
/// bytes, read, is the value.
pub fn fields_give_their_values_back()
    ensures zeros { ZerosGiveBack }
    ensures sign { SignGivesBack }
    ensures whole { WholeGivesBack }
{}
