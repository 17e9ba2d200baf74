//! The laws that tie the definitions together, as contracts of functions that do nothing: what is
//! stated in specs/ alone could stay unproved.

ghost use Rattle.lk_model.specs.StretchLaws.{LaidOutIsAt, PatchKeeps};

/// Stretches that rise, laid one after another with zeros between them, are at their places; every
/// other byte is 0, and the file ends with the last one.
pub fn laid_out_is_at()
    ensures { LaidOutIsAt }
{}

/// A patch of the bytes of one stretch keeps every stretch that is apart from it.
pub fn patch_keeps()
    ensures { PatchKeeps }
{}
