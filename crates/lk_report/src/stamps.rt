//! What a look-up returns of a file beside its bytes.

/// A file's stamp. Two equal stamps are taken as a sign of equal bytes, which is a premise of an
/// update and nothing that the linker can know.
#[derive(Clone, Copy, PartialEq, Eq, Debug)]
pub struct Stamp {
    /// The length in bytes.
    pub length: u64,
    /// The time of the last change, in nanoseconds since 1970-01-01 UTC, negative before.
    pub modified: i64,
}
