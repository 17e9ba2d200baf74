// The one refusal of this crate: a record of which bytes are missing.

ghost use Rattle.std.specs.Prelude.{◌≡◌, ◌+◌, ◌≤◌, ◌<◌, length, MatchResult};

/// Fewer bytes are left than a record needs.
#[derive(Clone, Copy, PartialEq, Eq, Debug)]
pub struct Short {
    /// Where the record was looked for, in bytes from the start.
    pub at: usize,
    /// How many bytes the record needs.
    pub need: usize,
}

/// Whether `need` bytes are at `at`.
pub(crate) fn find_room(bytes: &[u8], at: usize, need: usize) -> Result<(), Short>
    ensures { MatchResult result
        (λ _. at + need ≤ length bytes.now)
        (λ short. (length bytes.now < at + need) × (short ≡ record { at = at; need = need })) }
{
    if bytes.len() < need || bytes.len() - need < at {
        return Err(Short { at, need });
    }
    Ok(())
}
