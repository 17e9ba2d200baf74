//! The hash of a name (gABI "Hash Table").

ghost use Rattle.std.specs.Prelude.{◌≡◌};
ghost use Rattle.lk_model.specs.HashTable.{hash_step, sysv_hash};
ghost use Rattle.lk_dyn.specs.HashWords.{shifted_by};

/// The hash after one more character: four bits are made free for it, and the four bits that leave the word
/// at its top go into bits 4 to 7.
fn hash_step(hash: u32, character: u8) -> u32
    ensures { result ≡ hash_step hash character }
{
    let shifted = shifted_by(hash, character);
    (shifted % 0x1000_0000) ^ (shifted / 0x1000_0000 * 16)
}

/// A hash with four bits made free at its bottom for a character.
fn shifted_by(hash: u32, character: u8) -> u32
    ensures { result ≡ shifted_by hash character }
{
    ((u64::from(hash) * 16 + u64::from(character)) % 0x1_0000_0000) as u32
}

/// The hash of a name by which it is found in `.hash` (gABI "Hash Table").
#[tactic(auto, unfolding(lk_model::specs::HashTable::sysv_hash))]
pub fn sysv_hash(name: &[u8]) -> u32
    ensures { result ≡ sysv_hash name.now }
{
    let mut hash = 0;
    for character in name {
        hash = hash_step(hash, *character);
    }
    hash
}
