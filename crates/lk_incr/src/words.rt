//! Records as words of eight bytes (this project's own): a number of eight bytes is a word, and two of four
//! bytes are one. A text is in a record by its offset in the string table, a number of four
//! bytes. A record is put at the end as a whole, with one test for room.

ghost use Rattle.std.specs.Prelude.{◌≡◌, ◌++◌, OnOk};
ghost use Rattle.std.specs.List.{flat_map};
ghost use Rattle.lk_elf.specs.Fields.{bytes_of};

use crate::appending::{all_bytes, put_bytes};
use lk_report::NoMemory;

/// Eight bytes of a record.
pub(crate) type Word = [u8; 8];

/// The word of a number of eight bytes.
pub(crate) fn long(n: u64) -> Word
    ensures { result ≡ bytes_of 8 n }
{
    all_bytes(n)
}

/// The word of two numbers of four bytes; of a greater number the low bytes are taken.
#[tactic(auto, unfolding(lk_elf::specs::Fields::bytes_of))]
pub(crate) fn pair(first: u64, second: u64) -> Word
    ensures { result ≡ bytes_of 4 first ++ bytes_of 4 second }
{
    let [a, b, c, d, ..] = all_bytes(first);
    let [e, f, g, h, ..] = all_bytes(second);
    [a, b, c, d, e, f, g, h]
}

/// Puts words at the end, one after another.
pub(crate) fn put_words(out: &mut Vec<u8>, words: &[Word]) -> Result<(), NoMemory>
    ensures { OnOk result (out.new.items ≡ out.old.items ++ flat_map (λ word. word) words.now) }
{
    put_bytes(out, words.as_flattened())
}
