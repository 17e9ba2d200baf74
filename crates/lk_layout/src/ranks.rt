//! The numbers of the pieces of an array of functions: `.init_array.100` is the hundredth of them (this
//! project's own rule). A number has one to five decimal digits; pieces without one come after all others.

ghost use Rattle.std.specs.Prelude.{◌≡◌, ◌≤◌, ◌++◌, codes, drop, length, map, nat_eq, IfOk};
ghost use Rattle.std.specs.List.{list_all, starts_with};
ghost use Rattle.lk_model.specs.Rooms.{decimal_of, is_digit, is_short_decimal};
ghost use Rattle.lk_layout.specs.Ranked.{rank_of_name, ranked_of};

use crate::kept::Kept;
use lk_report::NoMemory;
use std::alloc::Global;

/// What a piece asks for, with its number: the size and the alignment in bytes.
#[derive(Clone, Copy)]
pub(crate) struct Ranked {
    pub(crate) rank: u32,
    pub(crate) size: u64,
    pub(crate) align: u64,
}

/// The number of pieces without a number.
const LAST_RANK: u32 = 100_000;

fn is_digit(byte: u8) -> bool
    ensures { result ≡ is_digit byte }
{
    48 <= byte && byte <= 57
}

fn are_digits(digits: &[u8]) -> bool
    ensures { result ≡ list_all is_digit digits.now }
{
    digits.iter().all(|byte| is_digit(*byte))
}

/// One to five decimal digits.
fn is_short_decimal(digits: &[u8]) -> bool
    ensures { result ≡ is_short_decimal digits.now }
{
    1 <= digits.len() && digits.len() <= 5 && are_digits(digits)
}

/// The number that at most five digits spell.
fn decimal_of(digits: &[u8]) -> u32
    requires { length digits.now ≤ 5 }
    ensures { result ≡ decimal_of digits.now }
{
    let mut n = 0u32;
    for digit in digits {
        n = n * 10 + u32::from(digit.saturating_sub(48));
    }
    n
}

/// What is from `at` on; nothing past the end.
fn rest_from(bytes: &[u8], at: usize) -> &[u8]
    ensures { result.now ≡ drop at bytes.now }
{
    if at < bytes.len() { &bytes[at..] } else { &[] }
}

/// Whether a name is a section's, and goes on after it with a dot.
#[tactic(auto, using(crate::proofs::NumberedNames::dotted))]
fn is_dotted(name: &[u8], base: &[u8]) -> bool
    ensures { result ≡ starts_with nat_eq name.now (base.now ++ codes ".") }
{
    name.starts_with(base) && rest_from(name, base.len()).starts_with(b".")
}

/// The number of a piece of this name in an array of this name.
fn rank_of(name: &[u8], base: &[u8]) -> u32
    ensures { result ≡ rank_of_name name.now base.now }
{
    if !is_dotted(name, base) {
        return LAST_RANK;
    }
    let digits = rest_from(name, base.len() + 1);
    if !is_short_decimal(digits) {
        return LAST_RANK;
    }
    decimal_of(digits)
}

/// What a piece asks for, with its number.
fn rank_piece(piece: &Kept<'_>) -> Ranked
    ensures { result ≡ ranked_of piece.now }
{
    Ranked {
        rank: rank_of(piece.name().as_slice(), piece.key().name.as_slice()),
        size: piece.size(),
        align: piece.align(),
    }
}

/// What pieces ask for, in their order.
pub(crate) fn ranked_pieces(alloc: Global, pieces: &[Kept<'_>]) -> Result<Vec<Ranked>, NoMemory>
    ensures { IfOk result (λ rs. rs.items ≡ map ranked_of pieces.now) }
{
    let mut all = Vec::new(alloc);
    for piece in pieces {
        if all.push(rank_piece(piece)).is_err() {
            return Err(NoMemory);
        }
    }
    Ok(all)
}
