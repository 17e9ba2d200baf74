//! Texts of a string table (gABI "String Table"): slices of it, which nothing copies.

ghost use Rattle.std.specs.Prelude.{◌≡◌, ◌==◌, drop, position, take};
ghost use Rattle.std.specs.Option.{option_copied};
ghost use Rattle.lk_model.specs.Elf.{text_in};
ghost use Rattle.lk_model.specs.Loads.{text_of_table};

/// What is from `at` on; nothing past the end.
pub(crate) fn rest_from(bytes: &[u8], at: usize) -> &[u8]
    ensures { result.now ≡ drop at bytes.now }
{
    if at < bytes.len() { &bytes[at..] } else { &[] }
}

/// At most the first `size` bytes.
pub(crate) fn front_of(bytes: &[u8], size: usize) -> &[u8]
    ensures { result.now ≡ take size bytes.now }
{
    if size < bytes.len() {
        &bytes[..size]
    } else {
        bytes
    }
}

fn zero_in(bytes: &[u8]) -> Option<usize>
    ensures { result ≡ position (λ b. b == 0) bytes.now }
{
    bytes.iter().position(|b| *b == 0)
}

/// A text up to its closing zero; none where no zero follows.
#[tactic(auto, using(lk_model::proofs::ClosedTexts::text_none, lk_model::proofs::ClosedTexts::text_some))]
fn text_in(bytes: &[u8]) -> Option<&[u8]>
    ensures { option_copied result ≡ text_in bytes.now }
{
    match zero_in(bytes) {
        None => None,
        Some(end) => Some(front_of(bytes, end)),
    }
}

/// The text at an offset of a string table; none where its closing zero is not in the table.
pub(crate) fn text_at(strings: &[u8], offset: u64) -> Option<&[u8]>
    ensures { option_copied result ≡ text_of_table strings.now offset }
{
    text_in(rest_from(strings, offset as usize))
}
