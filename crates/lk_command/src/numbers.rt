//! Numbers that words spell, of one to four decimal digits.

ghost use Rattle.std.specs.Prelude.{◌≡◌, ◌≤◌, length, IsTrue, ◌&&◌, nat_le};
ghost use Rattle.std.specs.List.{list_all};
ghost use Rattle.lk_model.specs.Grammar.{is_digits as is_digits_model, is_number_in, number_in as number_model};
ghost use Rattle.lk_command.specs.Values.{number_read};

/// Whether a text is 1 to 4 decimal digits.
fn is_digits(text: &[u8]) -> bool
    ensures digits { result ≡ is_digits_model text.now }
    ensures few { IsTrue result → length text.now ≤ 4 }
{
    if text.is_empty() || text.len() > 4 {
        return false;
    }
    are_digits(text)
}

/// Whether all bytes are decimal digits.
fn are_digits(text: &[u8]) -> bool
    ensures { result ≡ list_all (λ b. nat_le 48 b && nat_le b 57) text.now }
{
    text.iter().all(|byte| b'0' <= *byte && *byte <= b'9')
}

/// The number that at most 4 digits spell.
fn number_in(text: &[u8]) -> u32
    requires { length text.now ≤ 4 }
    ensures { result ≡ number_model text.now }
{
    let mut number = 0;
    for byte in text {
        number = number * 10 + u32::from(byte.saturating_sub(48));
    }
    number
}

/// The number that 1 to 4 decimal digits spell; `None` for any other text.
pub(crate) fn decimal(text: &[u8]) -> Option<u32>
    ensures { result ≡ number_read text.now }
{
    if is_digits(text) {
        Some(number_in(text))
    } else {
        None
    }
}

/// Whether a text is a number of 1 to 4 digits in a range.
pub(crate) fn is_number(low: u32, high: u32, text: &[u8]) -> bool
    ensures { result ≡ is_number_in low high text.now }
{
    match decimal(text) {
        Some(number) => low <= number && number <= high,
        None => false,
    }
}
