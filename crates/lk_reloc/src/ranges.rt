//! Which values a field takes (psABI x86-64, "Relocation Types": the field, extended to 64 bits, is the
//! value).

ghost use Rattle.std.specs.Prelude.{◌≡◌, ◌<◌, ◌≤◌};
ghost use Rattle.lk_model.specs.Values.{fits_by, fits_by_sign, fits_by_zeros};
ghost use Rattle.lk_reloc.specs.Rules.{test_in_model, IsNarrow};

use crate::rules::{RangeTest, Rule};

/// Whether a field of so many bytes, extended by zeros, is the value.
fn fits_by_zeros(width: usize, value: u64) -> bool
    requires { width ≤ 4 }
    ensures { result ≡ fits_by_zeros width value }
{
    value < 1u64 << (8 * width)
}

/// Whether a field of so many bytes, extended by its sign, is the value.
fn fits_by_sign(width: usize, value: u64) -> bool
    requires some { 0 < width }
    requires narrow { width ≤ 4 }
    ensures { result ≡ fits_by_sign width value }
{
    let half = 1u64 << (8 * width - 1);
    value < half || half.wrapping_neg() <= value
}

/// Whether the field of a rule takes the value.
pub(crate) fn fits(rule: Rule, value: u64) -> bool
    requires { IsNarrow rule.test rule.width }
    ensures { result ≡ fits_by (test_in_model rule.test) rule.width value }
{
    match rule.test {
        RangeTest::Any => true,
        RangeTest::BySign => fits_by_sign(rule.width, value),
        RangeTest::ByZeros => fits_by_zeros(rule.width, value),
        RangeTest::Either => fits_by_zeros(rule.width, value) || fits_by_sign(rule.width, value),
    }
}
