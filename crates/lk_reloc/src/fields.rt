//! The field of a relocation in the bytes of its section (gABI "Relocation", r_offset).

ghost use Rattle.std.specs.Prelude.{◌≡◌, ◌+◌, ◌≤◌, length, is_ok, IfErr, OnErr, OnOk};
ghost use Rattle.lk_elf.specs.Fields.{bytes_of};
ghost use Rattle.lk_model.specs.LinkedBytes.{patch};
ghost use Rattle.lk_model.specs.RelocationTypes.{width_of};
ghost use Rattle.lk_model.specs.Values.{fits};

use crate::ranges::fits;
use crate::rules::rule_of;

/// A value that the field of its relocation does not take (psABI x86-64, "Relocation Types").
#[derive(Clone, Copy, PartialEq, Eq, Debug)]
pub struct Overflow {
    /// The value, modulo 2^64.
    pub value: u64,
}

/// Writes bytes at an offset.
fn write_at(bytes: &mut [u8], at: usize, field: &[u8])
    requires { at + length field.now ≤ length bytes.old }
    ensures { bytes.new ≡ patch bytes.old at field.now }
{
    bytes[at..at + field.len()].copy_from_slice(field);
}

/// All bytes of a number, the lowest first (gABI "Data Representation").
fn all_bytes(value: u64) -> [u8; 8]
    ensures { result ≡ bytes_of 8 value }
{
    value.to_le_bytes()
}

/// Writes the low bytes of a value at an offset, the lowest first.
#[tactic(auto, using(crate::proofs::LowBytes::low_bytes))]
fn write_low_bytes(bytes: &mut [u8], at: usize, width: usize, value: u64)
    requires narrow { width ≤ 8 }
    requires lies { at + width ≤ length bytes.old }
    ensures { bytes.new ≡ patch bytes.old at (bytes_of width value) }
{
    write_at(bytes, at, &all_bytes(value)[..width]);
}

/// Writes the value of a relocation into its field (psABI x86-64, "Relocation Types"). The field begins at
/// offset `at` of the bytes and has the width of the type (`r_type`) that `code` is; the low bytes of the
/// value are written, the lowest first. `R_X86_64_NONE`, and a number that no type that is linked has, write
/// nothing.
///
/// # Errors
/// A value that the field does not take. Every byte is then as before.
pub fn apply(bytes: &mut [u8], at: usize, code: u32, value: u64) -> Result<(), Overflow>
    requires { at + width_of code ≤ length bytes.old }
    ensures fits { is_ok result ≡ fits code value }
    ensures written { OnOk result (bytes.new ≡ patch bytes.old at (bytes_of (width_of code) value)) }
    ensures reported { IfErr result (λ refused. refused.value ≡ value) }
    ensures unchanged { OnErr result (bytes.new ≡ bytes.old) }
{
    let rule = rule_of(code);
    if !fits(rule, value) {
        return Err(Overflow { value });
    }
    write_low_bytes(bytes, at, rule.width, value);
    Ok(())
}
