//! The value of a relocation (psABI x86-64, "Relocation Types"), modulo 2^64.

ghost use Rattle.std.specs.Prelude.{◌≡◌};
ghost use Rattle.lk_elf.specs.Fields.{unsigned64};
ghost use Rattle.lk_model.specs.Amounts.{minus, plus};
ghost use Rattle.lk_model.specs.Values.{value_by, value_of};
ghost use Rattle.lk_reloc.specs.Rules.{formula_in_model};

use crate::rules::{Formula, rule_of};
use lk_model::layouts::Numbers;

/// A number and an addend.
#[tactic(auto, using(crate::proofs::Addends::cast_addend))]
fn sum(base: u64, addend: i64) -> u64
    ensures { result ≡ plus base (unsigned64 addend) }
{
    base.wrapping_add(addend.cast_unsigned())
}

/// A number and an addend, less another number.
fn distance(base: u64, addend: i64, from: u64) -> u64
    ensures { result ≡ minus (plus base (unsigned64 addend)) from }
{
    sum(base, addend).wrapping_sub(from)
}

/// The value that a formula makes of the numbers.
fn value_by(formula: Formula, n: Numbers) -> u64
    ensures { result ≡ value_by (formula_in_model formula) n }
{
    match formula {
        Formula::NoValue => 0,
        Formula::Absolute => sum(n.s, n.a),
        Formula::Relative => distance(n.s, n.a, n.p),
        Formula::PltRelative => distance(n.l, n.a, n.p),
        Formula::SlotRelative | Formula::ThreadSlotRelative => distance(n.slot, n.a, n.p),
        Formula::GotOffset => distance(n.s, n.a, n.got),
        Formula::GotRelative => distance(n.got, n.a, n.p),
        Formula::SymbolSize => sum(n.z, n.a),
        Formula::DtpOffset => distance(n.s, n.a, n.tls_start),
        Formula::TpOffset => distance(n.s, n.a, n.tls_end),
    }
}

/// The value of a relocation whose type (`r_type`) is `code`, modulo 2^64; 0 for `R_X86_64_NONE`, and for a
/// number that no type that is linked has (psABI x86-64, "Relocation Types").
pub fn value(code: u32, numbers: &Numbers) -> u64
    ensures { result ≡ value_of code numbers.now }
{
    value_by(rule_of(code).formula, *numbers)
}
