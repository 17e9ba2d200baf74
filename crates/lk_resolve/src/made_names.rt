//! The names that the linker makes: once all inputs are added, each name that it has to make, and that an
//! object refers to, is marked in the table.

ghost use Rattle.std.specs.Prelude.{◌≡◌, ◌||◌, ◌<◌, bytes_eq, cond, drop, length, map, IfOk, OnOk};
ghost use Rattle.std.specs.List.{list_any, list_all};
ghost use Rattle.lk_model.specs.MadeNames.{always_made, is_letter, is_digit, is_c_identifier};
ghost use Rattle.lk_model.specs.Numbered.{is_text_in};
ghost use Rattle.lk_resolve.specs.MadeRows.{array_names, end_names, is_bound_in, is_made_name_in, rows_made, table_names, with_making};
ghost use Rattle.lk_symtab.specs.NameRows.{with_row};

use indexmap::IndexSet;
use lk_report::{Name, NoMemory};
use lk_symtab::SymTab;
use std::alloc::Global;

fn is_letter(b: u8) -> bool
    ensures { result ≡ is_letter b }
{
    (65 <= b && b <= 90) || ((97 <= b && b <= 122) || b == 95)
}

fn is_identifier_byte(b: u8) -> bool
    ensures { result ≡ (is_letter b || is_digit b) }
{
    is_letter(b) || (48 <= b && b <= 57)
}

fn are_identifier_bytes(bytes: &[u8]) -> bool
    ensures { result ≡ list_all (λ d. is_letter d || is_digit d) bytes.now }
{
    bytes.iter().all(|b| is_identifier_byte(*b))
}

/// Whether a text is an identifier of C.
fn is_c_identifier(name: &[u8]) -> bool
    ensures { result ≡ is_c_identifier name.now }
{
    match name.split_first() {
        None => false,
        Some((first, rest)) => is_letter(*first) && are_identifier_bytes(rest),
    }
}

/// Whether two names are equal.
fn is_name(made: &[u8], name: &[u8]) -> bool
    ensures { result ≡ bytes_eq made.now name.now }
{
    made == name
}

fn is_table_name(name: &[u8]) -> bool
    ensures { result ≡ is_text_in table_names name.now }
{
    is_name(b"_GLOBAL_OFFSET_TABLE_", name)
        || is_name(b"__ehdr_start", name)
        || is_name(b"__executable_start", name)
}

fn is_array_name(name: &[u8]) -> bool
    ensures { result ≡ is_text_in array_names name.now }
{
    is_name(b"__preinit_array_start", name)
        || is_name(b"__preinit_array_end", name)
        || is_name(b"__init_array_start", name)
        || is_name(b"__init_array_end", name)
        || is_name(b"__fini_array_start", name)
        || is_name(b"__fini_array_end", name)
}

fn is_end_name(name: &[u8]) -> bool
    ensures { result ≡ is_text_in end_names name.now }
{
    is_name(b"etext", name)
        || is_name(b"_etext", name)
        || is_name(b"__etext", name)
        || is_name(b"edata", name)
        || is_name(b"_edata", name)
        || is_name(b"__bss_start", name)
        || is_name(b"end", name)
        || is_name(b"_end", name)
}

/// Whether every link makes a name.
#[tactic(auto, using(crate::proofs::RowsMade::made_parts))]
fn is_always_made(name: &[u8]) -> bool
    ensures { result ≡ is_text_in always_made name.now }
{
    is_table_name(name) || is_array_name(name) || is_end_name(name)
}

/// What follows so many bytes.
fn rest_from(bytes: &[u8], at: usize) -> &[u8]
    ensures { result.now ≡ drop at bytes.now }
{
    if at < bytes.len() { &bytes[at..] } else { &[] }
}

/// Whether a section is one of these.
fn is_section(alloc: Global, sections: &IndexSet<Name>, name: &[u8]) -> Result<bool, NoMemory>
    ensures { IfOk result (λ found. found ≡ list_any (bytes_eq name.now) sections.now.keys) }
{
    let name = Name::from_slice(alloc, name)?;
    Ok(sections.contains(&name))
}

/// Whether a name is a prefix and then a C identifier that is one of these sections. Memory is wanted for
/// such names alone.
fn is_bound(
    alloc: Global,
    prefix: &[u8],
    sections: &IndexSet<Name>,
    name: &[u8],
) -> Result<bool, NoMemory>
    ensures { IfOk result (λ bound. bound ≡ is_bound_in prefix.now sections.now.keys name.now) }
{
    if !name.starts_with(prefix) {
        return Ok(false);
    }
    let rest = rest_from(name, prefix.len());
    if !is_c_identifier(rest) {
        return Ok(false);
    }
    is_section(alloc, sections, rest)
}

/// Whether the linker has a name to make.
fn is_made_name(
    alloc: Global,
    is_dynamic: bool,
    sections: &IndexSet<Name>,
    name: &[u8],
) -> Result<bool, NoMemory>
    ensures { IfOk result (λ made. made ≡ is_made_name_in is_dynamic sections.now.keys name.now) }
{
    if is_always_made(name) {
        return Ok(true);
    }
    if is_dynamic && is_name(name, b"_DYNAMIC") {
        return Ok(true);
    }
    if is_bound(alloc, b"__start_", sections, name)? {
        return Ok(true);
    }
    is_bound(alloc, b"__stop_", sections, name)
}

/// Makes the name with a number where the linker has it to make and an object refers to it.
#[tactic(auto, using(crate::proofs::RowsMade::not_referred, crate::proofs::RowsMade::not_made, crate::proofs::RowsMade::made_at))]
fn make_name(
    alloc: Global,
    names: &mut SymTab,
    number: u32,
    is_dynamic: bool,
    sections: &IndexSet<Name>,
) -> Result<(), NoMemory>
    requires { number < length names.old }
    ensures { OnOk result (names.new ≡ with_row (with_making is_dynamic sections.now.keys) names.old number) }
{
    if !names.is_referred(number) {
        return Ok(());
    }
    let name = names.at(number).name.as_slice();
    if is_made_name(alloc, is_dynamic, sections, name)? {
        names.make(number);
    }
    Ok(())
}

/// Makes each name that the linker has to make, where loaded output sections of these names have kept
/// sections.
#[tactic(auto, using(crate::proofs::RowsMade::made_next, crate::proofs::RowsMade::made_all, crate::proofs::RowsMade::made_length))]
pub fn make_names(
    alloc: Global,
    names: &mut SymTab,
    is_dynamic: bool,
    sections: &IndexSet<Name>,
) -> Result<(), NoMemory>
    ensures { OnOk result (names.new ≡ rows_made is_dynamic sections.now.keys names.old) }
{
    for number in 0..names.len() {
        make_name(alloc, names, number, is_dynamic, sections)?;
    }
    Ok(())
}
