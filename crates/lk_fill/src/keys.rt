//! What the name and the class of an output section say of the fill of its room (this project's own rules).

ghost use Rattle.std.specs.Prelude.{◌≡◌, bytes_eq};
ghost use Rattle.lk_model.specs.Holes.{gap_byte, past_byte};
ghost use Rattle.lk_model.specs.SectionKeys.{is_table, named, reserved_of};

use lk_model::classes::is_executable;
use lk_model::layouts::{Class, SectionKey};

/// Whether a name is this one.
fn is_name(name: &[u8], other: &[u8]) -> bool
    ensures { result ≡ bytes_eq name.now other.now }
{
    name == other
}

/// Whether the read only section of a name is a table.
fn is_read_only_table(name: &[u8]) -> bool
    ensures { result ≡ is_table (named name.now Class.R) }
{
    is_name(name, b".interp")
        || is_name(name, b".hash")
        || is_name(name, b".dynsym")
        || is_name(name, b".dynstr")
        || is_name(name, b".rela.dyn")
        || is_name(name, b".rela.plt")
}

/// Whether the section of a class and a name is a table.
fn is_table_by(class: Class, name: &[u8]) -> bool
    ensures { result ≡ is_table (named name.now class) }
{
    match class {
        Class::R => is_read_only_table(name),
        Class::X => is_name(name, b".plt"),
        Class::W => {
            is_name(name, b".got") || is_name(name, b".got.plt") || is_name(name, b".dynamic")
        }
        Class::WX | Class::Tdata | Class::Tbss | Class::Bss | Class::N => false,
    }
}

/// Whether the section is a table that the link makes.
pub(crate) fn is_table(key: &SectionKey) -> bool
    ensures { result ≡ is_table key.now }
{
    is_table_by(key.class, key.name.as_slice())
}

/// How many bytes of the section of a class and a name are kept free of pieces.
fn reserved_by(class: Class, name: &[u8]) -> u64
    ensures { result ≡ reserved_of (named name.now class) }
{
    match class {
        Class::R if is_name(name, b".eh_frame") => 4,
        _ => 0,
    }
}

/// How many bytes at the end of the section's room are kept free of pieces: the four zeros that end the
/// frame table.
pub(crate) fn reserved_of(key: &SectionKey) -> u64
    ensures { result ≡ reserved_of key.now }
{
    reserved_by(key.class, key.name.as_slice())
}

/// The byte in the gaps between the pieces of a sequence: in code the instruction that does nothing.
pub(crate) fn gap_byte(key: &SectionKey) -> u8
    ensures { result ≡ gap_byte key.now }
{
    if is_executable(key.class) { 0x90 } else { 0 }
}

/// The byte past the end of a table or a sequence: in code the trap.
pub(crate) fn past_byte(key: &SectionKey) -> u8
    ensures { result ≡ past_byte key.now }
{
    if is_executable(key.class) { 0xcc } else { 0 }
}
