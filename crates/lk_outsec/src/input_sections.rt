//! The output section of an input section (gABI "Sections", sh_type and sh_flags; the names are this
//! project's own rule).

ghost use Rattle.std.specs.Prelude.{◌≡◌, ◌<◌, IfOk};
ghost use Rattle.lk_model.specs.Amounts.{has_flag};
ghost use Rattle.lk_model.specs.Pieces.{class_of, is_piece, is_reading_type, key_of};
ghost use Rattle.lk_outsec.specs.PieceTypes.{may_be_piece};

use crate::kinds::is_name;
use crate::output_names::output_name;
use lk_elf::numbers::{
    SHF_ALLOC, SHF_EXECINSTR, SHF_TLS, SHF_WRITE, SHT_GROUP, SHT_NOBITS, SHT_NULL, SHT_PROGBITS,
    SHT_RELA, SHT_STRTAB, SHT_SYMTAB,
};
use lk_model::layouts::{Class, SectionKey};
use lk_report::{Name, NoMemory};
use std::alloc::Global;

/// Whether a flag, a power of two, is set in the flags of a section (gABI "Sections", sh_flags).
pub fn has_flag(sh_flags: u64, flag: u64) -> bool
    requires { 0 < flag }
    ensures { result ≡ has_flag sh_flags flag }
{
    (sh_flags / flag) % 2 == 1
}

/// The class of an input section, by its type and its flags (gABI "Sections").
#[tactic(auto, unfolding(lk_model::specs::Pieces::class_of))]
fn class_of(sh_type: u32, sh_flags: u64) -> Class
    ensures { result ≡ class_of sh_type sh_flags }
{
    if !has_flag(sh_flags, SHF_ALLOC) {
        Class::N
    } else if has_flag(sh_flags, SHF_TLS) {
        if sh_type == SHT_NOBITS {
            Class::Tbss
        } else {
            Class::Tdata
        }
    } else if sh_type == SHT_NOBITS {
        Class::Bss
    } else if has_flag(sh_flags, SHF_EXECINSTR) {
        if has_flag(sh_flags, SHF_WRITE) {
            Class::WX
        } else {
            Class::X
        }
    } else if has_flag(sh_flags, SHF_WRITE) {
        Class::W
    } else {
        Class::R
    }
}

/// Whether sections of this type are read and never linked (gABI "Sections", sh_type).
fn is_reading_type(sh_type: u32) -> bool
    ensures { result ≡ is_reading_type sh_type }
{
    sh_type == SHT_NULL
        || sh_type == SHT_SYMTAB
        || sh_type == SHT_STRTAB
        || sh_type == SHT_RELA
        || sh_type == SHT_GROUP
}

/// Whether a section can be a piece at all, by its type and flags (gABI "Sections", sh_type and sh_flags).
/// Where it cannot, no name makes it one, so that none has to be read: by the law `no_key` of
/// proofs/PieceTypes it has no output section then.
pub fn may_be_piece(sh_type: u32, sh_flags: u64) -> bool
    ensures { result ≡ may_be_piece sh_type sh_flags }
{
    if is_reading_type(sh_type) {
        return false;
    }
    has_flag(sh_flags, SHF_ALLOC) || sh_type == SHT_PROGBITS
}

/// Whether an input section of this name, type and flags is a piece, that is, has an output section (gABI
/// "Sections", sh_type and sh_flags).
#[tactic(auto, unfolding(lk_model::specs::Pieces::is_piece))]
pub fn is_piece(name: &[u8], sh_type: u32, sh_flags: u64) -> bool
    ensures { result ≡ is_piece name.now sh_type sh_flags }
{
    if is_reading_type(sh_type) {
        return false;
    }
    if has_flag(sh_flags, SHF_ALLOC) {
        !is_name(name, b".note.gnu.property")
    } else {
        sh_type == SHT_PROGBITS && !is_name(name, b".note.GNU-stack")
    }
}

/// The output section that an input section goes to, by its name, its type (`sh_type`, here `code`) and its
/// flags (`sh_flags`) (gABI "Sections"). There is none exactly where the section is not linked: where it is
/// only read, where it is not loaded and is not SHT_PROGBITS, and where it is `.note.gnu.property` or
/// `.note.GNU-stack`. No name is copied.
///
/// # Errors
/// Out of memory.
#[tactic(auto, unfolding(lk_model::specs::Pieces::key_of))]
pub fn key_for(
    alloc: Global,
    name: &Name,
    code: u32,
    flags: u64,
) -> Result<Option<SectionKey>, NoMemory>
    ensures { IfOk result (λ key. key ≡ key_of name.now code flags) }
{
    if !is_piece(name.as_slice(), code, flags) {
        return Ok(None);
    }
    let class = class_of(code, flags);
    let name = match output_name(class, name.as_slice()) {
        Some(fixed) => Name::from_static(fixed),
        None => name.copy(alloc)?,
    };
    Ok(Some(SectionKey { name, class }))
}
