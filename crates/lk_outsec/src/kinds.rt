//! What the name and the class of an output section say of it (this project's own rules).

ghost use Rattle.std.specs.Prelude.{◌≡◌, bytes_eq};
ghost use Rattle.lk_model.specs.SectionKeys.{fill_kind, is_patched, named};

use lk_model::layouts::{Class, FillKind, SectionKey};

/// Whether a name is this one.
pub(crate) fn is_name(name: &[u8], other: &[u8]) -> bool
    ensures { result ≡ bytes_eq name.now other.now }
{
    name == other
}

/// Whether pieces are anywhere in the section of a class and a name.
#[tactic(auto, unfolding(lk_model::specs::SectionKeys::is_patched))]
fn is_patched_by(class: Class, name: &[u8]) -> bool
    ensures { result ≡ is_patched (named name.now class) }
{
    match class {
        Class::R => {
            is_name(name, b".rodata")
                || is_name(name, b".gcc_except_table")
                || is_name(name, b".eh_frame")
        }
        Class::X => is_name(name, b".text"),
        Class::W => is_name(name, b".data"),
        Class::WX => false,
        Class::Tdata => is_name(name, b".tdata"),
        Class::Tbss => is_name(name, b".tbss"),
        Class::Bss => is_name(name, b".bss"),
        Class::N => true,
    }
}

/// Whether pieces are anywhere in the section, with room to grow, so that an update can patch it; any
/// other section is the sequence of its pieces, or a table.
pub fn is_patched(key: &SectionKey) -> bool
    ensures { result ≡ is_patched key.now }
{
    is_patched_by(key.class, key.name.as_slice())
}

/// What fills the holes of the section of a class and a name.
#[tactic(auto, unfolding(lk_model::specs::SectionKeys::fill_kind))]
fn fill_by(class: Class, name: &[u8]) -> FillKind
    ensures { result ≡ fill_kind (named name.now class) }
{
    match class {
        Class::X | Class::WX => FillKind::Trap,
        Class::R if is_name(name, b".eh_frame") => FillKind::Frame,
        Class::N if is_name(name, b".debug_info") => FillKind::Unit,
        Class::R | Class::N | Class::W | Class::Tdata | Class::Tbss | Class::Bss => FillKind::Zero,
    }
}

/// What fills the holes of the section: trapping instructions where it may be executed, empty entries in
/// the frame table and among the debug units, and zeros in every other.
pub fn fill_kind(key: &SectionKey) -> FillKind
    ensures { result ≡ fill_kind key.now }
{
    fill_by(key.class, key.name.as_slice())
}
