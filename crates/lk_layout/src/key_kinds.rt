//! What an output section's key says of the pieces in it (this project's own rules).

ghost use Rattle.std.specs.Prelude.{◌≡◌, bytes_eq};
ghost use Rattle.lk_model.specs.SectionKeys.{is_numbered_array, least_of, named, reserved_of, same_key};

use lk_model::classes::same_class;
use lk_model::layouts::{Class, SectionKey};

/// Whether a name is this one.
fn is_name(name: &[u8], other: &[u8]) -> bool
    ensures { result ≡ bytes_eq name.now other.now }
{
    name == other
}

/// Whether two keys are one.
pub(crate) fn same_key(a: &SectionKey, b: &SectionKey) -> bool
    ensures { result ≡ same_key a.now b.now }
{
    same_class(a.class, b.class) && is_name(a.name.as_slice(), b.name.as_slice())
}

/// Whether a key has this name and this class.
fn is_key(key: &SectionKey, name: &[u8], class: Class) -> bool
    ensures { result ≡ same_key key.now (named name.now class) }
{
    same_class(key.class, class) && is_name(key.name.as_slice(), name)
}

/// The length of the shortest hole that can be filled, in bytes.
pub(crate) fn least_of(key: &SectionKey) -> u64
    ensures { result ≡ least_of key.now }
{
    if is_key(key, b".eh_frame", Class::R) {
        16
    } else if is_key(key, b".debug_info", Class::N) {
        11
    } else {
        1
    }
}

/// The bytes at the end of the room that no piece covers.
pub(crate) fn reserved_of(key: &SectionKey) -> u64
    ensures { result ≡ reserved_of key.now }
{
    if is_key(key, b".eh_frame", Class::R) {
        4
    } else {
        0
    }
}

/// Whether the section is an array of functions that pieces with a number come first in.
pub(crate) fn is_numbered_array(key: &SectionKey) -> bool
    ensures { result ≡ is_numbered_array key.now }
{
    is_key(key, b".init_array", Class::W) || is_key(key, b".fini_array", Class::W)
}
