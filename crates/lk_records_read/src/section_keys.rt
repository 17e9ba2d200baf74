//! Keys of output sections, by name and class.

ghost use Rattle.std.specs.Prelude.{◌≡◌, bytes_eq};
ghost use Rattle.std.specs.Cmp.{partial_equiv_from_equiv};
ghost use Rattle.std.specs.Cmp.Rules.{hashing};
ghost use Rattle.std.specs.Hash as fed;
ghost use Rattle.std.proofs.Common.{rules};
ghost use Rattle.lk_model.specs.SectionKeys.{named, reserved_of, same_key};
ghost use Rattle.lk_records_read.specs.RowsNoted.{same_key_equiv};

use lk_model::classes::same_class;
use lk_model::layouts::{Class, SectionKey};
use std::hash::{Hash, Hasher};
use std::marker::Model;

/// Whether a name is this one.
fn is_name(name: &[u8], other: &[u8]) -> bool
    ensures { result ≡ bytes_eq name.now other.now }
{
    name == other
}

/// Whether two keys are one.
fn same_key(a: &SectionKey, b: &SectionKey) -> bool
    ensures { result ≡ same_key a.now b.now }
{
    same_class(a.class, b.class) && is_name(a.name.as_slice(), b.name.as_slice())
}

/// Whether a key has this name and this class.
pub(crate) fn is_key(key: &SectionKey, name: &[u8], class: Class) -> bool
    ensures { result ≡ same_key key.now (named name.now class) }
{
    same_class(key.class, class) && is_name(key.name.as_slice(), name)
}

/// The bytes at the end of the room that no piece covers.
pub(crate) fn reserved_of(key: &SectionKey) -> u64
    ensures { result ≡ reserved_of key.now }
{
    if is_key(key, b".eh_frame", Class::R) {
        4
    } else {
        0
    }
}

/// A key that is looked up by hash. Contracts see it as that key.
#[derive(Drop)]
pub(crate) struct KnownKey {
    pub(crate) key: SectionKey,
}

impl Model for KnownKey {
    ghost use Rattle.lk_model.specs.declared.layouts.SectionKey.{SectionKey};

    ghost Value = { SectionKey };

    ghost view = { λ k. k.key };
}

impl PartialEq for KnownKey {
    ghost eq = { same_key };

    ghost laws = { partial_equiv_from_equiv same_key_equiv };

    fn eq(&self, other: &Self) -> bool {
        same_key(&self.key, &other.key)
    }
}

impl Eq for KnownKey {
    ghost laws = { same_key_equiv };
}

impl Hash for KnownKey {
    ghost hash_input = { λ k. fed.slice fed.u8 k.name };

    ghost respects_eq = { Prim.search (hashing, rules) };

    fn hash<H: Hasher>(&self, state: &mut H) {
        self.key.name.as_slice().hash(state);
    }
}
