//! Keys of output sections that are looked up by hash, without a copy of their names.

ghost use Rattle.std.specs.Cmp.{partial_equiv_from_equiv};
ghost use Rattle.std.specs.Cmp.Rules.{hashing};
ghost use Rattle.std.specs.Hash as fed;
ghost use Rattle.std.proofs.Common.{rules};
ghost use Rattle.lk_model.specs.SectionKeys.{same_key};
ghost use Rattle.lk_layout.specs.Equal.{same_key_equiv};

use crate::key_kinds::same_key;
use lk_model::layouts::SectionKey;
use std::hash::{Hash, Hasher};
use std::marker::Model;

/// A key that is elsewhere. Contracts see it as that key.
#[derive(Drop)]
pub(crate) struct KeyRef<'k> {
    pub(crate) key: &'k SectionKey,
}

impl<'k> Model for KeyRef<'k> {
    ghost use Rattle.lk_model.specs.declared.layouts.SectionKey.{SectionKey};

    ghost Value = { SectionKey };

    ghost view = { λ k. k.key.now };
}

impl<'k> PartialEq for KeyRef<'k> {
    ghost eq = { same_key };

    ghost laws = { partial_equiv_from_equiv same_key_equiv };

    fn eq(&self, other: &Self) -> bool {
        same_key(self.key, other.key)
    }
}

impl<'k> Eq for KeyRef<'k> {
    ghost laws = { same_key_equiv };
}

impl<'k> Hash for KeyRef<'k> {
    ghost hash_input = { λ k. fed.slice fed.u8 k.name };

    ghost respects_eq = { Prim.search (hashing, rules) };

    fn hash<H: Hasher>(&self, state: &mut H) {
        self.key.name.as_slice().hash(state);
    }
}
