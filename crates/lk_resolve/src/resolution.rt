//! What the added inputs of a link decide.

ghost use Rattle.std.specs.Prelude.{◌≡◌, ◌<◌, [], get_or, length, slice_get, Some};
ghost use Rattle.std.specs.Option.{option_map};
ghost use Rattle.lk_resolve.specs.Settling.{is_place_kept};
ghost use Rattle.lk_symtab.specs.NameRows.{row_visibility};

use crate::section_places::SectionPlace;
use indexmap::IndexSet;
use lk_model::summaries::NumberList;
use lk_report::{Name, NameList};
use lk_symtab::SymTab;
use std::marker::Model;

/// The names of a link with their definitions, the added inputs and the kept sections. Contracts see it as what
/// is resolved.
#[derive(Drop)]
pub struct Resolution {
    pub(crate) paths: NameList,
    pub(crate) names: SymTab,
    pub(crate) added: NumberList,
    pub(crate) dynamic: bool,
    pub(crate) kept: IndexSet<SectionPlace>,
}

impl Model for Resolution {
    ghost use Rattle.std.specs.Prelude.{◌<◌, ◌^◌, length};
    ghost use Rattle.lk_resolve.specs.Settling.{ResolutionValue};

    ghost Value = { ResolutionValue };

    ghost view = { λ r. record { paths = r.paths; rows = r.names; added = r.added; dynamic = r.dynamic; kept = r.kept.keys } };

    ghost invariant = { λ r. length r.paths < 2 ^ 32 };
}

impl Resolution {
    /// The numbers of the added inputs, in adding order.
    pub fn added(&self) -> &NumberList
        ensures { result.now ≡ self.now.added }
    {
        &self.added
    }

    /// The names with their symbols and winners.
    pub fn names(&self) -> &SymTab
        ensures { result.now ≡ self.now.rows }
    {
        &self.names
    }

    /// Whether a section of an input is kept.
    pub fn is_kept(&self, input: u32, section: u32) -> bool
        ensures { result ≡ is_place_kept self.now.kept input section }
    {
        let place = SectionPlace { input, section };
        self.kept.contains(&place)
    }

    /// The visibility of the name with a number: the most constraining one of its symbols in objects.
    pub fn visibility(&self, name: u32) -> u32
        requires { name < length self.now.rows }
        ensures { option_map row_visibility (slice_get self.now.rows name) ≡ Some result }
    {
        self.names.visibility(name)
    }

    /// Whether a shared input is added.
    pub fn dynamic(&self) -> bool
        ensures { result ≡ self.now.dynamic }
    {
        self.dynamic
    }

    /// The number of inputs whose paths are known.
    pub fn inputs(&self) -> u32
        ensures { result ≡ length self.now.paths }
    {
        self.paths.as_slice().len() as u32
    }

    /// The path of an input.
    pub fn path(&self, input: u32) -> &Name
        requires { input < length self.now.paths }
        ensures { result.now ≡ get_or self.now.paths input [] }
    {
        &self.paths.as_slice()[input as usize]
    }
}
