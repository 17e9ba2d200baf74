//! What resolution holds of the inputs that were added: everything that the next input, or the next member of
//! a lib group, is judged by.

ghost use Rattle.std.specs.Prelude.{◌≡◌, [], cond, length, IfOk, OnOk};
ghost use Rattle.lk_resolve.specs.RowFaults.{faults_in};
ghost use Rattle.lk_resolve.specs.Settling.{resolved, rows_with_made};
ghost use Rattle.lk_resolve.specs.States.{is_shared, state_of, with_input, with_left};
ghost use Rattle.lk_resolve.specs.Wanted.{places_wanted, wants, wants_name};

use crate::definition_faults::faults_of;
use crate::input_symbols::add_symbols;
use crate::kept_sections::{keep_sections, note_loaded};
use crate::made_names::make_names;
use crate::resolution::Resolution;
use crate::section_places::SectionPlace;
use crate::section_sets::{Sections, claim_input};
use crate::wanted_names::{defines_wanted, is_wanted, places_wanted};
use indexmap::IndexSet;
use lk_comdat::Groups;
use lk_model::summaries::{Global as Symbol, InputSummary, Kind, NumberList};
use lk_report::{FaultList, List, Name, NameList, NoMemory};
use lk_symtab::SymTab;
use std::alloc::Global;
use std::marker::Model;

/// The names, claims and kept sections of the added inputs. Contracts see it as the state of
/// specs/States.antt.
#[derive(Drop)]
pub struct ResolverState {
    alloc: Global,
    entry: Name,
    paths: NameList,
    names: SymTab,
    claims: Groups,
    added: NumberList,
    dynamic: bool,
    kept: IndexSet<SectionPlace>,
    loaded: IndexSet<Name>,
}

impl Model for ResolverState {
    ghost use Rattle.lk_resolve.specs.States.{State};

    ghost Value = { State };

    ghost view = { λ h. record { entry = h.entry; paths = h.paths; rows = h.names; claims = h.claims; added = h.added; dynamic = h.dynamic; kept = h.kept.keys; loaded = h.loaded.keys } };
}

/// Whether an input is shared.
fn is_shared(kind: Kind) -> bool
    ensures { result ≡ is_shared kind }
{
    match kind {
        Kind::Object => false,
        Kind::Shared => true,
    }
}

impl ResolverState {
    /// Nothing is added, and no path is known.
    #[tactic(auto, unfolding(crate::specs::States::state_of))]
    pub fn new(alloc: Global, entry: &Name) -> Result<ResolverState, NoMemory>
        ensures { IfOk result (λ state. state ≡ state_of entry.now [] []) }
    {
        let entry = entry.copy(alloc)?;
        Ok(ResolverState {
            alloc,
            entry,
            paths: List::new(alloc),
            names: SymTab::new(alloc),
            claims: Groups::new(alloc),
            added: List::new(alloc),
            dynamic: false,
            kept: IndexSet::new(alloc),
            loaded: IndexSet::new(alloc),
        })
    }

    /// Takes the paths of the inputs, by their numbers.
    pub fn set_paths(&mut self, paths: &NameList) -> Result<(), NoMemory>
        ensures { OnOk result (self.new ≡ record self.old { paths = paths.now }) }
    {
        self.paths = paths.copy(self.alloc)?;
        Ok(())
    }

    /// Adds an input after the others.
    pub fn add(&mut self, input: u32, summary: &InputSummary) -> Result<(), NoMemory>
        ensures { OnOk result (self.new ≡ with_input self.old (record { number = input; summary = summary.now })) }
    {
        let left = claim_input(self.alloc, &mut self.claims, input, summary)?;
        self.add_left(input, summary, &left)?;
        Ok(())
    }

    /// Adds an input where it defines a wanted name, with its groups claimed as if it came next: whether it was
    /// added. Its claims are forgotten where it was not.
    #[tactic(auto, using(crate::proofs::ClaimSteps::claims_forgotten, crate::proofs::WantedNames::none_placed), unfolding(crate::specs::States::with_input, crate::specs::Wanted::wants))]
    pub fn add_wanted(&mut self, input: u32, summary: &InputSummary) -> Result<bool, NoMemory>
        ensures taken { IfOk result (λ taken. taken ≡ wants self.old (record { number = input; summary = summary.now })) }
        ensures state { IfOk result (λ taken. self.new ≡ cond taken (with_input self.old (record { number = input; summary = summary.now })) self.old) }
    {
        if !places_wanted(&self.entry, &self.names, summary.globals.as_slice()) {
            return Ok(false);
        }
        let claimed = self.claims.len();
        let left = claim_input(self.alloc, &mut self.claims, input, summary)?;
        let symbols = summary.globals.as_slice();
        if defines_wanted(&self.entry, &self.names, &left, symbols) {
            self.add_left(input, summary, &left)?;
            return Ok(true);
        }
        self.claims.forget_after(claimed);
        Ok(false)
    }

    /// Whether a name is wanted.
    pub fn is_wanted(&self, name: &Name) -> bool
        ensures { result ≡ wants_name self.now.entry self.now.rows name.now }
    {
        is_wanted(&self.entry, &self.names, name)
    }

    /// Whether some symbol with a place has a wanted name: where none has, an input with these symbols is not
    /// wanted.
    pub fn places_wanted(&self, symbols: &[Symbol]) -> bool
        ensures { result ≡ places_wanted self.now.entry self.now.rows symbols.now }
    {
        places_wanted(&self.entry, &self.names, symbols)
    }

    /// The number of names.
    pub fn name_count(&self) -> u32
        ensures { result ≡ length self.now.rows }
    {
        self.names.len()
    }

    /// Marks the names that the linker makes.
    pub fn mark_made(&mut self) -> Result<(), NoMemory>
        ensures { OnOk result (self.new ≡ record self.old { rows = rows_with_made self.old }) }
    {
        make_names(self.alloc, &mut self.names, self.dynamic, &self.loaded)?;
        Ok(())
    }

    /// The faults of the names.
    pub fn faults(&self) -> Result<FaultList, NoMemory>
        ensures { IfOk result (λ faults. faults ≡ faults_in self.now.paths self.now.entry self.now.rows) }
    {
        faults_of(self.alloc, self.paths.as_slice(), &self.entry, &self.names)
    }

    /// What stays of it in a link. A number of paths that has no room in 32 bits is answered as out of memory.
    pub fn into_resolution(self) -> Result<Resolution, NoMemory>
        ensures { IfOk result (λ resolution. resolution ≡ resolved self) }
    {
        let ResolverState {
            alloc: _alloc,
            entry: _entry,
            paths,
            names,
            claims: _claims,
            added,
            dynamic,
            kept,
            loaded: _loaded,
        } = self;
        if paths.as_slice().len() > u32::MAX as usize {
            return Err(NoMemory);
        }
        Ok(Resolution {
            paths,
            names,
            added,
            dynamic,
            kept,
        })
    }

    /// Adds an input whose groups are claimed, and of which these sections are left.
    fn add_left(
        &mut self,
        input: u32,
        summary: &InputSummary,
        left: &Sections,
    ) -> Result<(), NoMemory>
        ensures { OnOk result (self.new ≡ with_left self.old left.now.keys (record { number = input; summary = summary.now })) }
    {
        let symbols = summary.globals.as_slice();
        add_symbols(&mut self.names, input, summary.kind, symbols, left)?;
        let pieces = summary.pieces.as_slice();
        keep_sections(&mut self.kept, input, pieces, left)?;
        note_loaded(self.alloc, &mut self.loaded, pieces, left)?;
        self.added.push(input)?;
        self.dynamic = self.dynamic || is_shared(summary.kind);
        Ok(())
    }
}
