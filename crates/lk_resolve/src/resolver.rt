//! The resolver: inputs are added one by one or by lib groups, and what they decide is resolved at the end.

ghost use Rattle.std.specs.Prelude.{◌≡◌, [], ◌∷◌, ◌++◌, List, ℕ, None, Some, Err, IfOk, IsErr, OnErr, OnOk};
ghost use Rattle.lk_model.specs.Adding.{is_wanted_member, with_one};
ghost use Rattle.lk_model.specs.Finding.{found_of};
ghost use Rattle.lk_model.specs.Numbered.{Numbered};
ghost use Rattle.lk_model.specs.Queues.{listed_of};
ghost use Rattle.lk_resolve.specs.Searches.{numbered_on};
ghost use Rattle.lk_resolve.specs.Settling.{SettleGives};
ghost use Rattle.lk_resolve.specs.States.{state_of};

use crate::resolution::Resolution;
use crate::searches::add_members;
use crate::settle_faults::SettleFault;
use crate::settling::settle_state;
use crate::state::ResolverState;
use lk_model::summaries::{InputSummary, SummaryList};
use lk_report::{Name, NameList, NoMemory};
use std::alloc::Global;
use std::marker::Model;

/// Takes the inputs of a link in the order in which they are added. Contracts see it as the state of the added
/// inputs, or as none once it ran out of memory: it answers so from then on.
#[derive(Drop)]
pub struct Resolver {
    alloc: Global,
    state: ResolverState,
    is_spent: bool,
}

impl Model for Resolver {
    ghost use Rattle.std.specs.Prelude.{Option, Some, None, cond};
    ghost use Rattle.lk_resolve.specs.States.{State};

    ghost Value = { Option State };

    ghost view = { λ r. cond r.is_spent None (Some r.state) };
}

impl Resolver {
    /// Nothing is added; `entry` is the name at which the program begins. What is added later is copied by
    /// this allocator.
    pub fn new(alloc: Global, entry: &Name) -> Result<Resolver, NoMemory>
        ensures { IfOk result (λ resolver. resolver ≡ Some (state_of entry.now [] [])) }
    {
        Ok(Resolver {
            alloc,
            state: ResolverState::new(alloc, entry)?,
            is_spent: false,
        })
    }

    /// Takes the paths of the inputs, by their numbers, which faults name and `Resolution` reports.
    ///
    /// # Errors
    /// Out of memory, now or before. The resolver answers it from then on.
    pub fn with_paths(&mut self, paths: &NameList) -> Result<(), NoMemory>
        ensures taken { (entry : List ℕ) (before : List (List ℕ)) (added : List Numbered) → self.old ≡ Some (state_of entry before added) → OnOk result (self.new ≡ Some (state_of entry paths.now added)) }
        ensures wanting { OnErr result (self.new ≡ None) }
        ensures spent { self.old ≡ None → IsErr result }
    {
        if self.is_spent {
            return Err(NoMemory);
        }
        self.is_spent = true;
        self.state.set_paths(paths)?;
        self.is_spent = false;
        Ok(())
    }

    /// Adds an input after all that were added before it: its groups are claimed, its symbols count for their
    /// names, and the sections of it that no group drops are kept.
    ///
    /// # Errors
    /// Out of memory, now or before. The resolver answers it from then on.
    pub fn add_input(&mut self, input: u32, summary: &InputSummary) -> Result<(), NoMemory>
        ensures added { (entry : List ℕ) (paths : List (List ℕ)) (added : List Numbered) → self.old ≡ Some (state_of entry paths added) → OnOk result (self.new ≡ Some (state_of entry paths (added ++ record { number = input; summary = summary.now } ∷ []))) }
        ensures wanting { OnErr result (self.new ≡ None) }
        ensures spent { self.old ≡ None → IsErr result }
    {
        if self.is_spent {
            return Err(NoMemory);
        }
        self.is_spent = true;
        self.state.add(input, summary)?;
        self.is_spent = false;
        Ok(())
    }

    /// Adds those members of a lib group that are wanted, each when its turn comes: the search goes round the
    /// members until none defines a wanted name other than as common. The members are numbered from `first`.
    ///
    /// # Errors
    /// Out of memory, now or before. The resolver answers it from then on.
    pub fn add_group(&mut self, first: u32, members: &SummaryList) -> Result<(), NoMemory>
        ensures added { (entry : List ℕ) (paths : List (List ℕ)) (added : List Numbered) → self.old ≡ Some (state_of entry paths added) → OnOk result (self.new ≡ Some (state_of entry paths (added ++ listed_of (is_wanted_member entry) with_one added (numbered_on first members.now)))) }
        ensures wanting { OnErr result (self.new ≡ None) }
        ensures spent { self.old ≡ None → IsErr result }
    {
        self.add_members(first, members.as_slice())
    }

    /// `add_group` of members that are in a row, as among the summaries of all inputs.
    ///
    /// # Errors
    /// Out of memory, now or before. The resolver answers it from then on.
    pub fn add_members(&mut self, first: u32, members: &[InputSummary]) -> Result<(), NoMemory>
        ensures added { (entry : List ℕ) (paths : List (List ℕ)) (added : List Numbered) → self.old ≡ Some (state_of entry paths added) → OnOk result (self.new ≡ Some (state_of entry paths (added ++ listed_of (is_wanted_member entry) with_one added (numbered_on first members.now)))) }
        ensures wanting { OnErr result (self.new ≡ None) }
        ensures spent { self.old ≡ None → IsErr result }
    {
        if self.is_spent {
            return Err(NoMemory);
        }
        self.is_spent = true;
        add_members(self.alloc, &mut self.state, first, members)?;
        self.is_spent = false;
        Ok(())
    }

    /// What the added inputs decide.
    ///
    /// # Errors
    /// More names than 2^20, with their whole number. Else the faults of the names, in this order: each later
    /// strong definition of a name against its first, and names that are thread-local here and not there, each
    /// in order of names; then an entry that no object defines. Out of memory, now or before.
    pub fn settle(self) -> Result<Resolution, SettleFault>
        ensures resolution { (entry : List ℕ) (paths : List (List ℕ)) (added : List Numbered) → self ≡ Some (state_of entry paths added) → SettleGives (found_of paths entry added) result }
        ensures spent { self ≡ None → result ≡ Err SettleFault.NoMemory }
    {
        let Resolver {
            alloc: _alloc,
            state,
            is_spent,
        } = self;
        if is_spent {
            return Err(SettleFault::NoMemory);
        }
        settle_state(state)
    }
}
