//! What references need, each once, in order of the first reference that needs it: slots of the GOT, entries
//! of the PLT, copies. Each is looked up by hash.

ghost use Rattle.std.specs.Prelude.{◌≡◌, nat_eq, ◌==◌, ◌∷◌, [], cond, fold, map, IfOk, OnOk};
ghost use Rattle.lk_elf.specs.Numbers.{stt_object};
ghost use Rattle.lk_model.specs.NeedsOf.{got_key_eq};
ghost use Rattle.lk_model.specs.Numbered.{with_new};
ghost use Rattle.lk_scan.specs.ReferralNeeds.{is_addressed, is_copied, key_of, needs_of_import, needs_with, needs_with_slots, slot_of};

use crate::slots::Slot;
use crate::targets::{Import, Referral, Way};
use indexmap::IndexSet;
use lk_elf::numbers::{STT_OBJECT, STT_TLS};
use lk_model::layouts::{GotKey, GotKeyList, GotOwner, Needs};
use lk_model::summaries::NumberList;
use lk_reloc::{is_address_form, is_got_form, is_plt_form, is_thread_slot_form};
use lk_report::{List, NoMemory};
use std::alloc::Global;
use std::marker::Model;

/// What the references so far need. Contracts see it as these needs.
#[derive(Drop)]
pub struct NeedSets {
    got: IndexSet<Slot>,
    plt: IndexSet<u32>,
    address: IndexSet<u32>,
    copies: IndexSet<u32>,
}

impl Model for NeedSets {
    ghost use Rattle.std.specs.Prelude.{map};
    ghost use Rattle.lk_model.specs.declared.layouts.Needs.{Needs};
    ghost use Rattle.lk_scan.specs.ReferralNeeds.{key_of};

    ghost Value = { Needs };

    ghost view = { λ n. record { got = map key_of n.got.keys; plt = n.plt.keys; address = n.address.keys; copies = n.copies.keys } };
}

/// Whether an import is a variable.
fn is_variable(import: Import) -> bool
    ensures { result ≡ (import.code == stt_object) }
{
    import.code == STT_OBJECT as u32
}

/// Whether a reference of this type needs a variable to be copied.
fn is_copied(code: u32, import: Import) -> bool
    ensures { result ≡ is_copied code import }
{
    is_address_form(code) && is_variable(import)
}

/// Whether a reference of this type needs a PLT entry to be the import's address.
fn is_addressed(code: u32, import: Import) -> bool
    ensures { result ≡ is_addressed code import }
{
    is_address_form(code) && (!is_variable(import) && import.code != STT_TLS as u32)
}

/// The slot of what a reference goes through.
fn slot_of(input: u32, thread: bool, way: Way) -> Slot
    ensures { result ≡ slot_of input thread way }
{
    match way {
        Way::Name { number, .. } => Slot::OfName { number, thread },
        Way::Local(symbol) => Slot::OfLocal {
            input,
            symbol,
            thread,
        },
    }
}

/// Puts a slot among those that are needed, where it is.
#[tactic(auto, using(crate::proofs::SlotKeys::inserted))]
fn need_slot(wanted: bool, slots: &mut IndexSet<Slot>, slot: Slot) -> Result<(), NoMemory>
    ensures { OnOk result (map key_of slots.new.keys ≡ fold (with_new got_key_eq) (map key_of slots.old.keys) (cond wanted (key_of slot ∷ []) [])) }
{
    if wanted {
        if slots.insert(slot).is_err() {
            return Err(NoMemory);
        }
    }
    Ok(())
}

/// Puts a number among those that are needed, where it is.
fn need_number(wanted: bool, numbers: &mut IndexSet<u32>, number: u32) -> Result<(), NoMemory>
    ensures { OnOk result (numbers.new.keys ≡ fold (with_new nat_eq) numbers.old.keys (cond wanted (number ∷ []) [])) }
{
    if wanted {
        if numbers.insert(number).is_err() {
            return Err(NoMemory);
        }
    }
    Ok(())
}

/// A slot as a key.
fn key_of(slot: Slot) -> GotKey
    ensures { result ≡ key_of slot }
{
    match slot {
        Slot::OfName { number, thread } => GotKey {
            owner: GotOwner::Global(number),
            thread,
        },
        Slot::OfLocal {
            input,
            symbol,
            thread,
        } => GotKey {
            owner: GotOwner::Local { input, symbol },
            thread,
        },
    }
}

/// The slots as a list.
fn list_of_slots(alloc: Global, slots: &[Slot]) -> Result<GotKeyList, NoMemory>
    ensures { IfOk result (λ list. list ≡ map key_of slots.now) }
{
    let mut list = List::new(alloc);
    for slot in slots {
        list.push(key_of(*slot))?;
    }
    Ok(list)
}

/// Numbers as a list.
fn list_of_numbers(alloc: Global, numbers: &[u32]) -> Result<NumberList, NoMemory>
    ensures { IfOk result (λ list. list ≡ numbers.now) }
{
    match Vec::from_slice(alloc, numbers) {
        Ok(numbers) => Ok(List::from_vec(numbers)),
        Err(_) => Err(NoMemory),
    }
}

impl NeedSets {
    /// Nothing is needed.
    pub fn new(alloc: Global) -> NeedSets
        ensures { result ≡ record { got = []; plt = []; address = []; copies = [] } }
    {
        NeedSets {
            got: IndexSet::new(alloc),
            plt: IndexSet::new(alloc),
            address: IndexSet::new(alloc),
            copies: IndexSet::new(alloc),
        }
    }

    /// Notes what a reference in a loaded piece needs.
    pub fn note(&mut self, referral: &Referral) -> Result<(), NoMemory>
        ensures { OnOk result (self.new ≡ needs_with self.old referral.now) }
    {
        self.note_slots(referral)?;
        match referral.target.import {
            Some(import) => self.note_import(referral.code, import),
            None => Ok(()),
        }
    }

    /// Notes the slots that a reference needs.
    #[tactic(auto, using(crate::proofs::Folds::folded_twice))]
    fn note_slots(&mut self, referral: &Referral) -> Result<(), NoMemory>
        ensures { OnOk result (self.new ≡ needs_with_slots self.old referral.now) }
    {
        let Referral {
            input,
            code,
            target,
            ..
        } = *referral;
        let address = slot_of(input, false, target.way);
        let offset = slot_of(input, true, target.way);
        need_slot(is_got_form(code), &mut self.got, address)?;
        need_slot(is_thread_slot_form(code), &mut self.got, offset)?;
        Ok(())
    }

    /// Notes what a reference of a type to an import needs.
    #[tactic(auto, using(crate::proofs::Folds::folded_twice))]
    fn note_import(&mut self, code: u32, import: Import) -> Result<(), NoMemory>
        ensures { OnOk result (self.new ≡ needs_of_import self.old code import) }
    {
        let is_addressed = is_addressed(code, import);
        need_number(is_plt_form(code), &mut self.plt, import.name)?;
        need_number(is_addressed, &mut self.plt, import.name)?;
        need_number(is_addressed, &mut self.address, import.name)?;
        need_number(is_copied(code, import), &mut self.copies, import.name)?;
        Ok(())
    }

    /// The needs as lists.
    pub fn to_needs(&self, alloc: Global) -> Result<Needs, NoMemory>
        ensures { IfOk result (λ needs. needs ≡ self.now) }
    {
        Ok(Needs {
            got: list_of_slots(alloc, self.got.as_slice())?,
            plt: list_of_numbers(alloc, self.plt.as_slice())?,
            address: list_of_numbers(alloc, self.address.as_slice())?,
            copies: list_of_numbers(alloc, self.copies.as_slice())?,
        })
    }
}
