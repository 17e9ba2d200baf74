//! The faults that are reported: in their order, an undefined name and the empty copy of a name once. Which
//! names were reported of is known by hash.

ghost use Rattle.std.specs.Prelude.{◌≡◌, ◌∷◌, ◌++◌, ◌<◌, [], None, IfOk, OnOk};
ghost use Rattle.std.specs.Str.{bytes_eq};
ghost use Rattle.indexmap.specs.IndexSet.{insert_key, spare};
ghost use Rattle.lk_model.specs.ScanFaults.{with_fault};
ghost use Rattle.lk_scan.specs.ReferralFaults.{empty_copy_name, site_in, undefined_name};

use crate::targets::Referral;
use indexmap::IndexSet;
use lk_report::{Fault, FaultList, List, Name, NoMemory, Site};
use std::alloc::Global;
use std::marker::Model;

/// The faults so far. Contracts see it as their list.
#[derive(Drop)]
pub struct ReportedNames {
    alloc: Global,
    faults: FaultList,
    undefined: IndexSet<Name>,
    copied: IndexSet<Name>,
}

impl Model for ReportedNames {
    ghost use Rattle.std.specs.Prelude.{List};
    ghost use Rattle.lk_report.specs.declared.faults.Fault.{Fault};
    ghost use Rattle.lk_scan.specs.ReferralFaults.{IsIndexed};

    ghost Value = { List Fault };

    ghost view = { λ t. t.faults };

    ghost invariant = { λ t. IsIndexed t.faults t.undefined.keys t.copied.keys };
}

/// Makes room for one more name.
fn make_room(names: &mut IndexSet<Name>) -> Result<(), NoMemory>
    ensures room { OnOk result (0 < spare names.new) }
    ensures kept { names.new.keys ≡ names.old.keys }
{
    match names.reserve(1) {
        Ok(()) => Ok(()),
        Err(_) => Err(NoMemory),
    }
}

/// Puts a name into a set that has room for it. Takes no memory.
fn put(names: &mut IndexSet<Name>, name: Name)
    requires { 0 < spare names.old }
    ensures { names.new.keys ≡ insert_key bytes_eq names.old.keys name }
{
    let _put = names.insert(name);
}

impl ReportedNames {
    /// No fault is reported.
    pub fn new(alloc: Global) -> ReportedNames
        ensures { result ≡ [] }
    {
        ReportedNames {
            alloc,
            faults: List::new(alloc),
            undefined: IndexSet::new(alloc),
            copied: IndexSet::new(alloc),
        }
    }

    /// The place of a reference in the file with this path.
    pub fn site(&self, path: &Name, referral: &Referral) -> Result<Site, NoMemory>
        ensures { IfOk result (λ site. site ≡ site_in path.now referral.now) }
    {
        Ok(Site {
            path: path.copy(self.alloc)?,
            section: referral.section,
            offset: referral.offset,
        })
    }

    /// A copy of a name.
    pub fn name(&self, name: &Name) -> Result<Name, NoMemory>
        ensures { IfOk result (λ copied. copied ≡ name.now) }
    {
        name.copy(self.alloc)
    }

    /// Reports a fault that is not reported once per name.
    pub fn report(&mut self, fault: Fault) -> Result<(), NoMemory>
        requires undefined { undefined_name fault ≡ None }
        requires copied { empty_copy_name fault ≡ None }
        ensures { OnOk result (self.new ≡ self.old ++ fault ∷ []) }
    {
        self.faults.push(fault)?;
        Ok(())
    }

    /// Reports that a name is undefined, where it is not reported yet.
    pub fn report_undefined(
        &mut self,
        name: &Name,
        path: &Name,
        referral: &Referral,
    ) -> Result<(), NoMemory>
        ensures { OnOk result (self.new ≡ with_fault self.old (Fault.Undefined name.now (site_in path.now referral.now))) }
    {
        if self.undefined.contains(name) {
            return Ok(());
        }
        let key = self.name(name)?;
        let name = self.name(name)?;
        let site = self.site(path, referral)?;
        make_room(&mut self.undefined)?;
        self.faults.push(Fault::Undefined { name, site })?;
        put(&mut self.undefined, key);
        Ok(())
    }

    /// Reports that the copy of a name is empty, where it is not reported yet.
    pub fn report_empty_copy(
        &mut self,
        name: &Name,
        path: &Name,
        referral: &Referral,
    ) -> Result<(), NoMemory>
        ensures { OnOk result (self.new ≡ with_fault self.old (Fault.CopyOfZero name.now (site_in path.now referral.now))) }
    {
        if self.copied.contains(name) {
            return Ok(());
        }
        let key = self.name(name)?;
        let name = self.name(name)?;
        let site = self.site(path, referral)?;
        make_room(&mut self.copied)?;
        self.faults.push(Fault::CopyOfZero { name, site })?;
        put(&mut self.copied, key);
        Ok(())
    }

    /// The faults.
    pub fn into_faults(self) -> FaultList
        ensures { result ≡ self }
    {
        let ReportedNames {
            alloc: _alloc,
            faults,
            undefined: _undefined,
            copied: _copied,
        } = self;
        faults
    }
}
