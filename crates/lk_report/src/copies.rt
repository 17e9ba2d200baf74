//! Copies of faults and causes, which own names.

ghost use Rattle.std.specs.Prelude.{◌≡◌, IfOk};

use crate::causes::{Cause, OptionRecord};
use crate::faults::{Fault, Site};
use crate::memory::{NoMemory, TryCopy};
use std::alloc::Global;

impl Site {
    /// An equal place.
    pub fn copy(&self, alloc: Global) -> Result<Self, NoMemory>
        ensures { IfOk result (λ c. c ≡ self.now) }
    {
        Ok(Site {
            path: self.path.copy(alloc)?,
            section: self.section,
            offset: self.offset,
        })
    }
}

impl TryCopy for Site {
    fn try_copy(&self, alloc: Global) -> Result<Self, NoMemory> {
        self.copy(alloc)
    }
}

impl OptionRecord {
    /// Equal options.
    pub fn copy(&self, alloc: Global) -> Result<Self, NoMemory>
        ensures { IfOk result (λ c. c ≡ self.now) }
    {
        Ok(OptionRecord {
            entry: self.entry.copy(alloc)?,
            interp: self.interp.copy(alloc)?,
            runpath: self.runpath.copy(alloc)?,
            patch: self.patch,
            export_dynamic: self.export_dynamic,
            dynamic: self.dynamic,
        })
    }
}

impl TryCopy for OptionRecord {
    fn try_copy(&self, alloc: Global) -> Result<Self, NoMemory> {
        self.copy(alloc)
    }
}

impl Cause {
    /// An equal cause.
    pub fn copy(&self, alloc: Global) -> Result<Self, NoMemory>
        ensures { IfOk result (λ c. c ≡ self.now) }
    {
        Ok(match self {
            Cause::NoBase => Cause::NoBase,
            Cause::BaseOpen => Cause::BaseOpen,
            Cause::NotIncremental => Cause::NotIncremental,
            Cause::OtherVersion(version) => Cause::OtherVersion(*version),
            Cause::OptionsChanged { before, now } => Cause::OptionsChanged {
                before: before.copy(alloc)?,
                now: now.copy(alloc)?,
            },
            Cause::NewSection(name) => Cause::NewSection(name.copy(alloc)?),
            Cause::MoreAlign {
                section,
                have,
                need,
            } => Cause::MoreAlign {
                section: section.copy(alloc)?,
                have: *have,
                need: *need,
            },
            Cause::NoRoom {
                section,
                size,
                align,
            } => Cause::NoRoom {
                section: section.copy(alloc)?,
                size: *size,
                align: *align,
            },
            Cause::SmallHole { section, size } => Cause::SmallHole {
                section: section.copy(alloc)?,
                size: *size,
            },
            Cause::NoTableRoom {
                section,
                need,
                reserved,
            } => Cause::NoTableRoom {
                section: section.copy(alloc)?,
                need: *need,
                reserved: *reserved,
            },
            Cause::UpdateOverflow { p, s, a, value } => Cause::UpdateOverflow {
                p: *p,
                s: *s,
                a: *a,
                value: *value,
            },
        })
    }
}

impl TryCopy for Cause {
    fn try_copy(&self, alloc: Global) -> Result<Self, NoMemory> {
        self.copy(alloc)
    }
}

impl Fault {
    /// An equal fault.
    pub fn copy(&self, alloc: Global) -> Result<Self, NoMemory>
        ensures { IfOk result (λ c. c ≡ self.now) }
    {
        Ok(match self {
            Fault::Missing { path } => Fault::Missing {
                path: path.copy(alloc)?,
            },
            Fault::Input { path, fault } => Fault::Input {
                path: path.copy(alloc)?,
                fault: *fault,
            },
            Fault::MultipleDefinition {
                name,
                first,
                second,
            } => Fault::MultipleDefinition {
                name: name.copy(alloc)?,
                first: first.copy(alloc)?,
                second: second.copy(alloc)?,
            },
            Fault::TlsMismatch { name } => Fault::TlsMismatch {
                name: name.copy(alloc)?,
            },
            Fault::NoEntry { name } => Fault::NoEntry {
                name: name.copy(alloc)?,
            },
            Fault::Undefined { name, site } => Fault::Undefined {
                name: name.copy(alloc)?,
                site: site.copy(alloc)?,
            },
            Fault::DroppedLocal { site } => Fault::DroppedLocal {
                site: site.copy(alloc)?,
            },
            Fault::Unsupported { code, site } => Fault::Unsupported {
                code: *code,
                site: site.copy(alloc)?,
            },
            Fault::CopyOfZero { name, site } => Fault::CopyOfZero {
                name: name.copy(alloc)?,
                site: site.copy(alloc)?,
            },
            Fault::ImportedTlsDirect { name, site } => Fault::ImportedTlsDirect {
                name: name.copy(alloc)?,
                site: site.copy(alloc)?,
            },
            Fault::Overflow {
                site,
                p,
                s,
                a,
                value,
            } => Fault::Overflow {
                site: site.copy(alloc)?,
                p: *p,
                s: *s,
                a: *a,
                value: *value,
            },
        })
    }
}

impl TryCopy for Fault {
    fn try_copy(&self, alloc: Global) -> Result<Self, NoMemory> {
        self.copy(alloc)
    }
}
