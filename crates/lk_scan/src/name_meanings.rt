//! What the names of a link mean to references, found once for all its objects: each name's symbols are
//! looked at once.

ghost use Rattle.std.specs.Prelude.{◌≡◌, IfOk, List};
ghost use Rattle.lk_symtab.specs.NameRows.{NameRow};
ghost use Rattle.lk_scan.specs.Targets.{meanings_of, name_target, to_weak};

use crate::name_targets::{name_target, unknown_target};
use crate::targets::{Target, Way};
use lk_report::NoMemory;
use lk_symtab::SymTab;
use std::alloc::Global;
use std::marker::Model;

/// What the names of a link mean, by their numbers. Contracts see it as the list of these meanings.
#[derive(Drop)]
pub struct NameMeanings {
    targets: Vec<Target>,
}

impl Model for NameMeanings {
    ghost use Rattle.std.specs.Prelude.{List};
    ghost use Rattle.lk_scan.specs.declared.targets.Target.{Target};

    ghost Value = { List Target };

    ghost view = { λ m. m.targets.items };
}

/// What the name of a number means to a reference that is weak or not, where it means this to one that is
/// not.
fn to_weak(number: u32, weak: bool, target: Target) -> Target
    ensures { result ≡ to_weak number weak target }
{
    Target {
        way: Way::Name { number, weak },
        is_undefined: !weak && target.is_undefined,
        ..target
    }
}

impl NameMeanings {
    /// What these names mean.
    ///
    /// # Errors
    /// Out of memory.
    pub fn of(alloc: Global, names: &SymTab) -> Result<NameMeanings, NoMemory>
        ensures { IfOk result (λ meanings. meanings ≡ meanings_of names.now) }
    {
        let mut targets = Vec::new(alloc);
        for number in 0..names.len() {
            let Ok(()) = targets.push(name_target(names, number, false)) else {
                return Err(NoMemory);
            };
        }
        Ok(NameMeanings { targets })
    }

    /// What the name of a number means to a reference, which is weak or not.
    pub(crate) fn target(&self, number: u32, weak: bool) -> Target
        ensures { (rows : List NameRow) → self.now ≡ meanings_of rows → result ≡ name_target rows number weak }
    {
        match self.targets.get(number as usize) {
            Some(target) => to_weak(number, weak, *target),
            None => unknown_target(number, weak),
        }
    }
}
