//! Links that need a slot, an entry or a copy, whose tables are not built yet.

ghost use Rattle.std.specs.Prelude.{◌≡◌, IfOk};
ghost use Rattle.lk_model.specs.Answers.{is_empty, needs_nothing};
ghost use Rattle.lk_driver.specs.LinkPasses.{NeedsAnswer, path_of_first};

use lk_model::input_names::InputName;
use lk_model::layouts::Needs;
use lk_report::{List, Name, NoMemory, Status, Waiting};
use std::alloc::Global;

/// Whether nothing of a kind is needed.
fn is_empty<X: Drop>(items: &List<X>) -> bool
    ensures { result ≡ is_empty items.now }
{
    items.as_slice().is_empty()
}

/// Whether a link needs no slot, no entry and no copy.
fn needs_nothing(needs: &Needs) -> bool
    ensures { result ≡ needs_nothing needs.now }
{
    is_empty(&needs.got)
        && is_empty(&needs.plt)
        && is_empty(&needs.address)
        && is_empty(&needs.copies)
}

/// The path of the first input; an empty one where there is none.
fn path_of_first(alloc: Global, names: &[InputName]) -> Result<Name, NoMemory>
    ensures { IfOk result (λ path. path ≡ path_of_first names.now) }
{
    match names.first() {
        Some(name) => name.path.copy(alloc),
        None => Ok(Name::empty()),
    }
}

/// Whether the link of inputs with these names is built: it needs no slot, no entry and no copy (psABI x86-64,
/// "Global Offset Table", "Procedure Linkage Table").
///
/// # Errors
/// `NotYet` with the path of the first input; out of memory.
pub(crate) fn check_needs(alloc: Global, needs: &Needs, names: &[InputName]) -> Result<(), Status>
    ensures { NeedsAnswer needs.now names.now result }
{
    if needs_nothing(needs) {
        return Ok(());
    }
    match path_of_first(alloc, names) {
        Ok(path) => Err(Status::NotYet(Waiting::Form { path })),
        Err(NoMemory) => Err(Status::NoMemory),
    }
}
