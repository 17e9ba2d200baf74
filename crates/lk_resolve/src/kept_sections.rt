//! The kept sections of the added inputs, and the names of the loaded output sections that they go to, each
//! in a set.

ghost use Rattle.std.specs.Prelude.{◌≡◌, fold, OnOk};
ghost use Rattle.std.specs.Str.{bytes_eq};
ghost use Rattle.lk_model.specs.Numbered.{with_new};
ghost use Rattle.lk_resolve.specs.LeftSections.{is_same_place, loaded_in, places_in};

use crate::section_places::SectionPlace;
use crate::section_sets::Sections;
use indexmap::IndexSet;
use lk_model::classes::is_alloc;
use lk_model::summaries::PieceInfo;
use lk_report::{Name, NoMemory};
use std::alloc::Global;

/// Keeps a section.
fn insert_place(kept: &mut IndexSet<SectionPlace>, place: SectionPlace) -> Result<(), NoMemory>
    ensures { OnOk result (kept.new.keys ≡ with_new is_same_place kept.old.keys place) }
{
    if kept.insert(place).is_err() {
        return Err(NoMemory);
    }
    Ok(())
}

/// Keeps the pieces of an input whose sections are left.
pub fn keep_sections(
    kept: &mut IndexSet<SectionPlace>,
    input: u32,
    pieces: &[PieceInfo],
    left: &Sections,
) -> Result<(), NoMemory>
    ensures { OnOk result (kept.new.keys ≡ fold (with_new is_same_place) kept.old.keys (places_in left.now.keys input pieces.now)) }
{
    for piece in pieces {
        if left.contains(&piece.section) {
            let place = SectionPlace {
                input,
                section: piece.section,
            };
            insert_place(kept, place)?;
        }
    }
    Ok(())
}

/// Puts a name into a set; it is copied where it is new.
fn insert_name(alloc: Global, names: &mut IndexSet<Name>, name: &Name) -> Result<(), NoMemory>
    ensures { OnOk result (names.new.keys ≡ with_new bytes_eq names.old.keys name.now) }
{
    if names.contains(name) {
        return Ok(());
    }
    let copied = name.copy(alloc)?;
    if names.insert(copied).is_err() {
        return Err(NoMemory);
    }
    Ok(())
}

/// Notes the loaded output sections that the pieces of an input go to whose sections are left.
pub fn note_loaded(
    alloc: Global,
    loaded: &mut IndexSet<Name>,
    pieces: &[PieceInfo],
    left: &Sections,
) -> Result<(), NoMemory>
    ensures { OnOk result (loaded.new.keys ≡ fold (with_new bytes_eq) loaded.old.keys (loaded_in left.now.keys pieces.now)) }
{
    for piece in pieces {
        if left.contains(&piece.section) && is_alloc(piece.key.class) {
            insert_name(alloc, loaded, &piece.key.name)?;
        }
    }
    Ok(())
}
