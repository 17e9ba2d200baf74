//! All pieces of a link are put into the file, one after another (this project's own; gABI "Relocation").

ghost use Rattle.std.specs.Prelude.{◌≡◌, ◌++◌, ◌≤◌, [], length, IfOk, OnOk};
ghost use Rattle.lk_model.specs.FullPlace.{tail_start};
ghost use Rattle.lk_model.specs.Overflows.{overflow_faults};
ghost use Rattle.lk_model.specs.Views.{Resolved};
ghost use Rattle.lk_relocate.specs.Faults.{overflows};
ghost use Rattle.lk_relocate.specs.Links.{IsLinkOf, IsLinked};
ghost use Rattle.lk_relocate.specs.ObjectTables.{AreCurrent};
ghost use Rattle.lk_relocate.specs.Places.{KnownPiece, with_piece};
ghost use Rattle.lk_relocate.specs.References.{piece_references};
ghost use Rattle.lk_relocate.specs.Written.{piece_stretches, written};

use crate::object_sections::ObjectSection;
use crate::object_tables::{ObjectTables, object_at};
use crate::section_linking::link_section;
use lk_model::layouts::{PieceId, PieceRow};
use lk_obj_read::Object;
use lk_report::{FaultList, List, NoMemory};
use lk_symbol_values::Values;
use std::alloc::Global;

/// Puts a placed piece into the file `image`. `tables` are those of the object of the piece before it, and then those
/// of its own object. A common block and a copy have no bytes in the file.
fn put_piece(
    alloc: Global,
    objects: &[Option<Object>],
    values: &Values<'_>,
    tables: &mut ObjectTables,
    piece: &PieceRow,
    image: &mut [u8],
    faults: &mut FaultList,
) -> Result<(), NoMemory>
    requires { AreCurrent values.now objects.now tables.old }
    ensures current { OnOk result (AreCurrent values.now objects.now tables.new) }
    ensures linked { (r : Resolved) → IsLinkOf values.now r → KnownPiece objects.now r values.now.place piece.now → tail_start values.now.place ≤ length image.old → OnOk result (image.new ≡ with_piece r values.now.place image.old piece.now) }
    ensures reported { (r : Resolved) → IsLinkOf values.now r → KnownPiece objects.now r values.now.place piece.now → OnOk result (faults.new ≡ faults.old ++ overflows r values.now.place (piece_references r piece.now.piece)) }
{
    match piece.piece {
        PieceId::Common { .. } => Ok(()),
        PieceId::Copy { .. } => Ok(()),
        PieceId::Section { input, section } => match object_at(objects, input) {
            None => Ok(()),
            Some(object) => {
                tables.get_ready(values, object, input, section)?;
                let section = ObjectSection {
                    values,
                    object,
                    tables,
                    input,
                    section,
                    start: values.piece_start(input, section),
                };
                link_section(alloc, &section, piece, image, faults)?;
                Ok(())
            }
        },
    }
}

/// Puts the linked bytes of all placed pieces into the file `image`, one after another (gABI "Relocation"): each
/// section of an object is copied to its place, and the value of each of its relocations is written into its field.
/// `objects` has the object of each added input, by the input's number; `values` have the resolution and the
/// placement. Bytes between pieces stay as they are.
///
/// Returns the values that do not fit their fields, by piece and relocation: each with its place P, its symbol S, its
/// addend A and its value modulo 2^64 (psABI x86-64 "Relocation Types"). The other fields are filled all the same.
///
/// A piece is left out if its input has no object, its object has no such piece, or it does not lie in the file.
///
/// # Errors
/// Out of memory: the tables of one object at a time and the faults take memory.
pub fn link_pieces(
    alloc: Global,
    objects: &[Option<Object>],
    values: &Values<'_>,
    image: &mut [u8],
) -> Result<FaultList, NoMemory>
    ensures reported { (r : Resolved) → IsLinked values.now objects.now r → IfOk result (λ faults. faults ≡ overflow_faults r values.now.place) }
    ensures linked { (r : Resolved) → IsLinked values.now objects.now r → tail_start values.now.place ≤ length image.old → IfOk result (λ faults. faults ≡ [] → image.new ≡ written image.old (piece_stretches r values.now.place)) }
    ensures size { length image.new ≡ length image.old }
{
    let mut tables = ObjectTables::none(alloc);
    let mut faults = List::new(alloc);
    let pieces = values.placement().pieces.as_slice();
    for piece in pieces {
        put_piece(
            alloc,
            objects,
            values,
            &mut tables,
            piece,
            image,
            &mut faults,
        )?;
    }
    Ok(faults)
}
