//! Placements that are written row by row.

use lk_model::layouts::{
    Class, PieceRow, PieceRowList, Placement, SectionKey, SectionRow, SectionRowList, SlotTable,
};
use lk_report::{List, Name, NoMemory};
use std::alloc::Global;

/// A row: its name and class, and its address, offset, size, room and alignment.
pub type Row = (&'static [u8], Class, [u64; 5]);

/// The output sections of the smallest link.
pub const SMALL_ROWS: [Row; 3] = [
    (b".text", Class::X, [0x401000, 0x1000, 64, 64, 16]),
    (b".got", Class::W, [0x402000, 0x2000, 0, 64, 16]),
    (b".got.plt", Class::W, [0x402040, 0x2040, 24, 64, 16]),
];

fn section_row(alloc: Global, row: &Row) -> Result<SectionRow, NoMemory> {
    let (text, class, [addr, offset, size, room, align]) = *row;
    let name = Name::from_slice(alloc, text)?;
    Ok(SectionRow {
        key: SectionKey { name, class },
        addr,
        offset,
        size,
        room,
        align,
    })
}

/// The rows of sections.
pub fn section_rows(alloc: Global, rows: &[Row]) -> Result<SectionRowList, NoMemory> {
    let mut sections = List::new(alloc);
    for row in rows {
        sections.push(section_row(alloc, row)?)?;
    }
    Ok(sections)
}

/// The rows of pieces.
fn piece_rows(alloc: Global, rows: &[PieceRow]) -> Result<PieceRowList, NoMemory> {
    let mut pieces = List::new(alloc);
    for row in rows {
        pieces.push(*row)?;
    }
    Ok(pieces)
}

/// A placement of these sections and pieces.
pub fn placed(alloc: Global, rows: &[Row], pieces: &[PieceRow]) -> Result<Placement, NoMemory> {
    let sections = section_rows(alloc, rows)?;
    let pieces = piece_rows(alloc, pieces)?;
    Ok(Placement {
        sections,
        pieces,
        slots: SlotTable {
            got: List::new(alloc),
            plt: List::new(alloc),
        },
    })
}
