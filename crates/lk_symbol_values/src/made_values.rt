//! The values of the symbols that the linker makes: those of fixed names, and of `__start_` and `__stop_`
//! before the name of a loaded section (this project's own; names as GNU linkers give them).

ghost use Rattle.std.specs.Prelude.{◌≡◌, ◌&&◌, ℕ, List, bytes_eq, cond, drop, Some, IfOk, OnOk};
ghost use Rattle.lk_marks.specs.Marked.{is_marked};
ghost use Rattle.lk_symbol_values.specs.MadeValues.{bound_of, bound_of_row, bound_value_by, end_or_zero, is_bound_row, has_piece_at, made_in, start_or_zero, FindsBounds};

use crate::made_places::{Bound, MadePlaces, fixed_value, made_places};
use crate::sections::exact;
use indexmap::IndexMap;
use lk_marks::Marks;
use lk_model::classes::same_class;
use lk_model::layouts::{Class, PieceRow, Placement, SectionRow};
use lk_report::{Name, NoMemory};
use std::alloc::Global;
use std::marker::Model;

/// Where the loaded sections that hold pieces begin and end, by name.
type Bounds = IndexMap<Name, Bound>;

/// What the values of made symbols are found from. Contracts see it as the placement.
#[derive(Drop)]
pub(crate) struct MadeValues<'a> {
    place: &'a Placement,
    places: MadePlaces,
    bounds: Bounds,
}

impl<'a> Model for MadeValues<'a> {
    ghost use Rattle.lk_model.specs.declared.layouts.Placement.{Placement};
    ghost use Rattle.lk_symbol_values.specs.MadeValues.{IsMadeOf};

    ghost Value = { Placement };

    ghost view = { λ m. m.place.now };

    ghost invariant = { λ m. IsMadeOf m.places m.bounds.entries m.place.now };
}

/// The numbers of the sections that hold these pieces.
fn sections_with_pieces(alloc: Global, pieces: &[PieceRow]) -> Result<Marks, NoMemory>
    ensures { IfOk result (λ with_pieces. (n : ℕ) → is_marked with_pieces n ≡ has_piece_at pieces.now n) }
{
    let mut with_pieces = Marks::new(alloc);
    for piece in pieces {
        with_pieces.mark(piece.section)?;
    }
    Ok(with_pieces)
}

/// Whether the section with a number is marked.
fn is_marked(with_pieces: &Marks, number: usize) -> bool
    ensures { result ≡ is_marked with_pieces.now number }
{
    with_pieces.as_slice().get(number).copied().unwrap_or(false)
}

/// Where a section begins and ends.
fn bound_of_row(row: &SectionRow) -> Bound
    ensures { result ≡ bound_of_row row.now }
{
    Bound {
        start: exact(row.addr),
        end: row.addr.wrapping_add(row.size),
    }
}

/// Whether the row with a number is that of a loaded section that holds a piece.
fn is_bound_row(with_pieces: &Marks, number: usize, row: &SectionRow) -> bool
    ensures { result ≡ is_bound_row (is_marked with_pieces.now) number row.now }
{
    !same_class(row.key.class, Class::N) && is_marked(with_pieces, number)
}

/// Notes where a section begins and ends, in place of what was noted before under its name.
fn note_bound(alloc: Global, bounds: &mut Bounds, row: &SectionRow) -> Result<(), NoMemory>
    ensures { OnOk result ((name : List ℕ) → bound_of bounds.new.entries name ≡ cond (bytes_eq row.now.key.name name) (Some (bound_of_row row.now)) (bound_of bounds.old.entries name)) }
{
    let name = row.key.name.copy(alloc)?;
    match bounds.insert(name, bound_of_row(row)) {
        Ok(_) => Ok(()),
        Err(_) => Err(NoMemory),
    }
}

/// Notes the row with a number, where it is that of a loaded section that holds a piece.
fn note_row(
    alloc: Global,
    bounds: &mut Bounds,
    with_pieces: &Marks,
    number: usize,
    row: &SectionRow,
) -> Result<(), NoMemory>
    ensures { OnOk result ((name : List ℕ) → bound_of bounds.new.entries name ≡ cond (is_bound_row (is_marked with_pieces.now) number row.now && bytes_eq row.now.key.name name) (Some (bound_of_row row.now)) (bound_of bounds.old.entries name)) }
{
    if is_bound_row(with_pieces, number, row) {
        note_bound(alloc, bounds, row)?;
    }
    Ok(())
}

/// Where the loaded sections among these that hold pieces begin and end; of a name that several have the first.
fn bounds_among(alloc: Global, with_pieces: &Marks, rows: &[SectionRow]) -> Result<Bounds, NoMemory>
    ensures { IfOk result (λ bounds. FindsBounds (is_marked with_pieces.now) bounds.entries rows.now) }
{
    let mut bounds = IndexMap::new(alloc);
    for number in (0..rows.len()).rev() {
        note_row(alloc, &mut bounds, with_pieces, number, &rows[number])?;
    }
    Ok(bounds)
}

/// Where the section of a name begins and ends.
fn bound_named(alloc: Global, bounds: &Bounds, name: &[u8]) -> Result<Option<Bound>, NoMemory>
    ensures { IfOk result (λ bound. bound ≡ bound_of bounds.now.entries name.now) }
{
    let name = Name::from_slice(alloc, name)?;
    Ok(bounds.get(&name).copied())
}

/// What follows so many bytes.
fn rest_from(bytes: &[u8], at: usize) -> &[u8]
    ensures { result.now ≡ drop at bytes.now }
{
    if at < bytes.len() { &bytes[at..] } else { &[] }
}

/// Where a section begins; 0 without one.
fn start_or_zero(bound: Option<Bound>) -> u64
    ensures { result ≡ start_or_zero bound }
{
    match bound {
        None => 0,
        Some(bound) => bound.start,
    }
}

/// Where a section ends; 0 without one.
fn end_or_zero(bound: Option<Bound>) -> u64
    ensures { result ≡ end_or_zero bound }
{
    match bound {
        None => 0,
        Some(bound) => bound.end,
    }
}

/// The value of `__start_X` and `__stop_X`, where the section X begins and ends. Only such names take memory.
fn bound_value(alloc: Global, bounds: &Bounds, name: &[u8]) -> Result<u64, NoMemory>
    ensures { IfOk result (λ value. value ≡ bound_value_by (bound_of bounds.now.entries) name.now) }
{
    if name.starts_with(b"__start_") {
        let bound = bound_named(alloc, bounds, rest_from(name, 8))?;
        return Ok(start_or_zero(bound));
    }
    if name.starts_with(b"__stop_") {
        let bound = bound_named(alloc, bounds, rest_from(name, 7))?;
        return Ok(end_or_zero(bound));
    }
    Ok(0)
}

impl<'a> MadeValues<'a> {
    /// What the values of made symbols are found from at a placement.
    ///
    /// # Errors
    /// Out of memory.
    pub(crate) fn new(alloc: Global, place: &'a Placement) -> Result<Self, NoMemory>
        ensures { IfOk result (λ made. made ≡ place.now) }
    {
        let with_pieces = sections_with_pieces(alloc, place.pieces.as_slice())?;
        let bounds = bounds_among(alloc, &with_pieces, place.sections.as_slice())?;
        let places = made_places(place);
        Ok(MadeValues {
            place,
            places,
            bounds,
        })
    }

    /// The low bits of the value of a name that the linker makes.
    ///
    /// # Errors
    /// Out of memory.
    pub(crate) fn value(&self, alloc: Global, name: &[u8]) -> Result<u64, NoMemory>
        ensures { IfOk result (λ value. value ≡ made_in self.now name.now) }
    {
        match fixed_value(&self.places, name) {
            Some(value) => Ok(value),
            None => bound_value(alloc, &self.bounds, name),
        }
    }
}
