//! The symbols of fixed names that the linker makes (this project's own; names as GNU linkers give them).

ghost use Rattle.std.specs.Prelude.{◌≡◌};
ghost use Rattle.lk_model.specs.MadeSymbols.{bss_start};
ghost use Rattle.lk_symbol_values.specs.MadePlaces.{array_bound, array_symbols, code_symbols, end_symbols, fixed_value, made_places_of, table_symbols, value_among};
ghost use Rattle.lk_symbol_values.specs.Sections.{low_64};

use crate::sections::{
    is_name, second_segment_end, section_end, section_start, section_start_or_zero,
    third_segment_end,
};
use lk_model::images::LOAD_BASE;
use lk_model::layouts::{Class, Placement};

/// Where a section begins and ends, by the low bits.
#[derive(Clone, Copy)]
pub(crate) struct Bound {
    pub(crate) start: u64,
    pub(crate) end: u64,
}

/// The addresses that fixed names mean, by their low bits.
#[derive(Clone, Copy)]
pub(crate) struct MadePlaces {
    got: u64,
    dynamic: u64,
    preinit_array: Bound,
    init_array: Bound,
    fini_array: Bound,
    /// Where the second segment ends.
    code_end: u64,
    /// Where `.bss` begins, else where the third segment ends.
    bss: u64,
    /// Where the third segment ends.
    end: u64,
}

/// Where an array of functions begins and ends.
fn array_bound(place: &Placement, name: &[u8]) -> Bound
    ensures { result ≡ array_bound place.now name.now }
{
    Bound {
        start: section_start_or_zero(place, name, Class::W),
        end: section_end(place, name, Class::W),
    }
}

/// Where `.bss` begins, else where the third segment ends.
fn bss_start(place: &Placement) -> u64
    ensures { result ≡ low_64 (bss_start place.now) }
{
    match section_start(place, b".bss", Class::Bss) {
        Some(start) => start,
        None => third_segment_end(place),
    }
}

/// The addresses that fixed names mean.
pub(crate) fn made_places(place: &Placement) -> MadePlaces
    ensures { result ≡ made_places_of place.now }
{
    MadePlaces {
        got: section_start_or_zero(place, b".got.plt", Class::W),
        dynamic: section_start_or_zero(place, b".dynamic", Class::W),
        preinit_array: array_bound(place, b".preinit_array"),
        init_array: array_bound(place, b".init_array"),
        fini_array: array_bound(place, b".fini_array"),
        code_end: second_segment_end(place),
        bss: bss_start(place),
        end: third_segment_end(place),
    }
}

/// The value of a name of a table or of the headers.
fn table_value(places: &MadePlaces, name: &[u8]) -> Option<u64>
    ensures { result ≡ value_among (table_symbols places.now) name.now }
{
    if is_name(b"_GLOBAL_OFFSET_TABLE_", name) {
        return Some(places.got);
    }
    if is_name(b"_DYNAMIC", name) {
        return Some(places.dynamic);
    }
    if is_name(b"__ehdr_start", name) {
        return Some(LOAD_BASE);
    }
    if is_name(b"__executable_start", name) {
        return Some(LOAD_BASE);
    }
    None
}

/// The value of a name of an end of an array of functions.
fn array_value(places: &MadePlaces, name: &[u8]) -> Option<u64>
    ensures { result ≡ value_among (array_symbols places.now) name.now }
{
    if is_name(b"__preinit_array_start", name) {
        return Some(places.preinit_array.start);
    }
    if is_name(b"__preinit_array_end", name) {
        return Some(places.preinit_array.end);
    }
    if is_name(b"__init_array_start", name) {
        return Some(places.init_array.start);
    }
    if is_name(b"__init_array_end", name) {
        return Some(places.init_array.end);
    }
    if is_name(b"__fini_array_start", name) {
        return Some(places.fini_array.start);
    }
    if is_name(b"__fini_array_end", name) {
        return Some(places.fini_array.end);
    }
    None
}

/// The value of a name of the end of the code.
fn code_value(places: &MadePlaces, name: &[u8]) -> Option<u64>
    ensures { result ≡ value_among (code_symbols places.now) name.now }
{
    if is_name(b"etext", name) || is_name(b"_etext", name) || is_name(b"__etext", name) {
        return Some(places.code_end);
    }
    None
}

/// The value of a name of the end of the data or of the image.
fn end_value(places: &MadePlaces, name: &[u8]) -> Option<u64>
    ensures { result ≡ value_among (end_symbols places.now) name.now }
{
    if is_name(b"edata", name) || is_name(b"_edata", name) || is_name(b"__bss_start", name) {
        return Some(places.bss);
    }
    if is_name(b"end", name) || is_name(b"_end", name) {
        return Some(places.end);
    }
    None
}

/// The value of a symbol of a fixed name.
pub(crate) fn fixed_value(places: &MadePlaces, name: &[u8]) -> Option<u64>
    ensures { result ≡ fixed_value places.now name.now }
{
    if let Some(value) = table_value(places, name) {
        return Some(value);
    }
    if let Some(value) = array_value(places, name) {
        return Some(value);
    }
    if let Some(value) = code_value(places, name) {
        return Some(value);
    }
    end_value(places, name)
}
