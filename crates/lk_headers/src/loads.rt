//! The headers of the loaded segments (gABI "Program Header", "Program Loading"). The first begins at
//! the start of the file, each other one at the next page after the one before.

ghost use Rattle.std.specs.Prelude.{◌≡◌, ◌<◌, ◌^◌};
ghost use Rattle.std.specs.List.{list_any};
ghost use Rattle.lk_model.specs.SectionKeys.{same_class};
ghost use Rattle.lk_model.specs.declared.layouts.Class.TheVariants.{WX};
ghost use Rattle.lk_elf.specs.Records.{phdr_bytes};
ghost use Rattle.lk_model.specs.Amounts.{round_up};
ghost use Rattle.lk_model.specs.FullPlace.{page};
ghost use Rattle.lk_model.specs.Segments.{first_load, first_segment_end, load_header, second_segment_start, third_flags, third_load, third_segment_start};
ghost use Rattle.lk_headers.specs.Ends.{has_items, is_in_segment, rows_in};
ghost use Rattle.lk_headers.specs.ProgramHeaders.{second_header};

use crate::low_bits::{above, low_64};
use crate::segments::{Loaded, Side, end_in, is_in_segment};
use lk_elf::Phdr;
use lk_elf::numbers::{PF_R, PF_W, PF_X, PT_LOAD};
use lk_model::classes::same_class;
use lk_model::images::{FIRST_ADDRESS, LOAD_BASE, PAGE};
use lk_model::layouts::{Class, Placement, SectionRow};

/// A number of bytes rounded up to whole pages.
fn next_page(n: u128) -> u128
    requires { n < 2 ^ 65 }
    ensures { result ≡ round_up n page }
{
    (n + (u128::from(PAGE) - 1)) / u128::from(PAGE) * u128::from(PAGE)
}

/// Where the first segment ends.
fn first_segment_end(place: &Placement) -> u128
    ensures value { result ≡ first_segment_end place.now }
    ensures bound { result < 2 ^ 65 }
{
    u128::from(FIRST_ADDRESS).max(end_in(Side::Memory, Loaded::First, place))
}

/// Where the second segment begins.
fn second_segment_start(place: &Placement) -> u128
    ensures { result ≡ second_segment_start place.now }
{
    next_page(first_segment_end(place))
}

/// Where the third segment begins.
fn third_segment_start(place: &Placement) -> u128
    ensures { result ≡ third_segment_start place.now }
{
    let end = end_in(Side::Memory, Loaded::Second, place);
    next_page(first_segment_end(place).max(end))
}

/// The program header of a loaded segment, from its address to its ends in the file and in memory.
#[tactic(auto, using(crate::proofs::FieldBytes::phdr_reported))]
fn load(flags: u32, address: u128, stored: u128, end: u128) -> Phdr
    ensures { phdr_bytes result ≡ phdr_bytes (load_header flags address stored end) }
{
    Phdr {
        p_type: PT_LOAD,
        p_flags: flags,
        p_offset: low_64(above(address, u128::from(LOAD_BASE))),
        p_vaddr: low_64(address),
        p_paddr: low_64(address),
        p_filesz: low_64(above(stored, address)),
        p_memsz: low_64(above(end, address)),
        p_align: PAGE,
    }
}

/// Whether a segment has a section.
#[tactic(auto, using(crate::proofs::Rows::any_left))]
pub(crate) fn has_rows(segment: Loaded, place: &Placement) -> bool
    ensures { result ≡ has_items (rows_in segment place.now.sections) }
{
    is_any_in(segment, place.sections.as_slice())
}

/// Whether any of these sections is in a segment.
fn is_any_in(segment: Loaded, rows: &[SectionRow]) -> bool
    ensures { result ≡ list_any (is_in_segment segment) rows.now }
{
    rows.iter().any(|row| is_in_segment(segment, row))
}

/// The flags (`p_flags`) of the third segment.
fn third_flags(place: &Placement) -> u32
    ensures { result ≡ third_flags place.now }
{
    if has_code(place.sections.as_slice()) {
        PF_R + PF_W + PF_X
    } else {
        PF_R + PF_W
    }
}

/// Whether a section is both writable and executable.
fn has_code(rows: &[SectionRow]) -> bool
    ensures { result ≡ list_any (λ row. same_class row.key.class WX) rows.now }
{
    rows.iter().any(|row| same_class(row.key.class, Class::WX))
}

/// The program header of the first segment, which begins with the file header and the program headers.
pub(crate) fn first_load(place: &Placement) -> Phdr
    ensures { phdr_bytes result ≡ phdr_bytes (first_load place.now) }
{
    let end = first_segment_end(place);
    load(PF_R, u128::from(LOAD_BASE), end, end)
}

/// The program header of the second segment, if it has a section.
pub(crate) fn second_load(place: &Placement) -> Phdr
    ensures { phdr_bytes result ≡ phdr_bytes (second_header place.now) }
{
    load(
        PF_R + PF_X,
        second_segment_start(place),
        end_in(Side::File, Loaded::Second, place),
        end_in(Side::Memory, Loaded::Second, place),
    )
}

/// The program header of the third segment.
pub(crate) fn third_load(place: &Placement) -> Phdr
    ensures { phdr_bytes result ≡ phdr_bytes (third_load place.now) }
{
    load(
        third_flags(place),
        third_segment_start(place),
        end_in(Side::File, Loaded::Third, place),
        end_in(Side::Memory, Loaded::Third, place),
    )
}
