//! The heads of the section of inputs (`.gnu_incremental_inputs`): its own, with the options of the link, and that of
//! each input, with its path, its stamp and its counts.

ghost use Rattle.std.specs.Prelude.{◌≡◌, ◌≤◌, [], ◌∷◌, true, false, length, slice_get, IfOk};
ghost use Rattle.lk_elf.specs.Fields.{signed64};
ghost use Rattle.lk_model.specs.InputsReading.{is_kind, stamp_with, truth_of_number};
ghost use Rattle.lk_records_read.specs.HeadsRead.{head_in, head_named, input_head_in, input_head_named, read_head, read_input_head};
ghost use Rattle.lk_records_read.specs.ReadAnswers.{ReadGives};

use crate::counts::{HEAD_SIZE, INPUT_SIZE};
use crate::cursors::Cursor;
use crate::fields::{u32_at, u64_at};
use crate::refusals::Refusal;
use crate::texts::text_at;
use lk_report::{Bytes, Name, NoMemory, OptionRecord, Stamp};
use std::marker::Model;

/// An object outside a lib group.
const OBJECT: u32 = 1;
/// A member of a lib group that the link added.
const ADDED: u32 = 2;
/// A member of a lib group that the link did not add.
const NOT_ADDED: u32 = 3;
/// A shared object.
const SHARED: u32 = 4;

/// The head of the section: the options, and how many inputs and output sections follow.
#[derive(Drop)]
pub(crate) struct SectionHead {
    pub(crate) options: OptionRecord,
    pub(crate) inputs: u32,
    pub(crate) sections: u32,
}

impl Model for SectionHead {
    ghost use Rattle.lk_model.specs.InputsReading.{Head};

    ghost Value = { Head };

    ghost view = { λ h. record { options = h.options; inputs = h.inputs; sections = h.sections } };
}

/// The head of an input: what it is, and how many pieces, symbols and groups follow.
#[derive(Drop)]
pub(crate) struct HeadOfInput {
    pub(crate) path: Name,
    pub(crate) occurrence: u32,
    pub(crate) kind: u32,
    pub(crate) lib: u32,
    pub(crate) stamp: Option<Stamp>,
    pub(crate) soname: Name,
    pub(crate) pieces: u32,
    pub(crate) globals: u32,
    pub(crate) groups: u32,
    pub(crate) exec_stack: bool,
}

impl Model for HeadOfInput {
    ghost use Rattle.lk_model.specs.InputsReading.{InputHead};

    ghost Value = { InputHead };

    ghost view = { λ h. record { path = h.path; occurrence = h.occurrence; kind = h.kind; lib = h.lib; stamp = h.stamp; soname = h.soname; pieces = h.pieces; globals = h.globals; groups = h.groups; exec_stack = h.exec_stack } };
}

/// A truth by its number; none for a number of neither.
#[tactic(auto, using(std::proofs::lemmas::Option::slice_get_past))]
pub(crate) fn truth_of_number(n: u32) -> Option<bool>
    ensures { result ≡ truth_of_number n }
{
    match n {
        0 => Some(false),
        1 => Some(true),
        _ => None,
    }
}

/// Whether the link has a shared input, by the flags of the section.
#[tactic(auto, using(std::proofs::lemmas::Option::slice_get_past))]
fn dynamic_by(flags: u32) -> Option<bool>
    ensures { result ≡ slice_get (false ∷ true ∷ false ∷ true ∷ []) flags }
{
    match flags {
        0 | 2 => Some(false),
        1 | 3 => Some(true),
        _ => None,
    }
}

/// Whether every definition is exported, by the flags of the section.
#[tactic(auto, using(std::proofs::lemmas::Option::slice_get_past))]
fn export_by(flags: u32) -> Option<bool>
    ensures { result ≡ slice_get (false ∷ false ∷ true ∷ true ∷ []) flags }
{
    match flags {
        0 | 1 => Some(false),
        2 | 3 => Some(true),
        _ => None,
    }
}

/// Whether an input of this kind may have this number of a lib group, which is 0 outside one.
fn is_kind(kind: u32, lib: u32) -> bool
    ensures { result ≡ is_kind kind lib }
{
    if kind == OBJECT {
        return lib == 0;
    }
    if kind == ADDED || kind == NOT_ADDED {
        return 0 < lib;
    }
    kind == SHARED
}

/// A time by the eight bytes that hold it, as two's complement.
fn time_of(time: u64) -> i64
    ensures { result ≡ signed64 time }
{
    time.cast_signed()
}

/// The stamp of an input, where it has one; none where the fields of an absent one are not zeros.
fn stamp_with(flag: u32, length: u64, time: u64) -> Option<Option<Stamp>>
    ensures { result ≡ stamp_with flag length time }
{
    if flag == 1 {
        return Some(Some(Stamp {
            length,
            modified: time_of(time),
        }));
    }
    if flag == 0 && length == 0 && time == 0 {
        return Some(None);
    }
    None
}

/// An input's head by its texts and its record; none where a number of it is refused.
fn input_head_named(path: Name, soname: Name, bytes: &[u8]) -> Option<HeadOfInput>
    requires { 56 ≤ length bytes.now }
    ensures { result ≡ input_head_named path soname bytes.now }
{
    let kind = u32_at(bytes, 8);
    let lib = u32_at(bytes, 12);
    if !is_kind(kind, lib) {
        return None;
    }
    let Some(stamp) = stamp_with(u32_at(bytes, 16), u64_at(bytes, 24), u64_at(bytes, 32)) else {
        return None;
    };
    let Some(exec_stack) = truth_of_number(u32_at(bytes, 52)) else {
        return None;
    };
    Some(HeadOfInput {
        path,
        occurrence: u32_at(bytes, 4),
        kind,
        lib,
        stamp,
        soname,
        pieces: u32_at(bytes, 40),
        globals: u32_at(bytes, 44),
        groups: u32_at(bytes, 48),
        exec_stack,
    })
}

/// An input's head by its record; none where it is refused.
///
/// # Errors
/// Out of memory.
#[tactic(auto, using(crate::proofs::HeadsRead::input_pathless, crate::proofs::HeadsRead::input_sonameless, crate::proofs::HeadsRead::input_with_texts))]
fn input_head_in(strtab: &Bytes, bytes: &[u8]) -> Result<Option<HeadOfInput>, NoMemory>
    requires { 56 ≤ length bytes.now }
    ensures { IfOk result (λ head. head ≡ input_head_in strtab.now bytes.now) }
{
    let Some(path) = text_at(strtab, u32_at(bytes, 0))? else {
        return Ok(None);
    };
    let Some(soname) = text_at(strtab, u32_at(bytes, 20))? else {
        return Ok(None);
    };
    Ok(input_head_named(path, soname, bytes))
}

/// The next input's head.
///
/// # Errors
/// A refused record; out of memory.
#[tactic(auto, using(crate::proofs::HeadsRead::input_short, crate::proofs::HeadsRead::input_bad, crate::proofs::HeadsRead::input_good))]
pub(crate) fn read_input_head(
    strtab: &Bytes,
    cursor: &mut Cursor<'_>,
) -> Result<HeadOfInput, Refusal>
    ensures { ReadGives (read_input_head strtab.now cursor.old) result cursor.new }
{
    let bytes = cursor.take(INPUT_SIZE)?;
    let found = input_head_in(strtab, bytes)?;
    match found {
        None => Err(Refusal::Bad { left: bytes.len() }),
        Some(head) => Ok(head),
    }
}

/// The head of the section by its texts and its record; none where its flags are refused.
fn head_named(entry: Name, interp: Name, runpath: Name, bytes: &[u8]) -> Option<SectionHead>
    requires { 32 ≤ length bytes.now }
    ensures { result ≡ head_named entry interp runpath bytes.now }
{
    let flags = u32_at(bytes, 4);
    let Some(dynamic) = dynamic_by(flags) else {
        return None;
    };
    let Some(export_dynamic) = export_by(flags) else {
        return None;
    };
    Some(SectionHead {
        options: OptionRecord {
            entry,
            interp,
            runpath,
            patch: u32_at(bytes, 20),
            export_dynamic,
            dynamic,
        },
        inputs: u32_at(bytes, 24),
        sections: u32_at(bytes, 28),
    })
}

/// The head of the section by its record; none where it is refused.
///
/// # Errors
/// Out of memory.
#[tactic(auto, using(crate::proofs::HeadsRead::head_entryless, crate::proofs::HeadsRead::head_interpless, crate::proofs::HeadsRead::head_runpathless, crate::proofs::HeadsRead::head_with_texts))]
fn head_in(strtab: &Bytes, bytes: &[u8]) -> Result<Option<SectionHead>, NoMemory>
    requires { 32 ≤ length bytes.now }
    ensures { IfOk result (λ head. head ≡ head_in strtab.now bytes.now) }
{
    let Some(entry) = text_at(strtab, u32_at(bytes, 8))? else {
        return Ok(None);
    };
    let Some(interp) = text_at(strtab, u32_at(bytes, 12))? else {
        return Ok(None);
    };
    let Some(runpath) = text_at(strtab, u32_at(bytes, 16))? else {
        return Ok(None);
    };
    Ok(head_named(entry, interp, runpath, bytes))
}

/// The head of the section.
///
/// # Errors
/// A refused record; out of memory.
#[tactic(auto, using(crate::proofs::HeadsRead::head_short, crate::proofs::HeadsRead::head_bad, crate::proofs::HeadsRead::head_good))]
pub(crate) fn read_head(strtab: &Bytes, cursor: &mut Cursor<'_>) -> Result<SectionHead, Refusal>
    ensures { ReadGives (read_head strtab.now cursor.old) result cursor.new }
{
    let bytes = cursor.take(HEAD_SIZE)?;
    let found = head_in(strtab, bytes)?;
    match found {
        None => Err(Refusal::Bad { left: bytes.len() }),
        Some(head) => Ok(head),
    }
}
