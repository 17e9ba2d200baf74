//! The texts of an image (`.gnu_incremental_strtab`, a string section as in gABI "String Table"): each is there once,
//! and nothing is behind the last zero. Texts are compared by hash; none is copied.

ghost use Rattle.std.specs.Prelude.{◌≡◌, count_by, IfOk};
ghost use Rattle.lk_model.specs.RecordsReading.{in_section};
ghost use Rattle.lk_model.specs.TextsReading.{is_end, texts_read};
ghost use Rattle.lk_records_read.specs.DistinctTexts.{IsNoted, TextNoted, texts_in};
ghost use Rattle.lk_records_read.specs.ReadAnswers.{IsPassed, RecordsPass};

use crate::cursors::Cursor;
use crate::refusals::Refusal;
use crate::section_faults::fault_in;
use indexmap::IndexSet;
use lk_model::records::RecordFault;
use lk_report::NoMemory;
use std::alloc::Global;

/// The section's number among the five.
const STRTAB: u32 = 4;

/// How many texts end in these bytes.
fn ends_in(bytes: &[u8]) -> usize
    ensures { result ≡ count_by is_end bytes.now }
{
    bytes.iter().filter(|b| **b == 0).count()
}

/// Notes a text: whether it is there for the first time.
///
/// # Errors
/// Out of memory.
fn note_text<'a>(texts: &mut IndexSet<&'a [u8]>, text: &'a [u8]) -> Result<bool, NoMemory>
    ensures { IfOk result (λ is_first. IsNoted (texts_in texts.old.keys) text.now is_first (texts_in texts.new.keys)) }
{
    let Ok(is_first) = texts.insert(text) else {
        return Err(NoMemory);
    };
    Ok(is_first)
}

/// Reads the next text, and notes it.
///
/// # Errors
/// A text that is there a second time; out of memory.
#[tactic(auto, using(crate::proofs::TextsNoted::text_new, crate::proofs::TextsNoted::text_again))]
fn read_text<'a>(texts: &mut IndexSet<&'a [u8]>, cursor: &mut Cursor<'a>) -> Result<(), Refusal>
    ensures { TextNoted (texts_in texts.old.keys) cursor.old result (texts_in texts.new.keys) cursor.new }
{
    let left = cursor.left();
    let text = cursor.text();
    if note_text(texts, text)? {
        Ok(())
    } else {
        Err(Refusal::Bad { left })
    }
}

/// Reads all texts of a section.
///
/// # Errors
/// The first that is there a second time, or the first byte left over; out of memory.
fn pass_texts(alloc: Global, strtab: &[u8]) -> Result<(), Refusal>
    ensures { IsPassed (texts_read strtab.now) result }
{
    let mut texts = IndexSet::new(alloc);
    let mut cursor = Cursor::new(strtab);
    let count = ends_in(strtab);
    for k in 0..count {
        read_text(&mut texts, &mut cursor)?;
    }
    cursor.finish()
}

/// Reads the texts of an image to their end (`.gnu_incremental_strtab`), which other sections share. Time is linear.
///
/// # Errors
/// The second of two equal texts, or the first byte left over, as a bad place of section 4; out of memory.
pub fn check_texts(alloc: Global, strtab: &[u8]) -> Result<(), RecordFault>
    ensures { RecordsPass (in_section 4 strtab.now (texts_read strtab.now)) result }
{
    match pass_texts(alloc, strtab) {
        Ok(()) => Ok(()),
        Err(refusal) => Err(fault_in(STRTAB, strtab, refusal)),
    }
}
