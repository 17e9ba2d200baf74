//! The records of the inputs, those that were not added too.

ghost use Rattle.std.specs.Prelude.{◌≡◌, [], length, map, IfOk};
ghost use Rattle.lk_marks.specs.Marked.{marks_of};
ghost use Rattle.lk_records.specs.InputRecords.{records_with};
ghost use Rattle.lk_records.specs.Occurrences.{name_path, occurrences_after};

use crate::occurrences::occurrences_of;
use lk_incr::{RecordedInput, RecordedInputs};
use lk_marks::Marks;
use lk_model::input_names::InputName;
use lk_model::summaries::InputSummary;
use lk_report::{List, NoMemory};
use std::alloc::Global;

/// The records of inputs with these occurrences and marks.
fn records_of<'a>(
    alloc: Global,
    names: &'a [InputName],
    occurrences: &[u32],
    marks: &[bool],
    summaries: &'a [InputSummary],
) -> Result<RecordedInputs<'a>, NoMemory>
    requires names { length names.now ≡ length summaries.now }
    requires occurrences { length occurrences.now ≡ length summaries.now }
    requires marks { length marks.now ≡ length summaries.now }
    ensures { IfOk result (λ rows. rows ≡ records_with names.now occurrences.now marks.now summaries.now) }
{
    let mut records = List::new(alloc);
    for (n, summary) in summaries.iter().enumerate() {
        let name = &names[n];
        records.push(RecordedInput::of(name, occurrences[n], marks[n], summary))?;
    }
    Ok(records)
}

/// The records of inputs, of which those with these numbers are added. They borrow the names and the summaries.
///
/// # Errors
/// Out of memory alone.
pub fn input_records<'a>(
    alloc: Global,
    names: &'a [InputName],
    summaries: &'a [InputSummary],
    added: &[u32],
) -> Result<RecordedInputs<'a>, NoMemory>
    requires { length names.now ≡ length summaries.now }
    ensures { IfOk result (λ rows. rows ≡ records_with names.now (occurrences_after [] (map name_path names.now)) (marks_of added.now (length names.now)) summaries.now) }
{
    let occurrences = occurrences_of(alloc, names)?;
    let marks = Marks::of(alloc, names.len(), added)?;
    records_of(
        alloc,
        names,
        occurrences.as_slice(),
        marks.as_slice(),
        summaries,
    )
}
