//! The records of a link as borrowed parts: no path, summary, option or placement is copied on the way to its image.

ghost use Rattle.std.specs.Prelude.{◌≡◌};
ghost use Rattle.lk_incr.specs.RecordParts.{record_parts_with, record_with};

use lk_model::input_names::InputName;
use lk_model::layouts::Placement;
use lk_model::summaries::InputSummary;
use lk_report::{List, OptionRecord};
use std::marker::Model;

/// An input as an image records it, by its name and its summary, which are elsewhere. Contracts see it as an
/// `InputRecord` of lk_model.
#[derive(Drop)]
pub struct RecordedInput<'a> {
    pub(crate) name: &'a InputName,
    pub(crate) occurrence: u32,
    pub(crate) added: bool,
    pub(crate) summary: &'a InputSummary,
}

impl<'a> Model for RecordedInput<'a> {
    ghost use Rattle.lk_model.specs.declared.records.InputRecord.{InputRecord};

    ghost Value = { InputRecord };

    ghost view = { λ i. record { path = i.name.now.path; occurrence = i.occurrence; lib = i.name.now.lib; added = i.added; stamp = i.name.now.stamp; summary = i.summary.now } };
}

impl<'a> RecordedInput<'a> {
    /// The input with this name and summary, which has so many inputs with its path before it, and is added or not.
    pub fn of(name: &'a InputName, occurrence: u32, added: bool, summary: &'a InputSummary) -> Self
        ensures { result ≡ record_with name.now occurrence added summary.now }
    {
        RecordedInput {
            name,
            occurrence,
            added,
            summary,
        }
    }
}

/// Recorded inputs in command order.
pub type RecordedInputs<'a> = List<RecordedInput<'a>>;

/// The parts of a link's records that the record sections of its image are made of. Contracts see them as
/// `RecordPartsValue` of specs/RecordParts.antt: the version, the options, the inputs and the placement.
#[derive(Drop)]
pub struct RecordParts<'a> {
    pub(crate) version: u32,
    pub(crate) options: &'a OptionRecord,
    /// Whether the link is dynamic, whatever its options have.
    pub(crate) dynamic: bool,
    pub(crate) inputs: RecordedInputs<'a>,
    pub(crate) placement: &'a Placement,
}

impl<'a> Model for RecordParts<'a> {
    ghost use Rattle.lk_incr.specs.RecordParts.{RecordPartsValue};

    ghost Value = { RecordPartsValue };

    ghost view = { λ p. record { version = p.version; options = record p.options.now { dynamic = p.dynamic }; inputs = p.inputs; placement = p.placement.now } };
}

impl<'a> RecordParts<'a> {
    /// The parts of records of this version: these options but for `dynamic`, which is the link's own, these inputs
    /// and this placement.
    pub fn of(
        version: u32,
        options: &'a OptionRecord,
        dynamic: bool,
        inputs: RecordedInputs<'a>,
        placement: &'a Placement,
    ) -> Self
        ensures { result ≡ record_parts_with version options.now dynamic inputs.entry placement.now }
    {
        RecordParts {
            version,
            options,
            dynamic,
            inputs,
            placement,
        }
    }
}
