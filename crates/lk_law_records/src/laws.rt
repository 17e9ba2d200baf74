//! What an image records, as contracts of functions that do nothing: what is stated in specs/ alone could
//! stay unproved.

ghost use Rattle.lk_law_records.specs.RecordedLaws.{CommandsFit, FullLinksAreRecorded, FullPlaceIsRecorded, InputsOfCommandsFit, LimitsMakeRecordable};

/// An image that has the stretches of a full placement records that placement, where it is recordable:
/// every number and text fits the field that a record has for it.
pub fn full_place_is_recorded()
    ensures { FullPlaceIsRecorded }
{}

/// A lawful full placement within the limits is recordable, where the options and the inputs fit.
pub fn limits_make_recordable()
    ensures { LimitsMakeRecordable }
{}

/// The inputs of a command fit, where its words hold no zero byte, its files are bytes, and no input has a
/// fault or is longer than a field reports.
pub fn inputs_of_commands_fit()
    ensures { InputsOfCommandsFit }
{}

/// A command that words are fits: a word that holds a zero byte is refused.
pub fn commands_fit()
    ensures { CommandsFit }
{}

/// Where the answer of the words of a static link is a full link, and its full placement is lawful, an image
/// that has the stretches of that placement records it.
pub fn full_links_are_recorded()
    ensures { FullLinksAreRecorded }
{}
