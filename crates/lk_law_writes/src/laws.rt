//! What an image holds that is written stretch by stretch, as contracts of functions that do nothing: what
//! is stated in specs/ alone could stay unproved.

ghost use Rattle.lk_law_writes.specs.LaidLaws.{CommandIsWritten, GroupsAreWritten, HeadersAreShort, InputsAreLayable, LinkIsWritten, LinkIsWrittenInOrder, SealedLinkIsWritten, SectionsEndWithin, StretchesAreLaid, TablesAreWritten, TablesAreZeros};
ghost use Rattle.lk_law_writes.specs.WrittenLaws.{LengthStays, PartsAreWhole, PaddingIsZeros, WrittenInTurn, WrittenIsLaidOut, WrittenIsAt};

/// Bytes into which stretches were written that share no byte hold each of them; what none of them has is as
/// it was. Zeros into which all stretches of a list that share no byte were written, in any order, are a file
/// that is laid out; a stretch may be written in parts or twice, and zeros need not be written.
pub fn writes_are_laid_out()
    ensures length { LengthStays }
    ensures in_turn { WrittenInTurn }
    ensures parts { PartsAreWhole }
    ensures is_at { WrittenIsAt }
    ensures laid_out { WrittenIsLaidOut }
    ensures padding { PaddingIsZeros }
{}

/// The stretches of a link at a lawful placement share no byte, and the last one ends the image: static or
/// dynamic, whatever its tail is. The tables of a static link that needs no slot and no entry hold zeros alone.
pub fn stretches_are_laid()
    ensures stretches { StretchesAreLaid }
    ensures headers { HeadersAreShort }
    ensures sections { SectionsEndWithin }
    ensures tables { TablesAreZeros }
{}

/// Zeros into which the headers, the seal, the pieces, the fill and the tail of a link were written, in any
/// order, are its image, where its tables hold zeros; with its tables written too they are its image always.
pub fn link_is_written()
    ensures any_order { LinkIsWritten }
    ensures groups { GroupsAreWritten }
    ensures in_order { LinkIsWrittenInOrder }
    ensures sealed { SealedLinkIsWritten }
    ensures with_tables { TablesAreWritten }
{}

/// So they are for every link made anew of inputs without a fault, within the limits.
pub fn command_is_written()
    ensures inputs { InputsAreLayable }
    ensures command { CommandIsWritten }
{}
