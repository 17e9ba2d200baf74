//! What an image records of its link: the placement that it was made at, which lk_model's `IsLinkAt` asks of
//! every link.
//!
//! No code is here, but laws about lk_model's definitions (specs/RecordedLaws.antt). The one that callers
//! rely on is `full_links_are_recorded`: where the answer of the words of a static link is a full link, its
//! full placement is lawful and the image has the stretches of that placement, the image's own record
//! sections, found through its section headers, read back to it. It is put together of four:
//! `full_place_is_recorded` says so of any options and inputs, static or dynamic, with any lib groups, that
//! are recordable (`IsRecordable` in specs/Recordable.antt: every number and text fits the field that a record
//! has for it); `limits_make_recordable` gives this of a lawful placement within the limits;
//! `inputs_of_commands_fit` and `commands_fit` give what that asks of the inputs, of their files and of the
//! words (specs/CommandFits.antt).
#![tactic(auto)]

mod laws;

pub use laws::{
    commands_fit, full_links_are_recorded, full_place_is_recorded, inputs_of_commands_fit,
    limits_make_recordable,
};
