//! The law of taking: a loader refuses no image that a link writes.
//!
//! There is no code here. lk_model says what a loader refuses (`load_refusal`) and lk_law_loading proves where a
//! loader finds every piece. The contract of `images_are_taken` says that the headers of every image that is laid
//! out at a lawful placement within the limits pass the checks of a loader, and that the image is taken, static or
//! dynamic, made anew or kept up to date, whatever the image's tail is. So the image of every command whose
//! inputs have no fault is taken, and every piece is at its address.
//!
//! How it is shown: the file header reads back; each program header and the range of the file that it names end
//! at or before the tail; the LOADs rise; without a dynamic section nothing is named. In a dynamic link the
//! DYNAMIC header is that of the dynamic section, whose entries read back; each table is loaded from its
//! section's address on, as many bytes as its entry says, or the hash table; and the names of symbols and of
//! needed shared objects begin in the string table, which ends with a zero.
#![tactic(auto)]

mod laws;

pub use laws::images_are_taken;
