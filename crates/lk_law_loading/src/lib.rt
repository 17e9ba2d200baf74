//! The law of loading: a loader finds the bytes of every piece of a link where its placement has it.
//!
//! There is no code here. lk_model says what an image holds (`stretches_of`), what a loader makes of it
//! (`loaded`: each LOAD header maps a range of the file to addresses) and what it must find (`AllLoaded`).
//! The contract of `pieces_are_loaded` says that it does find it: in every image that is laid out at a
//! lawful placement with at most 64 program headers and at most 2 GiB of memory, made anew or kept up to
//! date, static or dynamic, whatever the image's tail is. For links made anew nothing more is asked than
//! that no input has a fault. So a link that is proved to lay its image out need prove nothing of loading.
//!
//! How it is shown: the program headers read back, each number within its field; the rooms of a segment's
//! rows lie between its ends, and segments do not overlap, so that the header which is found for an address
//! is that of its row's segment; an address is as far from the load base as its byte from the start of
//! the file; zeros come last in their segment; the thread-local sections are one of each class, side by side.
//! A piece's linked bytes are as many as its size, since the fields of its relocations lie in it.
#![tactic(auto)]

mod laws;

pub use laws::pieces_are_loaded;
