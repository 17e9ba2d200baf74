//! Tests of the whole link, through the call that the program makes: from words and files in memory to the
//! image, what was said, and the exit status.
//!
//! They are in a crate of their own above the driver, since a crate with tests is proved twice. `making` makes
//! objects, `running` links them; `links` has links that succeed, `fields` and `filled` look at single bytes of
//! their images, `replaced` links onto files that were there before; `refusals` and `words` have links that are
//! refused, `failures` those in which a call of the outside fails, and `broken` a link whose inputs are broken one
//! by one.
//! What is wanted is known from the gABI, the psABI and docs/IMAGE.md, and not from this linker's answers.
#![tactic(auto)]

#[cfg(test)]
mod broken;
#[cfg(test)]
mod failures;
#[cfg(test)]
mod fields;
#[cfg(test)]
mod filled;
#[cfg(test)]
mod links;
#[cfg(test)]
mod making;
#[cfg(test)]
mod refusals;
#[cfg(test)]
mod replaced;
#[cfg(test)]
mod running;
#[cfg(test)]
mod words;
