//! Tests of the loader: a small dynamic image, and images that are refused.
//!
//! The image has two LOADs, a dynamic section with two relocations, and a thread-local segment. It was made by
//! hand, so what is wanted of it is known from outside.
#![tactic(auto)]

#[cfg(test)]
mod images;
#[cfg(test)]
mod loading;
