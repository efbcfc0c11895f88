//! The code of bundles, and the images of code that a core runs.
//!
//! A bundle's code is one or two words of 32 bits, by the table of `specs/Codes.antt`: each field of an
//! instruction has its place in the word, and a bit that no field has is 0. `encode` puts the fields
//! together. `decode` answers exactly the bundle for which two words stand, and None exactly where there
//! is none.
//!
//! An `Image` is what a task's core is started with: the words of its functions, the places at which
//! they start, the words that its private memory has at first, and the part of that memory that gets the
//! input. It always keeps the limits that `specs/Images.antt` states.
//!
//! No call of this crate takes memory.
//!
//! What its words mean stands in [the glossary](../../../docs/GLOSSARY.md).
#![tactic(auto)]

mod coding;
mod decoding;
mod images;
mod laws;

pub use coding::{Coded, encode};
pub use decoding::decode;
pub use images::{Image, MOST_IN_FUNCTION, MOST_IN_IMAGE};
pub use laws::{codes_differ, decoding_is_exact, limits, worked_words};
