//! Tokens of C texts.
//!
//! `specs/Texts.antt` says which tokens a text has: it is cut into pieces, each of which is a blank, a comment or a
//! token, and begins where the one before it ends. What each of them is stands in `Bytes`, `Blanks`, `Names`,
//! `Numbers`, `Signs` and `Bounds`. A text that cannot be cut so has a first byte with which no piece begins, or a
//! first number above 2^32 - 1. `Longest` says, in the standard's words, which of the tokens that can stand at a place
//! stands there.
//!
//! [`lex`] gives exactly these tokens, or exactly that place, in time linear in the text.
//!
//! What its words mean stands in [the glossary](../../../docs/GLOSSARY.md).
#![tactic(auto)]

mod blanks;
mod bounds;
mod classes;
mod faults;
mod laws;
mod names;
mod numbers;
mod pieces;
mod readers;
mod signs;
mod texts;

pub use faults::LexFault;
pub use laws::{every_text, worked_texts};
pub use texts::lex;
