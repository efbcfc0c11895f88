//! Single-path conversion of C tasks (Puschner's single-path transformation): branches become masks,
//! and each loop makes all the iterations of its bound.
//!
//! [`convert`] gives the single-path tree of a valid program. It is exactly `specs/Single.antt` of the program; and
//! what the tree comes to is what the program means, for every input and all words that the shared memories begin with.
//!
//! - `specs/PartWords.antt`: the words of a frame that decide what has an effect, and what they are set to.
//! - `specs/Counted.antt`: loops that count.
//! - `specs/Made.antt`: the statements that are made of actions.
//! - `specs/Widths.antt`: how many words of a frame actions need.
//! - `specs/Single.antt`: functions and units; what each function may weigh, and how many words its frame may have;
//!   and the tree, whose functions take in calls in loops within these limits.
//! - `specs/Masked.antt`: in which words of a frame masks are set.
//! - `specs/Used.antt`: what the tree uses, beside what the text does.
//!
//! What its words mean stands in [the glossary](../../../docs/GLOSSARY.md), and how C texts become code in
//! [the page on the compiler](../../../docs/COMPILER.md).
#![tactic(auto)]

mod counted;
mod exits;
mod laws;
mod masks;
mod part_words;
mod statements;
mod units;
mod widths;

pub use laws::other_masks_change_nothing;
pub use units::convert;
