//! Bounds of C programs by their weights.
//!
//! The bound of compiled code is worked out from its bundles. What it is at most is known without them: from what a
//! program's functions weigh, how often their loops run anything, and how many calls stand in them. So a bound is known
//! of many programs at once, whatever numbers stand in their texts. The crate has definitions and laws, and no code
//! besides.
//!
//! - `specs/Weights.antt`: the bound by weights.
//! - `specs/Trees.antt`: the iterations and the calls of single-path statements; `specs/Leaves.antt`: functions that have
//!   none, or no more than others.
//! - `specs/Counts.antt`: the same of code, for proofs.
//!
//! - [`programs_are_bounded_by_weights`]: the bound of a valid program is at most the one by the weights of its functions,
//!   with the iterations and the calls of its tree.
//! - [`calls_taken_in_add_none`]: a function that may take in calls of functions without loops and calls has no more
//!   iterations and calls than its text. So the bound by weights does not depend on which calls are taken in.
//!
//! What its words mean stands in [the glossary](../../../docs/GLOSSARY.md).
#![tactic(auto)]

mod laws;

pub use laws::{calls_taken_in_add_none, programs_are_bounded_by_weights};
