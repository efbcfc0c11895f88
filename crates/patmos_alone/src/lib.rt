//! The cycles that a core of Patmos goes through by itself: its bundles, its waiting, and the words of its own
//! memory, one after another in a loop of their own, with nothing asked of the board.
//!
//! - `run`: the loop ([`run_alone`]), up to the first cycle in which the core may do something else;
//! - `quick`: bundles that are done at once, as most are: those that ask for nothing, and branches alone;
//! - `bundles`: the others, each in the way of what it asks for;
//! - `finish`: the load or store of such a bundle;
//! - `moving`: words of the core's own memory that move in a slot;
//! - `next_active`: the first cycle in which the core may do something of its own.
//!
//! No step takes memory. What the words mean stands in [the glossary](../../../docs/GLOSSARY.md).
#![tactic(auto)]

mod bundles;
mod finish;
mod moving;
mod next_active;
mod quick;
mod run;

pub use quick::{do_branch, do_silent};
pub use run::{NextBundle, has_no_slot_left, next_offset, run_alone};
