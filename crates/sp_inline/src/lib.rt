//! Calls in loops of single-path trees, in the place of which the statements of their functions stand.
//!
//! A call costs a load of the function's code into the method cache and the words that pass its arguments and its
//! result, at each iteration of the loop that it stands in. So [`take_in`] puts the statements of the function in its
//! place, over further words of the caller's frame, as far as the caller then keeps to its most words of code and of its
//! frame: of the calls in its loops, from the first on, each for which there is room. Where those statements begin by
//! testing the function's mask, as in each function of C, that mask is set at once to whether the mask of the call is 1.
//! [`take_in`] goes through each function once, and measures each once as it stands and once as it becomes.
//!
//! - What is made: `specs/Taken.antt`, over statements that are moved (`specs/Moved.antt`) and the words and functions
//!   that they name (`specs/Reach.antt`). [`take_in`] makes exactly that, of every unit.
//! - What holds of it: [`taken_calls_change_nothing`], [`taken_calls_are_formed`], [`taken_calls_keep_limits`] and
//!   [`taken_calls_use_no_more`].
//!
//! What its words mean stands in [the glossary](../../../docs/GLOSSARY.md).
#![tactic(auto)]

mod beginnings;
mod callees;
mod callers;
mod calls;
mod costs;
mod endings;
mod laws;
mod levels;
mod measured;
mod moves;
mod reach;
mod room;
mod units;
mod walk;

pub use laws::{
    taken_calls_are_formed, taken_calls_change_nothing, taken_calls_keep_limits,
    taken_calls_use_no_more,
};
pub use room::Room;
pub use units::take_in;
