//! Jobs that a number decides: four tasks in C whose functions and inputs are drawn by a linear congruence.
//!
//! A job of this form is large enough to measure how long the work on a job takes, and its number says all
//! of it, so that anybody can make the same job.
//!
//! - [`generate`] gives exactly the text that the definition in `specs/Generator.antt` gives for the number.
//!   Only want of memory may come besides. Its work is linear in the text.
//!
//! What its words mean stands in [the glossary](../../../docs/GLOSSARY.md).
#![tactic(auto)]

mod draws;
mod task;
mod text;
mod whole;
mod worked;

pub use whole::generate;
pub use worked::{limits, worked_draws};
