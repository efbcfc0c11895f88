//! The shape of compiled code.
//!
//! Single-path code has no branch but those of loops that always make all their iterations, so its bundles stand in few
//! kinds of parts: straight code, a body that is repeated, a call, and the return at a function's end. A [`Shape`] is
//! the functions of a task in such parts, before the targets of its flows are known.
//!
//! - What is said: [`Part`] and [`Shape`]. `specs/Parts.antt` is the same without places in memory, and
//!   `specs/Shown.antt` what a shape in code says.
//! - What is well formed: `specs/Formed.antt`.
//! - In which order its bundles are run: `specs/Trail.antt`; and what comes of it: `specs/Run.antt`, over the words of
//!   `specs/Memory.antt`.
//! - When its loops make all the iterations that the order says, and its functions return to where they were called from:
//!   `specs/Iterating.antt`.
//! - When all that is asked of the stack is within it: `specs/Pointers.antt`.
//! - How many words it takes: `specs/Words.antt`, of a bundle [`words_of_bundle`]; what is
//!   said of each bundle: `specs/Bundles.antt`.
//!
//! What its words mean stands in [the glossary](../../../docs/GLOSSARY.md).
#![tactic(auto)]

mod laws;
mod parts;
mod words;
mod worked;

pub use laws::{parts_join, trails_go_on};
pub use parts::{Part, Shape};
pub use words::words_of_bundle;
pub use worked::{worked_iterations, worked_runs, worked_shapes, worked_trails};
