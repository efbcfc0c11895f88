//! What C tasks mean.
//!
//! `specs/Meaning.antt` tells it by recursion on the plain tree of a program: a statement takes the words of a
//! function's variables, by their levels, and the memories, and gives them as they are after it, with the way
//! on. All that C leaves open is decided: division by 0, shifts, elements past an array's end, loops past their
//! bound. `specs/Begun.antt` says what a task begins with.
//!
//! Names can be resolved once: [`resolve`] gives a program's functions as actions ([`Action`]) that name
//! variables by their levels, all else by its place in the memories, and functions by their numbers. It is
//! exactly `specs/Resolve.antt` of the program's plain tree; and what those actions do (`specs/Resolved.antt`) is
//! what the program means, as [`names_resolved_once`] says.
//!
//! What its variables and arrays begin with, and where its input lies, [`add_initial`] and [`input_place`] work out.
//!
//! What its words mean stands in [the glossary](../../../docs/GLOSSARY.md).
#![tactic(auto)]

mod actions;
mod beginnings;
mod expressions;
mod globals;
mod laws;
mod operators;
mod routines;
mod scopes;
mod statements;
mod targets;
mod ways;
mod worked;

pub use actions::{Action, Arguments, Array, Assignment, Branch, Level, Routine, Target, Word};
pub use beginnings::{InputPlace, add_initial, input_place};
pub use expressions::array_of;
pub use laws::names_resolved_once;
pub use routines::{Resolved, resolve};
pub use ways::Way;
pub use worked::{worked_loops, worked_operators, worked_places};
