//! C tasks, run.
//!
//! The functions of a program whose names are resolved are run on memories in code. What that does is exactly what the
//! actions do (`specs/Ran.antt`), for every list of sends that were started before: sends change nothing here, and are
//! not kept. A run takes no memory and looks up no name; it goes only as deep as the program and its chain of calls.
//!
//! [`mean`] is what a program means on its input: it resolves its names once, runs `main` on the memories that the task
//! begins with, and tells the value, whether a loop went past its bound, and the words of all variables and arrays at
//! the end (`specs/Reported.antt`); [`output_of`] says which of those is the output.
//!
//! What its words mean stands in [the glossary](../../../docs/GLOSSARY.md).
#![tactic(auto)]

mod begin;
mod locations;
mod outcome;
mod run;
mod settings;
mod worked;

pub use outcome::{Outcome, mean, output_of};
pub use run::called;
pub use worked::worked_told;
